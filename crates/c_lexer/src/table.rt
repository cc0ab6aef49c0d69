//! Tables of texts.

ghost use Rattle.std.specs.Prelude.{◌≡◌, map};
ghost use Rattle.std.specs.List.{list_any};
ghost use Rattle.std.specs.Str.{bytes_eq};
ghost use Rattle.c_lexer.specs.Lookup.{lookup};

/// What the first row for this text has.
pub(crate) fn lookup<T: Copy>(mut table: &[(&[u8], T)], text: &[u8]) -> Option<T>
    ensures { result ≡ lookup (map (λ row. (row.0.now, row.1)) table.entry.now) text.now }
{
    while let [row, rest @ ..] = table {
        if row.0 == text {
            return Some(row.1);
        }
        table = rest;
    }
    None
}

/// Whether the text is one of these words.
pub(crate) fn contains(mut words: &[&[u8]], text: &[u8]) -> bool
    ensures { result ≡ list_any (λ word. bytes_eq word text.now) (map (λ word. word.now) words.entry.now) }
{
    while let [word, rest @ ..] = words {
        if *word == text {
            return true;
        }
        words = rest;
    }
    false
}
