//! The classes of bytes that tokens are made of, and runs of one class (5.2.1, 6.4).

ghost use Rattle.std.specs.Prelude.{◌≡◌, ◌+◌, ◌≤◌, length, drop};
ghost use Rattle.std.specs.List.{prefix_len, list_all};
ghost use Rattle.c_lexer.specs.Bytes as spec;
ghost use Rattle.c_lexer.specs.Classes.{is_in};

/// The classes of bytes that runs are made of.
#[derive(Clone, Copy, Debug, PartialEq, Eq)]
pub(crate) enum Class {
    /// Letters, digits and `_`.
    Word,
    Decimal,
    Octal,
    Hexadecimal,
    /// Spaces and tabs.
    Blank,
    /// All but spaces and tabs.
    Solid,
    /// Spaces, tabs and decimal digits.
    Spaced,
    /// All but a line feed.
    Line,
}

/// A letter or an underscore (6.4.2.1).
pub(crate) fn is_letter(byte: u8) -> bool
    ensures { result ≡ spec.is_letter byte }
{
    byte.is_ascii_alphabetic() || byte == b'_'
}

/// Space, tab, line feed, vertical tab, form feed or carriage return.
pub(crate) fn is_white(byte: u8) -> bool
    ensures { result ≡ spec.is_white byte }
{
    byte == b' ' || (9 <= byte && byte <= 13)
}

pub(crate) fn is_in(class: Class, byte: u8) -> bool
    ensures { result ≡ is_in class byte }
{
    match class {
        Class::Word => is_letter(byte) || byte.is_ascii_digit(),
        Class::Decimal => byte.is_ascii_digit(),
        Class::Octal => b'0' <= byte && byte <= b'7',
        Class::Hexadecimal => byte.is_ascii_hexdigit(),
        Class::Blank => byte == b' ' || byte == b'\t',
        Class::Solid => byte != b' ' && byte != b'\t',
        Class::Spaced => byte == b' ' || byte == b'\t' || byte.is_ascii_digit(),
        Class::Line => byte != b'\n',
    }
}

/// How many bytes at the front are of the class.
pub(crate) fn run_len(class: Class, bytes: &[u8]) -> usize
    ensures value { result ≡ prefix_len (is_in class) bytes.now }
    ensures within { result ≤ length bytes.now }
{
    let mut count = 0;
    while count < bytes.len() && is_in(class, bytes[count]) {
        count += 1;
    }
    count
}

/// Whether all bytes are of the class.
#[tactic(auto, using(crate::proofs::Runs::run_is_all))]
pub(crate) fn all_in(class: Class, bytes: &[u8]) -> bool
    ensures { result ≡ list_all (is_in class) bytes.now }
{
    run_len(class, bytes) == bytes.len()
}

/// What follows the bytes of the class at the front.
pub(crate) fn past(class: Class, bytes: &[u8]) -> &[u8]
    ensures { result.now ≡ drop (prefix_len (is_in class) bytes.now) bytes.now }
{
    &bytes[run_len(class, bytes)..]
}
