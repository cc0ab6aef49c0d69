//! Counts bytes, lines and columns, and knows where a line begins.

ghost use Rattle.std.specs.Prelude.{◌≡◌, ◌+◌, ◌<◌, ◌≤◌, ◌^◌, ◌==◌, length};
ghost use Rattle.std.specs.List.{list_any};
ghost use Rattle.c_lexer.specs.declared.token.Body.{Body};
ghost use Rattle.c_lexer.specs.LexicalParts.{White, Spelled};
ghost use Rattle.c_lexer.specs.Placed.{IsPlaced};
ghost use Rattle.c_lexer.specs.Lexing as spec;

use critical_table::Pos;

/// Where a part begins.
#[derive(Clone, Copy, Debug, PartialEq, Eq)]
pub(crate) struct Place {
    /// How many bytes come before it.
    pub at: u32,
    pub pos: Pos,
    /// Only white space stands before it on its line.
    pub at_line_start: bool,
}

/// The place behind a byte: a line ends at a line feed, and columns count bytes from 1.
fn behind_byte(pos: Pos, byte: u8) -> Pos
    requires line { pos.line + 1 < 2 ^ 32 }
    requires column { pos.column + 1 < 2 ^ 32 }
    ensures { result ≡ spec.behind_byte pos byte }
{
    if byte == b'\n' {
        Pos {
            line: pos.line + 1,
            column: 1,
        }
    } else {
        Pos {
            line: pos.line,
            column: pos.column + 1,
        }
    }
}

/// The place behind these bytes, the first of which stands at the given place.
pub(crate) fn behind(pos: Pos, bytes: &[u8]) -> Pos
    requires line { pos.line + length bytes.now < 2 ^ 32 }
    requires column { pos.column + 1 + length bytes.now < 2 ^ 32 }
    ensures { result ≡ spec.behind pos bytes.now }
{
    let mut place = pos;
    for byte in bytes {
        place = behind_byte(place, *byte);
    }
    place
}

fn has_line_feed(text: &[u8]) -> bool
    ensures { result ≡ list_any (λ byte. byte == 10) text.now }
{
    text.iter().any(|byte| *byte == b'\n')
}

impl Place {
    /// Of the first byte of a unit.
    pub(crate) const START: Place = Place {
        at: 0,
        pos: Pos { line: 1, column: 1 },
        at_line_start: true,
    };

    /// The place behind a text that begins here: a token, or white space.
    fn behind(self, text: &[u8], at_line_start: bool) -> Place
        requires placed { IsPlaced self }
        requires room { self.at + length text.now ≤ 4194304 }
        ensures value { result ≡ record {
          at = self.at + length text.now;
          pos = spec.behind self.pos text.now;
          at_line_start = at_line_start;
        } }
        ensures placed { IsPlaced result }
    {
        Place {
            at: self.at + text.len() as u32,
            pos: behind(self.pos, text),
            at_line_start,
        }
    }

    /// The place behind white space that begins here.
    pub(crate) fn behind_white(self, text: &[u8]) -> Place
        requires placed { IsPlaced self }
        requires room { self.at + length text.now ≤ 4194304 }
        ensures value { result ≡ spec.place_behind self (White text.now) }
        ensures placed { IsPlaced result }
    {
        self.behind(text, self.at_line_start || has_line_feed(text))
    }

    /// The place behind a token that begins here.
    pub(crate) fn behind_token(self, text: &[u8]) -> Place
        requires placed { IsPlaced self }
        requires room { self.at + length text.now ≤ 4194304 }
        ensures value { (body : Body) → result ≡ spec.place_behind self (Spelled text.now body) }
        ensures placed { IsPlaced result }
    {
        self.behind(text, false)
    }
}
