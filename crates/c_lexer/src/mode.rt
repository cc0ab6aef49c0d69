//! Tells, byte by byte, what the open part is and whether a byte goes on with it (6.4p4).

ghost use Rattle.std.specs.Prelude.{◌≡◌};
ghost use Rattle.c_lexer.specs.ReadPart as spec;

use crate::bytes::{Class, is_in, is_letter, is_white};
use crate::comment::{goes_on, is_exponent};
use crate::punct::extends;

/// The quotes of character constants and of string literals.
#[derive(Clone, Copy, Debug, PartialEq, Eq)]
pub(crate) enum Quote {
    Single,
    Double,
}

/// What the bytes of an open part are so far.
#[derive(Clone, Copy, Debug, PartialEq, Eq)]
pub(crate) enum Mode {
    /// Letters, digits and `_`, but not `L` alone.
    Word,
    /// An `L`, behind which a quote may come.
    Wide,
    /// What goes on as a number; the flag tells whether a sign may follow.
    Number(bool),
    /// A point.
    Dot,
    /// Two points: a third makes them a mark, and else they are two.
    Dots,
    /// A slash.
    Slash,
    /// Any other mark.
    Mark,
    /// What a quote begins; the flag tells whether a backslash hides the next byte.
    Quoted(Quote, bool),
    /// A text between quotes, whole.
    Quotation,
    /// A comment that its line ends.
    LineComment,
    /// A comment that is open; the flag tells whether its last byte is a `*` that may close it.
    BlockComment(bool),
    /// A white byte, or a comment that is closed.
    Space,
    /// A line that begins with `#`.
    Directive,
    /// A byte that begins nothing.
    Alien,
}

impl Quote {
    fn byte(self) -> u8
        ensures { result ≡ spec.byte_of self }
    {
        match self {
            Quote::Single => b'\'',
            Quote::Double => b'"',
        }
    }
}

fn quote_of(byte: u8) -> Option<Quote>
    ensures { result ≡ spec.quote_of byte }
{
    match byte {
        b'"' => Some(Quote::Double),
        b'\'' => Some(Quote::Single),
        _ => None,
    }
}

fn next_wide(byte: u8) -> Option<Mode>
    ensures { result ≡ spec.next_wide byte }
{
    if is_in(Class::Word, byte) {
        return Some(Mode::Word);
    }
    match quote_of(byte) {
        Some(quote) => Some(Mode::Quoted(quote, false)),
        None => None,
    }
}

fn next_dot(byte: u8) -> Option<Mode>
    ensures { result ≡ spec.next_dot byte }
{
    if byte.is_ascii_digit() {
        Some(Mode::Number(false))
    } else if byte == b'.' {
        Some(Mode::Dots)
    } else {
        None
    }
}

fn next_slash(byte: u8) -> Option<Mode>
    ensures { result ≡ spec.next_slash byte }
{
    match byte {
        b'/' => Some(Mode::LineComment),
        b'*' => Some(Mode::BlockComment(false)),
        b'=' => Some(Mode::Mark),
        _ => None,
    }
}

fn next_quoted(quote: Quote, hidden: bool, byte: u8) -> Option<Mode>
    ensures { result ≡ spec.next_quoted quote hidden byte }
{
    if byte == b'\n' {
        None
    } else if hidden {
        Some(Mode::Quoted(quote, false))
    } else if byte == quote.byte() {
        Some(Mode::Quotation)
    } else {
        Some(Mode::Quoted(quote, byte == b'\\'))
    }
}

fn next_comment(star: bool, byte: u8) -> Mode
    ensures { result ≡ spec.next_comment star byte }
{
    if star && byte == b'/' {
        Mode::Space
    } else {
        Mode::BlockComment(byte == b'*')
    }
}

fn mode_if(goes_on: bool, mode: Mode) -> Option<Mode>
    ensures { result ≡ spec.mode_if goes_on mode }
{
    if goes_on { Some(mode) } else { None }
}

/// The mode behind a first byte that its class decides.
#[tactic(auto, unfolding(crate::specs::ReadPart::first_of_class))]
fn first_of_class(byte: u8) -> Mode
    ensures { result ≡ spec.first_of_class byte }
{
    if is_white(byte) {
        Mode::Space
    } else if is_letter(byte) {
        Mode::Word
    } else if byte.is_ascii_digit() {
        Mode::Number(false)
    } else if extends(&[], byte) {
        Mode::Mark
    } else {
        Mode::Alien
    }
}

impl Mode {
    /// Behind the first byte of a part; `at_line_start` says that only white space stands before it on its line.
    #[tactic(auto, unfolding(crate::specs::ReadPart::first))]
    pub(crate) fn first(at_line_start: bool, byte: u8) -> Mode
        ensures { result ≡ spec.first at_line_start byte }
    {
        match byte {
            b'L' => Mode::Wide,
            b'"' => Mode::Quoted(Quote::Double, false),
            b'\'' => Mode::Quoted(Quote::Single, false),
            b'.' => Mode::Dot,
            b'/' => Mode::Slash,
            b'#' if at_line_start => Mode::Directive,
            _ => first_of_class(byte),
        }
    }

    /// Where the byte behind the text leads, if it goes on with the part.
    #[tactic(auto, unfolding(crate::specs::ReadPart::next))]
    pub(crate) fn next(self, text: &[u8], byte: u8) -> Option<Mode>
        ensures { result ≡ spec.next self text.now byte }
    {
        match self {
            Mode::Word => mode_if(is_in(Class::Word, byte), Mode::Word),
            Mode::Wide => next_wide(byte),
            Mode::Number(sign) => mode_if(goes_on(sign, byte), Mode::Number(is_exponent(byte))),
            Mode::Dot => next_dot(byte),
            Mode::Dots => mode_if(byte == b'.', Mode::Mark),
            Mode::Slash => next_slash(byte),
            Mode::Mark => mode_if(extends(text, byte), Mode::Mark),
            Mode::Quoted(quote, hidden) => next_quoted(quote, hidden, byte),
            Mode::LineComment => mode_if(byte != b'\n', Mode::LineComment),
            Mode::BlockComment(star) => Some(next_comment(star, byte)),
            Mode::Directive => mode_if(byte != b'\n', Mode::Directive),
            Mode::Quotation | Mode::Space | Mode::Alien => None,
        }
    }
}
