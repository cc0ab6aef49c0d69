//! Reads pragmas, and tells whether a line is a directive that is taken (6.10, 6.10.6).

ghost use Rattle.std.specs.Prelude.{◌≡◌, ◌↔◌, ◌≤◌, length, IsTrue, MatchResult, Ok, Err, IfOk};
ghost use Rattle.c_lexer.specs.Directives.{IsPragma, IsShape, IsDirective};
ghost use Rattle.c_lexer.specs.ReadDirective as spec;

use crate::bytes::{Class, all_in, past, run_len};
use crate::comment::{past_close, past_quote};
use crate::directive::{is_define, is_include, is_marker, strip};

/// What follows the comment, the text between quotes or the byte at the front, or whether a comment goes on from here.
#[tactic(auto, unfolding(crate::specs::ReadDirective::past_piece))]
fn past_piece(byte: u8, after: &[u8]) -> Result<&[u8], bool>
    ensures value { MatchResult result
        (λ rest. spec.past_piece byte after.now ≡ Ok rest.now)
        (λ open_end. spec.past_piece byte after.now ≡ Err open_end) }
    ensures shorter { IfOk result (λ rest. length rest.now ≤ length after.now) }
{
    let next = after.first().copied();
    if byte == b'/' && next == Some(b'/') {
        return Err(false);
    }
    if byte == b'/' && next == Some(b'*') {
        return match past_close(&after[1..]) {
            None => Err(true),
            Some(rest) => Ok(rest),
        };
    }
    if byte == b'"' || byte == b'\'' {
        return match past_quote(byte, after) {
            None => Err(false),
            Some(rest) => Ok(rest),
        };
    }
    Ok(after)
}

/// Whether a comment begins in the bytes and goes on behind them.
fn goes_on(bytes: &[u8]) -> bool
    ensures { result ≡ spec.goes_on bytes.now }
{
    let mut rest = bytes;
    while let [byte, after @ ..] = rest {
        match past_piece(*byte, after) {
            Err(open_end) => return open_end,
            Ok(last) => rest = last,
        }
    }
    false
}

fn ends_pragma(rest: &[u8]) -> bool
    ensures { result ≡ spec.ends_pragma rest.now }
{
    run_len(Class::Word, rest) == 0 && all_in(Class::Line, rest) && !goes_on(rest)
}

#[tactic(auto, unfolding(crate::specs::ReadDirective::is_pragma))]
fn read_pragma(text: &[u8]) -> bool
    ensures { result ≡ spec.is_pragma text.now }
{
    match strip(text, b"pragma") {
        None => false,
        Some(rest) => ends_pragma(rest),
    }
}

/// Whether the text behind `#` and blanks is a pragma in which no comment goes on (6.10.6).
pub(crate) fn is_pragma(text: &[u8]) -> bool
    ensures { IsTrue result ↔ IsPragma text.now }
{
    read_pragma(text)
}

/// Whether the line, from its `#` on, is a directive that is taken (6.10).
pub(crate) fn is_directive(line: &[u8]) -> bool
    ensures { IsTrue result ↔ IsDirective line.now }
{
    match line {
        [b'#', after @ ..] => has_shape(past(Class::Blank, after)),
        _ => false,
    }
}

fn has_shape(text: &[u8]) -> bool
    ensures { IsTrue result ↔ IsShape text.now }
{
    is_include(text) || is_define(text) || is_marker(text) || is_pragma(text)
}
