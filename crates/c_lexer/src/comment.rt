//! Finds where a comment, a text between quotes and a number end (6.4.9, 6.4.8).

ghost use Rattle.std.specs.Prelude.{◌≡◌, ◌≤◌, false, length, option_copied, IfSome};
ghost use Rattle.c_lexer.specs.Comments.{NoClose, IsInner};
ghost use Rattle.c_lexer.specs.ReadComment as spec;
ghost use Rattle.c_lexer.specs.Refusals.{is_exponent, goes_on_number};

use crate::bytes::{Class, is_in};

/// What follows the first `*/` (6.4.9).
pub(crate) fn past_close(bytes: &[u8]) -> Option<&[u8]>
    ensures value { option_copied result ≡ spec.past_close bytes.now }
    ensures shorter { IfSome result (λ after. length after.now ≤ length bytes.now) }
{
    let mut rest = bytes;
    while let [byte, after @ ..] = rest {
        if *byte == b'*' && after.first().copied() == Some(b'/') {
            return Some(&after[1..]);
        }
        rest = after;
    }
    None
}

/// What follows the first quote that no backslash hides, on this line (6.4.4.4, 6.4.5).
pub(crate) fn past_quote(quote: u8, bytes: &[u8]) -> Option<&[u8]>
    ensures value { option_copied result ≡ spec.past_quote quote false bytes.now }
    ensures shorter { IfSome result (λ after. length after.now ≤ length bytes.now) }
{
    let mut hidden = false;
    let mut rest = bytes;
    while let [byte, after @ ..] = rest {
        if *byte == b'\n' {
            return None;
        }
        if !hidden && *byte == quote {
            return Some(after);
        }
        hidden = !hidden && *byte == b'\\';
        rest = after;
    }
    None
}

/// A sign may follow: e, E, p or P.
pub(crate) fn is_exponent(byte: u8) -> bool
    ensures { result ≡ is_exponent byte }
{
    byte == b'e' || byte == b'E' || byte == b'p' || byte == b'P'
}

/// Whether the byte goes on with a number (6.4.8).
pub(crate) fn goes_on(sign: bool, byte: u8) -> bool
    ensures { result ≡ goes_on_number sign byte }
{
    is_in(Class::Word, byte) || byte == b'.' || (sign && (byte == b'+' || byte == b'-'))
}
