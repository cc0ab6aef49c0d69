//! Decides what the open part is, once it ends.

ghost use Rattle.std.specs.Prelude.{IfOk};
ghost use Rattle.c_lexer.specs.ReaderState.{EndsAs, EndsTokenAs, EndsDirectiveAs};

use crate::mode::Mode;
use crate::pragma::is_directive;
use crate::spelling::token_of;
use crate::token::Body;
use critical_table::Refusal;
use std::alloc::{AllocError, Global};

/// What an open part is, once it ends.
#[derive(Debug, Drop)]
pub(crate) enum Ending {
    White,
    Token(Body),
    Refused(Refusal),
}

fn token_ending(alloc: Global, text: &[u8], why: Refusal) -> Result<Ending, AllocError>
    ensures { IfOk result (λ end. EndsTokenAs why text.now end) }
{
    match token_of(alloc, text)? {
        Some(body) => Ok(Ending::Token(body)),
        None => Ok(Ending::Refused(why)),
    }
}

fn directive_ending(text: &[u8]) -> Ending
    ensures { EndsDirectiveAs text.now result }
{
    if is_directive(text) {
        Ending::White
    } else {
        Ending::Refused(Refusal::Directive)
    }
}

/// What the open part is, if it ends behind this text.
pub(crate) fn end_of(alloc: Global, mode: Mode, text: &[u8]) -> Result<Ending, AllocError>
    ensures { IfOk result (λ end. EndsAs mode text.now end) }
{
    match mode {
        Mode::Word => token_ending(alloc, text, Refusal::Profile),
        Mode::Number(_) | Mode::Quotation => token_ending(alloc, text, Refusal::Literal),
        Mode::Wide | Mode::Dot | Mode::Dots | Mode::Slash | Mode::Mark => token_ending(
            alloc,
            text,
            Refusal::Char,
        ),
        Mode::Quoted(_, _) | Mode::BlockComment(_) => Ok(Ending::Refused(Refusal::Unclosed)),
        Mode::LineComment | Mode::Space => Ok(Ending::White),
        Mode::Directive => Ok(directive_ending(text)),
        Mode::Alien => Ok(Ending::Refused(Refusal::Char)),
    }
}
