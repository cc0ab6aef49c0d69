//! The next token, and what it is.

ghost use Rattle.std.specs.Prelude.{◌≡◌, option_copied};
ghost use Rattle.c_reading.specs.Parser as parser;
ghost use Rattle.c_reading.specs.ReadToken as spec;
ghost use Rattle.c_parser.specs.Agree.{GivesRest};

use crate::fault::Fault;
use c_lexer::{Body, Punct, Token, Word};
use c_syntax::specifier::Qualifier;
use critical_table::Pos;

/// The next token, if there is one.
pub(crate) fn next_body(tokens: &[Token]) -> Option<&Body>
    ensures { option_copied result ≡ parser.next_body tokens.now }
{
    match tokens {
        [] => None,
        [token, ..] => Some(&token.body),
    }
}

/// What is left behind the next token.
pub(crate) fn tail(tokens: &[Token]) -> &[Token]
    ensures { result.now ≡ parser.tail tokens.now }
{
    match tokens {
        [] => tokens,
        [_, rest @ ..] => rest,
    }
}

/// The place of the next token; of no token the first one of a unit.
pub(crate) fn place(tokens: &[Token]) -> Pos
    ensures { result ≡ parser.place tokens.now }
{
    match tokens {
        [] => Pos { line: 1, column: 1 },
        [token, ..] => token.pos,
    }
}

/// Whether the next token is this mark.
pub(crate) fn is_mark(tokens: &[Token], mark: Punct) -> bool
    ensures { result ≡ spec.is_mark mark (parser.next_body tokens.now) }
{
    match next_body(tokens) {
        Some(Body::Mark(next)) => *next == mark,
        _ => false,
    }
}

/// Whether the next token is this word.
pub(crate) fn is_word(tokens: &[Token], word: Word) -> bool
    ensures { result ≡ spec.is_word word (parser.next_body tokens.now) }
{
    match next_body(tokens) {
        Some(Body::Word(next)) => *next == word,
        _ => false,
    }
}

/// Past this mark, which has to stand here.
pub(crate) fn expect(tokens: &[Token], mark: Punct) -> Result<&[Token], Fault<'_>>
    ensures { GivesRest (parser.expect (spec.is_mark mark) tokens.now) result }
{
    if is_mark(tokens, mark) {
        return Ok(tail(tokens));
    }
    Err(Fault::Unfit(tokens))
}

/// The type qualifier that stands here (6.7.3).
pub(crate) fn qualifier_of(tokens: &[Token]) -> Option<Qualifier>
    ensures { result ≡ spec.qualifier_of (parser.next_body tokens.now) }
{
    match tokens {
        [
            Token {
                body: Body::Word(Word::Const),
                ..
            },
            ..
        ] => Some(Qualifier::Const),
        [
            Token {
                body: Body::Word(Word::Restrict),
                ..
            },
            ..
        ] => Some(Qualifier::Restrict),
        [
            Token {
                body: Body::Word(Word::Volatile),
                ..
            },
            ..
        ] => Some(Qualifier::Volatile),
        _ => None,
    }
}
