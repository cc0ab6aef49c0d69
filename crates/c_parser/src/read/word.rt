//! Specifiers of one word: storage classes, qualifiers, `inline` and the words of basic types (6.7.1 to 6.7.4).

ghost use Rattle.std.specs.Prelude.{◌≡◌, [], IfOk};
ghost use Rattle.c_parser.specs.Agree.{Gives};
ghost use Rattle.c_syntax.specs.Height.{specifier_height};
ghost use Rattle.c_reading.specs.Parser.{next_body};
ghost use Rattle.c_reading.specs.Parser as parser;
ghost use Rattle.c_reading.specs.ReadSpecifier as spec;
ghost use Rattle.c_reading.specs.ReadToken as tokens_of;
ghost use Rattle.c_syntax.specs.Scopes.{specifier_adds};
ghost use Rattle.c_syntax.specs.View.{specifier_of};

use crate::fault::Fault;
use crate::make::specifier;
use crate::next::{is_word, place, qualifier_of, tail};
use crate::part::Part;
use c_lexer::{Body, Token, Word};
use c_syntax::specifier::{BasicWord, Specifier, Storage};
use std::alloc::Global;

/// The storage-class specifier that stands here (6.7.1).
pub(crate) fn storage_of(tokens: &[Token]) -> Option<Storage>
    ensures { result ≡ tokens_of.storage_of (next_body tokens.now) }
{
    match tokens {
        [
            Token {
                body: Body::Word(Word::Typedef),
                ..
            },
            ..
        ] => Some(Storage::Typedef),
        [
            Token {
                body: Body::Word(Word::Extern),
                ..
            },
            ..
        ] => Some(Storage::Extern),
        [
            Token {
                body: Body::Word(Word::Static),
                ..
            },
            ..
        ] => Some(Storage::Static),
        [
            Token {
                body: Body::Word(Word::Auto),
                ..
            },
            ..
        ] => Some(Storage::Auto),
        [
            Token {
                body: Body::Word(Word::Register),
                ..
            },
            ..
        ] => Some(Storage::Register),
        _ => None,
    }
}

/// The word of a basic type that stands here (6.7.2).
pub(crate) fn basic_of(tokens: &[Token]) -> Option<BasicWord>
    ensures { result ≡ tokens_of.basic_of (next_body tokens.now) }
{
    match tokens {
        [
            Token {
                body: Body::Word(Word::Void),
                ..
            },
            ..
        ] => Some(BasicWord::Void),
        [
            Token {
                body: Body::Word(Word::Char),
                ..
            },
            ..
        ] => Some(BasicWord::Char),
        [
            Token {
                body: Body::Word(Word::Short),
                ..
            },
            ..
        ] => Some(BasicWord::Short),
        [
            Token {
                body: Body::Word(Word::Int),
                ..
            },
            ..
        ] => Some(BasicWord::Int),
        [
            Token {
                body: Body::Word(Word::Long),
                ..
            },
            ..
        ] => Some(BasicWord::Long),
        [
            Token {
                body: Body::Word(Word::Signed),
                ..
            },
            ..
        ] => Some(BasicWord::Signed),
        [
            Token {
                body: Body::Word(Word::Unsigned),
                ..
            },
            ..
        ] => Some(BasicWord::Unsigned),
        [
            Token {
                body: Body::Word(Word::Bool),
                ..
            },
            ..
        ] => Some(BasicWord::Bool),
        _ => None,
    }
}

/// The specifier of one word that stands here.
pub(crate) fn word_at<'a>(
    alloc: Global,
    tokens: &'a [Token],
) -> Result<(Part<Specifier>, &'a [Token]), Fault<'a>>
    ensures reads { Gives (λ x. specifier_of x.node.value)
        (spec.word_at (parser.place tokens.now) (next_body tokens.now) tokens.now) result }
    ensures height { IfOk result (λ x. (x.0.height ≡ 0) × (specifier_height (specifier_of x.0.node.value) ≡ 0)) }
    ensures scope { IfOk result (λ x. specifier_adds (specifier_of x.0.node.value) ≡ []) }
{
    if let Some(word) = storage_of(tokens) {
        return Ok((
            specifier::storage(alloc, place(tokens), word)?,
            tail(tokens),
        ));
    }
    if let Some(word) = qualifier_of(tokens) {
        return Ok((
            specifier::qualifier(alloc, place(tokens), word)?,
            tail(tokens),
        ));
    }
    if let Some(word) = basic_of(tokens) {
        return Ok((specifier::basic(alloc, place(tokens), word)?, tail(tokens)));
    }
    if !is_word(tokens, Word::Inline) {
        return Err(Fault::Unfit(tokens));
    }
    Ok((specifier::inline(alloc, place(tokens))?, tail(tokens)))
}
