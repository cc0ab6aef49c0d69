//! By which token an expression and a declaration specifier begin.

ghost use Rattle.std.specs.Prelude.{◌≡◌, Some};
ghost use Rattle.c_lexer.specs.declared.token.Body.{Body};
ghost use Rattle.c_syntax.specs.First as first;
ghost use Rattle.c_reading.specs.ReadExpr as expressions;
ghost use Rattle.c_reading.specs.Parser.{next_body};
ghost use Rattle.c_reading.specs.ReadToken as spec;

use crate::scope::Scope;
use c_lexer::{Body, Punct, Token, Word};
use c_syntax::operator::Prefix;

/// Whether the word begins a declaration specifier (6.7.1 to 6.7.4).
fn is_specifier_word(word: Word) -> bool
    ensures { result ≡ first.is_specifier_word word }
{
    matches!(
        word,
        Word::Typedef
            | Word::Extern
            | Word::Static
            | Word::Auto
            | Word::Register
            | Word::Const
            | Word::Restrict
            | Word::Volatile
            | Word::Inline
            | Word::Void
            | Word::Char
            | Word::Short
            | Word::Int
            | Word::Long
            | Word::Signed
            | Word::Unsigned
            | Word::Bool
            | Word::Struct
            | Word::Union
            | Word::Enum
    )
}

/// Whether the next token begins a declaration specifier.
pub(crate) fn begins_type(scope: &Scope, tokens: &[Token]) -> bool
    ensures { result ≡ spec.begins_type scope.now (next_body tokens.now) }
{
    match tokens {
        [
            Token {
                body: Body::Word(word),
                ..
            },
            ..
        ] => is_specifier_word(*word),
        [
            Token {
                body: Body::Name(name),
                ..
            },
            ..
        ] => scope.is_type(name),
        _ => false,
    }
}

/// The prefix operator (6.5.3) that the next token is, if it is one.
pub(crate) fn prefix_of(tokens: &[Token]) -> Option<Prefix>
    ensures { result ≡ spec.prefix_of (next_body tokens.now) }
{
    match tokens {
        [
            Token {
                body: Body::Mark(mark),
                ..
            },
            ..
        ] => prefix_mark(*mark),
        _ => None,
    }
}

fn prefix_mark(mark: Punct) -> Option<Prefix>
    ensures { result ≡ spec.prefix_of (Some (Body.Mark mark)) }
{
    match mark {
        Punct::Increment => Some(Prefix::PreInc),
        Punct::Decrement => Some(Prefix::PreDec),
        Punct::Ampersand => Some(Prefix::AddressOf),
        Punct::Star => Some(Prefix::Deref),
        Punct::Plus => Some(Prefix::Plus),
        Punct::Minus => Some(Prefix::Minus),
        Punct::Tilde => Some(Prefix::Flip),
        Punct::Exclamation => Some(Prefix::Not),
        _ => None,
    }
}

/// Whether the next token begins an expression.
pub(crate) fn begins_expr(scope: &Scope, tokens: &[Token]) -> bool
    ensures { result ≡ expressions.begins_expr scope.now (next_body tokens.now) }
{
    match tokens {
        [
            Token {
                body: Body::Number(_),
                ..
            },
            ..
        ] => true,
        [
            Token {
                body: Body::Character(_, _),
                ..
            },
            ..
        ] => true,
        [
            Token {
                body: Body::Literal(_, _),
                ..
            },
            ..
        ] => true,
        [
            Token {
                body: Body::Name(name),
                ..
            },
            ..
        ] => !scope.is_type(name),
        [
            Token {
                body: Body::Word(Word::Sizeof | Word::Alignof),
                ..
            },
            ..
        ] => true,
        [
            Token {
                body: Body::Mark(Punct::OpenParen),
                ..
            },
            ..
        ] => true,
        _ => prefix_of(tokens).is_some(),
    }
}
