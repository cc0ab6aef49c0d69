//! Declaration specifiers (6.7).

ghost use Rattle.std.specs.Prelude.{◌≡◌, [], ◌+◌, ◌^◌, ◌≤◌, ◌<◌, ◌++◌, IfOk};
ghost use Rattle.c_parser.specs.Agree.{Gives};
ghost use Rattle.c_syntax.specs.Height.{specifier_height, specifiers_height};
ghost use Rattle.c_reading.specs.Parser.{next_body};
ghost use Rattle.c_reading.specs.Parser as parser;
ghost use Rattle.c_reading.specs.ReadSpecifier as spec;
ghost use Rattle.c_reading.specs.ReadSpecifier.{parsers};
ghost use Rattle.c_syntax.specs.Scopes.{specifier_adds, specifiers_add};
ghost use Rattle.c_syntax.specs.View.{specifier_of, specifiers_of};

use crate::fault::Fault;
use crate::make::specifier;
use crate::next::{is_word, qualifier_of};
use crate::part::{Part, Parts};
use crate::read::compound::compound;
use crate::read::enumeration::enumeration;
use crate::read::word::{basic_of, storage_of, word_at};
use crate::scope::Scope;
use c_lexer::{Body, Token, Word};
use c_reading::type_seen::TypeSeen;
use c_syntax::specifier::{CompoundWord, Specifier};
use std::alloc::Global;

/// Whether no type has come.
fn is_nothing(type_seen: TypeSeen) -> bool
    ensures { result ≡ spec.is_nothing type_seen }
{
    matches!(type_seen, TypeSeen::Nothing)
}

/// Whether a type has come that stands alone.
fn is_other(type_seen: TypeSeen) -> bool
    ensures { result ≡ spec.is_other type_seen }
{
    matches!(type_seen, TypeSeen::Other)
}

/// What has come with one specifier more.
fn type_seen_with(type_seen: TypeSeen, one: &Specifier) -> TypeSeen
    ensures { result ≡ spec.type_seen_with type_seen (specifier_of one.now) }
{
    match one {
        Specifier::Storage(..) | Specifier::Qualifier(..) | Specifier::Inline(..) => type_seen,
        Specifier::BasicWord(..) => TypeSeen::Basic,
        _ => TypeSeen::Other,
    }
}

/// Whether a type stands here that is no basic word.
fn begins_other(scope: &Scope, tokens: &[Token]) -> bool
    ensures { result ≡ spec.begins_other scope.now (next_body tokens.now) }
{
    match tokens {
        [
            Token {
                body: Body::Name(name),
                ..
            },
            ..
        ] => scope.is_type(name),
        [
            Token {
                body: Body::Word(Word::Struct | Word::Union | Word::Enum),
                ..
            },
            ..
        ] => true,
        _ => false,
    }
}

/// Whether one specifier more stands here.
fn goes_specifier(scope: &Scope, type_seen: TypeSeen, tokens: &[Token]) -> bool
    ensures { result ≡ spec.goes_specifier (record { scope = scope.now; type_seen = type_seen })
        (next_body tokens.now) }
{
    storage_of(tokens).is_some()
        || qualifier_of(tokens).is_some()
        || is_word(tokens, Word::Inline)
        || basic_of(tokens).is_some() && !is_other(type_seen)
        || begins_other(scope, tokens) && is_nothing(type_seen)
}

/// The specifiers that follow, one of them a type at least.
#[cycle(reading)]
pub(crate) fn specifiers<'a>(
    alloc: Global,
    scope: &mut Scope,
    h: usize,
    tokens: &'a [Token],
) -> Result<(Parts<Specifier>, &'a [Token]), Fault<'a>>
    requires { h < 2 ^ 32 }
    ensures reads { Gives (λ x. specifiers_of x.nodes.items) ((parsers h).specifiers scope.old tokens.now) result }
    ensures height { IfOk result (λ x. (x.0.height ≡ specifiers_height (specifiers_of x.0.nodes.items))
        × (x.0.height ≤ h)) }
    ensures scope { IfOk result (λ x. scope.new ≡ scope.old ++ specifiers_add (specifiers_of x.0.nodes.items)) }
{
    let mut all = Parts::new(alloc);
    let mut type_seen = TypeSeen::Nothing;
    let mut rest = tokens;
    'each: while goes_specifier(scope, type_seen, rest) {
        let (one, behind) = specifier_within(alloc, scope, h, rest)?;
        type_seen = type_seen_with(type_seen, &one.node);
        all.push(one)?;
        rest = behind;
    }
    if is_nothing(type_seen) {
        return Err(Fault::Unfit(rest));
    }
    Ok((all, rest))
}

/// One specifier of this height at most.
#[cycle(reading)]
fn specifier_within<'a>(
    alloc: Global,
    scope: &mut Scope,
    h: usize,
    tokens: &'a [Token],
) -> Result<(Part<Specifier>, &'a [Token]), Fault<'a>>
    requires { h < 2 ^ 32 }
    ensures reads { Gives (λ x. specifier_of x.node.value)
        (spec.specifier_within h scope.old (parser.place tokens.now) (next_body tokens.now) tokens.now) result }
    ensures height { IfOk result (λ x. (x.0.height ≡ specifier_height (specifier_of x.0.node.value))
        × (x.0.height ≤ h)) }
    ensures scope { IfOk result (λ x. scope.new ≡ scope.old ++ specifier_adds (specifier_of x.0.node.value)) }
{
    if h == 0 {
        return low_specifier(alloc, tokens);
    }
    specifier_at(alloc, scope, h - 1, tokens)
}

/// One specifier, whose members and enumerators may have this height.
#[cycle(reading)]
fn specifier_at<'a>(
    alloc: Global,
    scope: &mut Scope,
    k: usize,
    tokens: &'a [Token],
) -> Result<(Part<Specifier>, &'a [Token]), Fault<'a>>
    requires { k < 2 ^ 32 }
    ensures reads { Gives (λ x. specifier_of x.node.value)
        (spec.specifier_by k (parsers k) scope.old (parser.place tokens.now) (next_body tokens.now) tokens.now) result }
    ensures height { IfOk result (λ x. (x.0.height ≡ specifier_height (specifier_of x.0.node.value))
        × (x.0.height ≤ k + 1)) }
    ensures scope { IfOk result (λ x. scope.new ≡ scope.old ++ specifier_adds (specifier_of x.0.node.value)) }
{
    match tokens {
        [
            Token {
                body: Body::Name(name),
                pos,
                ..
            },
            rest @ ..,
        ] => Ok((specifier::typedef_name(alloc, *pos, name)?, rest)),
        [
            Token {
                body: Body::Word(Word::Struct),
                pos,
                ..
            },
            rest @ ..,
        ] => compound(alloc, scope, k, *pos, CompoundWord::Struct, rest),
        [
            Token {
                body: Body::Word(Word::Union),
                pos,
                ..
            },
            rest @ ..,
        ] => compound(alloc, scope, k, *pos, CompoundWord::Union, rest),
        [
            Token {
                body: Body::Word(Word::Enum),
                pos,
                ..
            },
            rest @ ..,
        ] => enumeration(alloc, scope, k, *pos, rest),
        _ => word_at(alloc, tokens),
    }
}

/// One specifier where no height is left: no structure, union or enumeration.
fn low_specifier<'a>(
    alloc: Global,
    tokens: &'a [Token],
) -> Result<(Part<Specifier>, &'a [Token]), Fault<'a>>
    ensures reads { Gives (λ x. specifier_of x.node.value)
        (spec.low_specifier_by (parser.place tokens.now) (next_body tokens.now) tokens.now) result }
    ensures height { IfOk result (λ x. (x.0.height ≡ 0) × (specifier_height (specifier_of x.0.node.value) ≡ 0)) }
    ensures scope { IfOk result (λ x. specifier_adds (specifier_of x.0.node.value) ≡ []) }
{
    match tokens {
        [
            Token {
                body: Body::Name(name),
                pos,
                ..
            },
            rest @ ..,
        ] => Ok((specifier::typedef_name(alloc, *pos, name)?, rest)),
        [
            Token {
                body: Body::Word(Word::Struct | Word::Union | Word::Enum),
                ..
            },
            ..
        ] => Err(Fault::TooDeep(tokens)),
        _ => word_at(alloc, tokens),
    }
}
