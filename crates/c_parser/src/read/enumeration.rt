//! Enumerations (6.7.2.2).

ghost use Rattle.std.specs.Prelude.{◌≡◌, map, ◌+◌, ◌^◌, ◌≤◌, ◌<◌, ◌++◌, IfOk};
ghost use Rattle.c_parser.specs.Agree.{Gives};
ghost use Rattle.c_syntax.specs.Height.{specifier_height, enumerator_height, enumerators_height};
ghost use Rattle.c_reading.specs.ReadSpecifier as spec;
ghost use Rattle.c_reading.specs.ReadSpecifier.{parsers};
ghost use Rattle.c_syntax.specs.Scopes.{specifier_adds, enumerator_adds, enumerators_add};
ghost use Rattle.c_syntax.specs.View.{specifier_of, enumerator_of, enumerators};

use crate::fault::Fault;
use crate::level::CONDITIONAL;
use crate::make::specifier;
use crate::next::{expect, is_mark, tail};
use crate::part::{Part, Parts};
use crate::read::height::expr;
use crate::scope::Scope;
use c_lexer::{Body, Punct, Token};
use c_syntax::specifier::{Enumerator, Specifier, Tag};
use critical_table::{Name, Pos};
use std::alloc::Global;

/// What stands behind `enum`, whose place this is.
#[cycle(reading)]
#[tactic(auto, unfolding(c_reading::specs::ReadSpecifier::enumeration))]
pub(crate) fn enumeration<'a>(
    alloc: Global,
    scope: &mut Scope,
    k: usize,
    pos: Pos,
    tokens: &'a [Token],
) -> Result<(Part<Specifier>, &'a [Token]), Fault<'a>>
    requires { k < 2 ^ 32 }
    ensures reads { Gives (λ x. specifier_of x.node.value) (spec.enumeration k (parsers k) scope.old pos tokens.now)
        result }
    ensures height { IfOk result (λ x. (x.0.height ≡ specifier_height (specifier_of x.0.node.value))
        × (x.0.height ≤ k + 1)) }
    ensures scope { IfOk result (λ x. scope.new ≡ scope.old ++ specifier_adds (specifier_of x.0.node.value)) }
{
    match tokens {
        [
            Token {
                body: Body::Name(name),
                pos: place,
                ..
            },
            rest @ ..,
        ] => {
            let name = Name::new(alloc, name.bytes())?;
            enum_tag(alloc, scope, k, pos, Tag { pos: *place, name }, rest)
        }
        [
            Token {
                body: Body::Mark(Punct::OpenBrace),
                ..
            },
            rest @ ..,
        ] => enum_body(alloc, scope, k, pos, None, rest),
        _ => Err(Fault::Unfit(tokens)),
    }
}

/// A tag was read.
#[cycle(reading)]
#[tactic(auto, unfolding(c_reading::specs::ReadSpecifier::enum_tag))]
fn enum_tag<'a>(
    alloc: Global,
    scope: &mut Scope,
    k: usize,
    pos: Pos,
    tag: Tag,
    tokens: &'a [Token],
) -> Result<(Part<Specifier>, &'a [Token]), Fault<'a>>
    requires { k < 2 ^ 32 }
    ensures reads { Gives (λ x. specifier_of x.node.value)
        (spec.enum_tag k (parsers k) scope.old pos tag tokens.now) result }
    ensures height { IfOk result (λ x. (x.0.height ≡ specifier_height (specifier_of x.0.node.value))
        × (x.0.height ≤ k + 1)) }
    ensures scope { IfOk result (λ x. scope.new ≡ scope.old ++ specifier_adds (specifier_of x.0.node.value)) }
{
    if !is_mark(tokens, Punct::OpenBrace) {
        return Ok((specifier::enum_tag(alloc, pos, tag)?, tokens));
    }
    enum_body(alloc, scope, k, pos, Some(tag), tail(tokens))
}

/// What stands behind the opening brace.
#[cycle(reading)]
#[tactic(auto, unfolding(c_reading::specs::ReadSpecifier::enum_body))]
fn enum_body<'a>(
    alloc: Global,
    scope: &mut Scope,
    k: usize,
    pos: Pos,
    tag: Option<Tag>,
    tokens: &'a [Token],
) -> Result<(Part<Specifier>, &'a [Token]), Fault<'a>>
    requires { k < 2 ^ 32 }
    ensures reads { Gives (λ x. specifier_of x.node.value)
        (spec.enum_body k (parsers k) scope.old pos tag tokens.now) result }
    ensures height { IfOk result (λ x. (x.0.height ≡ specifier_height (specifier_of x.0.node.value))
        × (x.0.height ≤ k + 1)) }
    ensures scope { IfOk result (λ x. scope.new ≡ scope.old ++ specifier_adds (specifier_of x.0.node.value)) }
{
    let ((all, comma), rest) = listed_enumerators(alloc, scope, k, tokens)?;
    let rest = expect(rest, Punct::CloseBrace)?;
    Ok((specifier::enumeration(alloc, pos, tag, all, comma)?, rest))
}

/// The enumerators, and whether a comma stands behind the last.
#[cycle(reading)]
fn listed_enumerators<'a>(
    alloc: Global,
    scope: &mut Scope,
    k: usize,
    tokens: &'a [Token],
) -> Result<((Parts<Enumerator>, bool), &'a [Token]), Fault<'a>>
    requires { k < 2 ^ 32 }
    ensures reads { Gives (λ x. (map enumerator_of x.0.nodes.items, x.1))
        (spec.listed_enumerators k (parsers k) scope.old tokens.now) result }
    ensures height { IfOk result (λ x. (x.0.0.height ≡
        enumerators_height (enumerators (map enumerator_of x.0.0.nodes.items)))
        × (x.0.0.height ≤ k)) }
    ensures scope { IfOk result (λ x. scope.new
        ≡ scope.old ++ enumerators_add (enumerators (map enumerator_of x.0.0.nodes.items))) }
{
    let mut all = Parts::new(alloc);
    let mut rest = tokens;
    'each: loop {
        let (one, behind) = enumerator(alloc, scope, k, rest)?;
        all.push(one)?;
        if !is_mark(behind, Punct::Comma) {
            return Ok(((all, false), behind));
        }
        rest = tail(behind);
        if is_mark(rest, Punct::CloseBrace) {
            return Ok(((all, true), rest));
        }
    }
}

/// An enumerator (6.7.2.2).
#[cycle(reading)]
#[tactic(auto, unfolding(c_reading::specs::ReadSpecifier::enumerator))]
fn enumerator<'a>(
    alloc: Global,
    scope: &mut Scope,
    k: usize,
    tokens: &'a [Token],
) -> Result<(Part<Enumerator>, &'a [Token]), Fault<'a>>
    requires { k < 2 ^ 32 }
    ensures reads { Gives (λ x. enumerator_of x.node.value) (spec.enumerator k (parsers k) scope.old tokens.now)
        result }
    ensures height { IfOk result (λ x. (x.0.height ≡ enumerator_height (enumerator_of x.0.node.value))
        × (x.0.height ≤ k)) }
    ensures scope { IfOk result (λ x. scope.new ≡ scope.old ++ enumerator_adds (enumerator_of x.0.node.value)) }
{
    match tokens {
        [
            Token {
                body: Body::Name(name),
                pos,
                ..
            },
            rest @ ..,
        ] => enumerator_on(alloc, scope, k, *pos, name, rest),
        _ => Err(Fault::Unfit(tokens)),
    }
}

/// An enumerator whose name was read. It is in scope behind its value (6.2.1p7).
#[cycle(reading)]
#[tactic(auto, unfolding(c_reading::specs::ReadSpecifier::enumerator_on))]
fn enumerator_on<'a>(
    alloc: Global,
    scope: &mut Scope,
    k: usize,
    pos: Pos,
    name: &Name,
    tokens: &'a [Token],
) -> Result<(Part<Enumerator>, &'a [Token]), Fault<'a>>
    requires { k < 2 ^ 32 }
    ensures reads { Gives (λ x. enumerator_of x.node.value)
        (spec.enumerator_on k (parsers k) scope.old pos name.now tokens.now) result }
    ensures height { IfOk result (λ x. (x.0.height ≡ enumerator_height (enumerator_of x.0.node.value))
        × (x.0.height ≤ k)) }
    ensures scope { IfOk result (λ x. scope.new ≡ scope.old ++ enumerator_adds (enumerator_of x.0.node.value)) }
{
    if !is_mark(tokens, Punct::Assign) {
        let part = specifier::plain_enumerator(alloc, pos, name)?;
        scope.declare(alloc, name, false)?;
        return Ok((part, tokens));
    }
    if k == 0 {
        return Err(Fault::TooDeep(tokens));
    }
    let (value, rest) = expr(alloc, scope, k, CONDITIONAL, tail(tokens))?;
    let part = specifier::enumerator(alloc, pos, name, value)?;
    scope.declare(alloc, name, false)?;
    Ok((part, rest))
}
