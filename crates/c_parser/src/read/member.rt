//! Members of structures and unions (6.7.2.1).

ghost use Rattle.std.specs.Prelude.{◌≡◌, false, map, ◌+◌, ◌^◌, ◌≤◌, ◌<◌, ◌++◌, IfOk};
ghost use Rattle.c_parser.specs.Agree.{Gives};
ghost use Rattle.c_syntax.specs.Height.{specifiers_height, declarators_height, member_height};
ghost use Rattle.c_reading.specs.ReadDeclarator as spec;
ghost use Rattle.c_reading.specs.ReadSpecifier.{parsers};
ghost use Rattle.c_syntax.specs.Scopes as names;
ghost use Rattle.c_syntax.specs.Scopes.{specifiers_add, declarators_add, member_adds};
ghost use Rattle.c_syntax.specs.View.{specifiers_of, declarator_of, declarators, member_of};

use crate::fault::Fault;
use crate::make::parameter;
use crate::next::{expect, is_mark, tail};
use crate::part::{Part, Parts};
use crate::read::height::declarator;
use crate::read::specifier::specifiers;
use crate::scope::Scope;
use c_lexer::{Body, Punct, Token};
use c_reading::declarator_form::DeclaratorForm;
use c_syntax::declarator::Declarator;
use c_syntax::specifier::{MemberDeclaration, Specifier};
use std::alloc::Global;

/// A member declaration (6.7.2.1).
#[cycle(reading)]
#[tactic(auto, unfolding(c_reading::specs::ReadDeclarator::member_at))]
pub(crate) fn member_at<'a>(
    alloc: Global,
    scope: &mut Scope,
    k: usize,
    tokens: &'a [Token],
) -> Result<(Part<MemberDeclaration>, &'a [Token]), Fault<'a>>
    requires { k < 2 ^ 32 }
    ensures reads { Gives (λ x. member_of x.node.value) (spec.member_at k (parsers k) scope.old tokens.now) result }
    ensures height { IfOk result (λ x. (x.0.height ≡ member_height (member_of x.0.node.value)) × (x.0.height ≤ k + 1)) }
    ensures scope { IfOk result (λ x. scope.new ≡ scope.old ++ member_adds (member_of x.0.node.value)) }
{
    let (specifiers, rest) = specifiers(alloc, scope, k, tokens)?;
    member_on(alloc, scope, k, specifiers, rest)
}

/// What is left of a member declaration behind its specifiers.
#[cycle(reading)]
#[tactic(auto, unfolding(c_reading::specs::ReadDeclarator::member_on))]
fn member_on<'a>(
    alloc: Global,
    scope: &mut Scope,
    k: usize,
    specifiers: Parts<Specifier>,
    tokens: &'a [Token],
) -> Result<(Part<MemberDeclaration>, &'a [Token]), Fault<'a>>
    requires small { k < 2 ^ 32 }
    requires known { specifiers.height ≡ specifiers_height (specifiers_of specifiers.nodes.items) }
    requires within { specifiers.height ≤ k }
    ensures reads { (outer : names.Scope)
        → scope.old ≡ outer ++ specifiers_add (specifiers_of specifiers.nodes.items)
        → Gives (λ x. member_of x.node.value)
        (spec.member_on k (parsers k) outer (specifiers_of specifiers.nodes.items) tokens.now) result }
    ensures height { IfOk result (λ x. (x.0.height ≡ member_height (member_of x.0.node.value)) × (x.0.height ≤ k + 1)) }
    ensures scope { IfOk result (λ x. (outer : names.Scope)
        → scope.old ≡ outer ++ specifiers_add (specifiers_of specifiers.nodes.items)
        → scope.new ≡ outer ++ member_adds (member_of x.0.node.value)) }
{
    match tokens {
        [
            Token {
                body: Body::Mark(Punct::Semicolon),
                ..
            },
            rest @ ..,
        ] => {
            let part = parameter::member(alloc, specifiers, Parts::new(alloc))?;
            Ok((part, rest))
        }
        _ => member_in(alloc, scope, k, specifiers, tokens),
    }
}

/// The declarators of a member declaration, behind its specifiers.
#[cycle(reading)]
fn member_in<'a>(
    alloc: Global,
    scope: &mut Scope,
    k: usize,
    specifiers: Parts<Specifier>,
    tokens: &'a [Token],
) -> Result<(Part<MemberDeclaration>, &'a [Token]), Fault<'a>>
    requires small { k < 2 ^ 32 }
    requires known { specifiers.height ≡ specifiers_height (specifiers_of specifiers.nodes.items) }
    requires within { specifiers.height ≤ k }
    ensures reads { Gives (λ x. member_of x.node.value)
        (spec.member_in k (parsers k) scope.old (specifiers_of specifiers.nodes.items) tokens.now) result }
    ensures height { IfOk result (λ x. (x.0.height ≡ member_height (member_of x.0.node.value)) × (x.0.height ≤ k + 1)) }
    ensures scope { IfOk result (λ x. (outer : names.Scope)
        → scope.old ≡ outer ++ specifiers_add (specifiers_of specifiers.nodes.items)
        → scope.new ≡ outer ++ member_adds (member_of x.0.node.value)) }
{
    let (declarators, rest) = listed_declarators(alloc, scope, k, tokens)?;
    let rest = expect(rest, Punct::Semicolon)?;
    let part = parameter::member(alloc, specifiers, declarators)?;
    Ok((part, rest))
}

/// One declarator or more.
#[cycle(reading)]
fn listed_declarators<'a>(
    alloc: Global,
    scope: &mut Scope,
    k: usize,
    tokens: &'a [Token],
) -> Result<(Parts<Declarator>, &'a [Token]), Fault<'a>>
    requires { k < 2 ^ 32 }
    ensures reads { Gives (λ x. (map declarator_of x.nodes.items, false))
        (spec.listed_declarators k (parsers k) scope.old tokens.now) result }
    ensures height { IfOk result (λ x. (x.0.height ≡
        declarators_height (declarators (map declarator_of x.0.nodes.items)))
        × (x.0.height ≤ k)) }
    ensures scope { IfOk result (λ x. scope.new
        ≡ scope.old ++ declarators_add (declarators (map declarator_of x.0.nodes.items))) }
{
    let mut all = Parts::new(alloc);
    let mut rest = tokens;
    'each: loop {
        let (one, behind) = declarator(alloc, scope, k, DeclaratorForm::Named, rest)?;
        all.push(one)?;
        if !is_mark(behind, Punct::Comma) {
            return Ok((all, behind));
        }
        rest = tail(behind);
    }
}
