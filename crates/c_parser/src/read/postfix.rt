//! Postfix operators (6.5.2).

ghost use Rattle.std.specs.Prelude.{◌≡◌, false, map, ◌+◌, ◌^◌, ◌≤◌, ◌<◌, ◌++◌, IfOk};
ghost use Rattle.c_parser.specs.Agree.{Gives};
ghost use Rattle.c_syntax.specs.Height.{height, exprs_height};
ghost use Rattle.c_reading.specs.Parser.{next_body};
ghost use Rattle.c_reading.specs.ReadExpr as spec;
ghost use Rattle.c_reading.specs.ReadSpecifier.{parsers};
ghost use Rattle.c_syntax.specs.Scopes as names;
ghost use Rattle.c_syntax.specs.Scopes.{expr_adds, exprs_add};
ghost use Rattle.c_syntax.specs.Tree as trees;
ghost use Rattle.c_syntax.specs.View.{expr_of, exprs};

use crate::fault::Fault;
use crate::level::{ASSIGNMENT, EXPRESSION};
use crate::make::operator;
use crate::next::{expect, is_mark, place, tail};
use crate::part::{Part, Parts};
use crate::read::height::expr;
use crate::scope::Scope;
use c_lexer::{Body, Punct, Token};
use c_syntax::expression::Expr;
use c_syntax::operator::{Access, Postfix};
use critical_table::Name;
use std::alloc::Global;

/// Whether a postfix operator follows.
fn goes_postfix(tokens: &[Token]) -> bool
    ensures { (left : trees.Expr) → result ≡ spec.goes_postfix left (next_body tokens.now) }
{
    matches!(
        tokens,
        [
            Token {
                body: Body::Mark(
                    Punct::OpenBracket
                        | Punct::OpenParen
                        | Punct::Dot
                        | Punct::Arrow
                        | Punct::Increment
                        | Punct::Decrement
                ),
                ..
            },
            ..
        ]
    )
}

/// All postfix operators that follow.
#[cycle(reading)]
pub(crate) fn postfixes<'a>(
    alloc: Global,
    scope: &mut Scope,
    k: usize,
    mut left: Part<Expr>,
    tokens: &'a [Token],
) -> Result<(Part<Expr>, &'a [Token]), Fault<'a>>
    requires small { k < 2 ^ 32 }
    requires known { left.height ≡ height (expr_of left.node.value) }
    requires within { left.height ≤ k + 1 }
    ensures reads { (outer : names.Scope) → scope.old ≡ outer ++ expr_adds (expr_of left.node.value)
        → Gives (λ x. expr_of x.node.value)
        (spec.postfixes k (parsers k) outer (expr_of left.node.value) tokens.now) result }
    ensures height { IfOk result (λ x. (x.0.height ≡ height (expr_of x.0.node.value)) × (x.0.height ≤ k + 1)) }
    ensures scope { IfOk result (λ x. (outer : names.Scope)
        → scope.old ≡ outer ++ expr_adds (expr_of left.node.value)
        → scope.new ≡ outer ++ expr_adds (expr_of x.0.node.value)) }
{
    let mut rest = tokens;
    'operators: while goes_postfix(rest) {
        if left.height > k {
            return Err(Fault::TooDeep(rest));
        }
        let (whole, behind) = postfix_on(alloc, scope, k, left, rest)?;
        left = whole;
        rest = behind;
    }
    Ok((left, rest))
}

/// The postfix operator that follows.
#[cycle(reading)]
#[tactic(auto, unfolding(c_reading::specs::ReadExpr::postfix_on, c_reading::specs::ReadExpr::index, c_reading::specs::ReadExpr::call))]
fn postfix_on<'a>(
    alloc: Global,
    scope: &mut Scope,
    k: usize,
    left: Part<Expr>,
    tokens: &'a [Token],
) -> Result<(Part<Expr>, &'a [Token]), Fault<'a>>
    requires small { k < 2 ^ 32 }
    requires known { left.height ≡ height (expr_of left.node.value) }
    requires within { left.height ≤ k }
    ensures reads { (outer : names.Scope) → scope.old ≡ outer ++ expr_adds (expr_of left.node.value)
        → Gives (λ x. expr_of x.node.value)
        (spec.postfix_on k (parsers k) outer (expr_of left.node.value) tokens.now) result }
    ensures height { IfOk result (λ x. (x.0.height ≡ height (expr_of x.0.node.value)) × (left.height < x.0.height)
        × (x.0.height ≤ k + 1)) }
    ensures scope { IfOk result (λ x. (outer : names.Scope)
        → scope.old ≡ outer ++ expr_adds (expr_of left.node.value)
        → scope.new ≡ outer ++ expr_adds (expr_of x.0.node.value)) }
{
    match tokens {
        [
            Token {
                body: Body::Mark(Punct::OpenBracket),
                ..
            },
            ..
        ] => index(alloc, scope, k, left, tokens),
        [
            Token {
                body: Body::Mark(Punct::OpenParen),
                ..
            },
            ..
        ] => call(alloc, scope, k, left, tokens),
        [
            Token {
                body: Body::Mark(Punct::Dot),
                ..
            },
            ..
        ] => access_name(alloc, left, Access::Dot, tokens),
        [
            Token {
                body: Body::Mark(Punct::Arrow),
                ..
            },
            ..
        ] => access_name(alloc, left, Access::Arrow, tokens),
        [
            Token {
                body: Body::Mark(Punct::Increment),
                ..
            },
            ..
        ] => step_by_one(alloc, left, Postfix::PostInc, tokens),
        [
            Token {
                body: Body::Mark(Punct::Decrement),
                ..
            },
            ..
        ] => step_by_one(alloc, left, Postfix::PostDec, tokens),
        _ => Err(Fault::Unfit(tokens)),
    }
}

/// An index in brackets (6.5.2.1).
#[cycle(reading)]
fn index<'a>(
    alloc: Global,
    scope: &mut Scope,
    k: usize,
    left: Part<Expr>,
    tokens: &'a [Token],
) -> Result<(Part<Expr>, &'a [Token]), Fault<'a>>
    requires small { k < 2 ^ 32 }
    requires known { left.height ≡ height (expr_of left.node.value) }
    requires within { left.height ≤ k }
    ensures reads { Gives (λ x. expr_of x.node.value)
        (spec.index_in k (parsers k) scope.old (expr_of left.node.value) tokens.now) result }
    ensures height { IfOk result (λ x. (x.0.height ≡ height (expr_of x.0.node.value)) × (left.height < x.0.height)
        × (x.0.height ≤ k + 1)) }
    ensures scope { IfOk result (λ x. (outer : names.Scope)
        → scope.old ≡ outer ++ expr_adds (expr_of left.node.value)
        → scope.new ≡ outer ++ expr_adds (expr_of x.0.node.value)) }
{
    let (inside, rest) = expr(alloc, scope, k, EXPRESSION, tail(tokens))?;
    let rest = expect(rest, Punct::CloseBracket)?;
    let part = operator::index(alloc, place(tokens), left, inside)?;
    Ok((part, rest))
}

/// The arguments of a call (6.5.2.2).
#[cycle(reading)]
fn call<'a>(
    alloc: Global,
    scope: &mut Scope,
    k: usize,
    left: Part<Expr>,
    tokens: &'a [Token],
) -> Result<(Part<Expr>, &'a [Token]), Fault<'a>>
    requires small { k < 2 ^ 32 }
    requires known { left.height ≡ height (expr_of left.node.value) }
    requires within { left.height ≤ k }
    ensures reads { Gives (λ x. expr_of x.node.value)
        (spec.call_in k (parsers k) scope.old (expr_of left.node.value) tokens.now) result }
    ensures height { IfOk result (λ x. (x.0.height ≡ height (expr_of x.0.node.value)) × (left.height < x.0.height)
        × (x.0.height ≤ k + 1)) }
    ensures scope { IfOk result (λ x. (outer : names.Scope)
        → scope.old ≡ outer ++ expr_adds (expr_of left.node.value)
        → scope.new ≡ outer ++ expr_adds (expr_of x.0.node.value)) }
{
    let (all, rest) = arguments(alloc, scope, k, tail(tokens))?;
    let part = operator::call(alloc, place(tokens), left, all)?;
    Ok((part, rest))
}

/// What stands behind the opening parenthesis of a call.
#[cycle(reading)]
#[tactic(auto, unfolding(c_reading::specs::ReadExpr::arguments))]
fn arguments<'a>(
    alloc: Global,
    scope: &mut Scope,
    k: usize,
    tokens: &'a [Token],
) -> Result<(Parts<Expr>, &'a [Token]), Fault<'a>>
    requires { k < 2 ^ 32 }
    ensures reads { Gives (λ x. exprs (map expr_of x.nodes.items))
        (spec.arguments k (parsers k) scope.old tokens.now) result }
    ensures height { IfOk result (λ x. (x.0.height ≡ exprs_height (exprs (map expr_of x.0.nodes.items)))
        × (x.0.height ≤ k)) }
    ensures scope { IfOk result (λ x. scope.new ≡ scope.old ++ exprs_add (exprs (map expr_of x.0.nodes.items))) }
{
    match tokens {
        [
            Token {
                body: Body::Mark(Punct::CloseParen),
                ..
            },
            rest @ ..,
        ] => Ok((Parts::new(alloc), rest)),
        _ => {
            let (all, rest) = listed_arguments(alloc, scope, k, tokens)?;
            let rest = expect(rest, Punct::CloseParen)?;
            Ok((all, rest))
        }
    }
}

/// A member by its name (6.5.2.3).
#[tactic(auto, unfolding(c_reading::specs::ReadExpr::access_name))]
fn access_name(
    alloc: Global,
    left: Part<Expr>,
    access: Access,
    tokens: &[Token],
) -> Result<(Part<Expr>, &[Token]), Fault<'_>>
    requires known { left.height ≡ height (expr_of left.node.value) }
    requires within { left.height + 1 < 2 ^ 64 }
    ensures reads { Gives (λ x. expr_of x.node.value) (spec.access_name access (expr_of left.node.value) tokens.now)
        result }
    ensures height { IfOk result (λ x. (x.0.height ≡ height (expr_of x.0.node.value))
        × (x.0.height ≡ left.height + 1)) }
    ensures adds { IfOk result (λ x. expr_adds (expr_of x.0.node.value) ≡ expr_adds (expr_of left.node.value)) }
{
    match tail(tokens) {
        [
            Token {
                body: Body::Name(name),
                ..
            },
            rest @ ..,
        ] => {
            let name = Name::new(alloc, name.bytes())?;
            let part = operator::member(alloc, place(tokens), access, left, name)?;
            Ok((part, rest))
        }
        rest => Err(Fault::Unfit(rest)),
    }
}

/// `++` or `--` behind its operand (6.5.2.4).
#[tactic(auto, unfolding(c_reading::specs::ReadExpr::step_by_one))]
fn step_by_one(
    alloc: Global,
    left: Part<Expr>,
    step: Postfix,
    tokens: &[Token],
) -> Result<(Part<Expr>, &[Token]), Fault<'_>>
    requires known { left.height ≡ height (expr_of left.node.value) }
    requires within { left.height + 1 < 2 ^ 64 }
    ensures reads { Gives (λ x. expr_of x.node.value) (spec.step_by_one step (expr_of left.node.value) tokens.now)
        result }
    ensures height { IfOk result (λ x. (x.0.height ≡ height (expr_of x.0.node.value))
        × (x.0.height ≡ left.height + 1)) }
    ensures adds { IfOk result (λ x. expr_adds (expr_of x.0.node.value) ≡ expr_adds (expr_of left.node.value)) }
{
    let part = operator::postfix(alloc, place(tokens), step, left)?;
    Ok((part, tail(tokens)))
}

/// One argument or more.
#[cycle(reading)]
fn listed_arguments<'a>(
    alloc: Global,
    scope: &mut Scope,
    k: usize,
    tokens: &'a [Token],
) -> Result<(Parts<Expr>, &'a [Token]), Fault<'a>>
    requires { k < 2 ^ 32 }
    ensures reads { Gives (λ x. (map expr_of x.nodes.items, false))
        (spec.listed_arguments k (parsers k) scope.old tokens.now)
        result }
    ensures height { IfOk result (λ x. (x.0.height ≡ exprs_height (exprs (map expr_of x.0.nodes.items)))
        × (x.0.height ≤ k)) }
    ensures scope { IfOk result (λ x. scope.new ≡ scope.old ++ exprs_add (exprs (map expr_of x.0.nodes.items))) }
{
    let mut all = Parts::new(alloc);
    let mut rest = tokens;
    'each: loop {
        let (one, behind) = expr(alloc, scope, k, ASSIGNMENT, rest)?;
        all.push(one)?;
        if !is_mark(behind, Punct::Comma) {
            return Ok((all, behind));
        }
        rest = tail(behind);
    }
}
