//! The expressions in statements.

ghost use Rattle.std.specs.Prelude.{◌≡◌, ◌^◌, ◌<◌, ◌++◌, IfOk};
ghost use Rattle.std.specs.Option.{option_map};
ghost use Rattle.c_parser.specs.Agree.{Gives};
ghost use Rattle.c_reading.specs.ReadBody as spec;
ghost use Rattle.c_reading.specs.ReadToken as test;
ghost use Rattle.c_syntax.specs.Scopes.{expr_adds};
ghost use Rattle.c_syntax.specs.ScopesUnit.{optional_adds};
ghost use Rattle.c_syntax.specs.View.{expr_of};

use crate::begins::begins_expr;
use crate::fault::Fault;
use crate::level::EXPRESSION;
use crate::next::{expect, is_mark, tail};
use crate::read::height::expr;
use crate::scope::Scope;
use c_lexer::{Punct, Token};
use c_syntax::expression::Expr;
use std::alloc::Global;

/// An expression (6.5.17) of a height at most.
#[tactic(auto, unfolding(c_reading::specs::ReadBody::an_expr, c_reading::specs::ReadExpr::expr_lower))]
fn an_expr<'a>(
    alloc: Global,
    scope: &mut Scope,
    k: usize,
    tokens: &'a [Token],
) -> Result<(Box<Expr>, &'a [Token]), Fault<'a>>
    requires { k < 2 ^ 32 }
    ensures reads { Gives (λ x. expr_of x.value) (spec.an_expr k (spec.statements k) scope.old tokens.now) result }
    ensures scope { IfOk result (λ x. scope.new ≡ scope.old ++ expr_adds (expr_of x.0.value)) }
{
    if !begins_expr(scope, tokens) {
        return Err(Fault::Unfit(tokens));
    }
    if k == 0 {
        return Err(Fault::TooDeep(tokens));
    }
    let (part, rest) = expr(alloc, scope, k, EXPRESSION, tokens)?;
    Ok((part.node, rest))
}

/// An expression or none, and past the mark behind it.
#[tactic(auto, unfolding(c_reading::specs::ReadBody::optional))]
pub(crate) fn optional<'a>(
    alloc: Global,
    scope: &mut Scope,
    k: usize,
    end: Punct,
    tokens: &'a [Token],
) -> Result<(Box<Option<Expr>>, &'a [Token]), Fault<'a>>
    requires { k < 2 ^ 32 }
    ensures reads { Gives (λ x. option_map expr_of x.value)
        (spec.optional k (spec.statements k) (test.is_mark end) scope.old tokens.now) result }
    ensures scope { IfOk result (λ x. scope.new ≡ scope.old ++ optional_adds (option_map expr_of x.0.value)) }
{
    if is_mark(tokens, end) {
        let none = Box::new(alloc, None)?;
        return Ok((none, tail(tokens)));
    }
    let (expr, rest) = an_expr(alloc, scope, k, tokens)?;
    let rest = expect(rest, end)?;
    let some = Box::new(alloc, Some(Box::into_inner(expr)))?;
    Ok((some, rest))
}

/// The controlling expression of a statement (6.8.4p1, 6.8.5p2), in its parentheses.
#[tactic(auto, unfolding(c_reading::specs::ReadBody::controlling))]
pub(crate) fn controlling<'a>(
    alloc: Global,
    scope: &mut Scope,
    k: usize,
    tokens: &'a [Token],
) -> Result<(Box<Expr>, &'a [Token]), Fault<'a>>
    requires { k < 2 ^ 32 }
    ensures reads { Gives (λ x. expr_of x.value) (spec.controlling k (spec.statements k) scope.old tokens.now) result }
    ensures scope { IfOk result (λ x. scope.new ≡ scope.old ++ expr_adds (expr_of x.0.value)) }
{
    let rest = expect(tokens, Punct::OpenParen)?;
    let (test, rest) = expr(alloc, scope, k, EXPRESSION, rest)?;
    let rest = expect(rest, Punct::CloseParen)?;
    Ok((test.node, rest))
}
