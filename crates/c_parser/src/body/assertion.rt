//! Static assertions (6.7.10).

ghost use Rattle.std.specs.Prelude.{◌≡◌, ◌^◌, ◌<◌, ◌++◌, ℕ, IfOk};
ghost use Rattle.c_parser.specs.Agree.{Gives};
ghost use Rattle.c_reading.specs.ReadBody as spec;
ghost use Rattle.c_syntax.specs.Scopes.{expr_adds};
ghost use Rattle.c_syntax.specs.View.{expr_of};
ghost use Rattle.c_syntax.specs.ViewUnit.{assert_of};

use crate::fault::Fault;
use crate::level::CONDITIONAL;
use crate::make::{assertion as make, primary};
use crate::next::{expect, place, tail};
use crate::read::height::expr;
use crate::read::pieces::pieces;
use crate::scope::Scope;
use c_lexer::{Body, Punct, Token};
use c_syntax::declaration::Assert;
use c_syntax::expression::Expr;
use critical_table::Pos;
use std::alloc::Global;

/// A static assertion whose parts are of a height at most.
#[tactic(auto, unfolding(c_reading::specs::ReadBody::assert_at))]
pub(crate) fn assert_at<'a>(
    alloc: Global,
    scope: &mut Scope,
    k: usize,
    tokens: &'a [Token],
) -> Result<(Box<Assert>, &'a [Token]), Fault<'a>>
    requires { k < 2 ^ 32 }
    ensures reads { Gives (λ x. assert_of x.value) (spec.assert_at k scope.old tokens.now) result }
    ensures scope { IfOk result (λ x. scope.new ≡ scope.old ++ expr_adds (expr_of x.0.value.condition)) }
{
    if k == 0 {
        return Err(Fault::TooDeep(tokens));
    }
    assert_on(alloc, scope, k, place(tokens), tail(tokens))
}

/// What stands behind the word at this place.
#[tactic(auto, unfolding(c_reading::specs::ReadBody::assert_on))]
fn assert_on<'a>(
    alloc: Global,
    scope: &mut Scope,
    k: usize,
    pos: Pos,
    tokens: &'a [Token],
) -> Result<(Box<Assert>, &'a [Token]), Fault<'a>>
    requires { k < 2 ^ 32 }
    ensures reads { Gives (λ x. assert_of x.value) (spec.assert_on k scope.old pos tokens.now) result }
    ensures scope { IfOk result (λ x. scope.new ≡ scope.old ++ expr_adds (expr_of x.0.value.condition)) }
{
    let rest = expect(tokens, Punct::OpenParen)?;
    let (condition, rest) = expr(alloc, scope, k, CONDITIONAL, rest)?;
    let rest = expect(rest, Punct::Comma)?;
    message(alloc, pos, condition.node, rest)
}

/// What stands behind the comma: the message, and the end of the assertion at this place.
#[tactic(auto, unfolding(c_reading::specs::ReadBody::message))]
fn message<'a>(
    alloc: Global,
    pos: Pos,
    condition: Box<Expr>,
    tokens: &'a [Token],
) -> Result<(Box<Assert>, &'a [Token]), Fault<'a>>
    ensures reads { (k : ℕ)
        → Gives (λ x. assert_of x.value) (spec.message k pos (expr_of condition.value) tokens.now) result }
    ensures condition { IfOk result (λ x. expr_of x.0.value.condition ≡ expr_of condition.value) }
{
    match tokens {
        [
            Token {
                body: Body::Literal(units, wide),
                ..
            },
            rest @ ..,
        ] => {
            let (more, rest) = pieces(alloc, rest, *wide)?;
            let rest = expect(rest, Punct::CloseParen)?;
            let rest = expect(rest, Punct::Semicolon)?;
            let text = primary::literals(alloc, units, more, *wide)?;
            let assertion = make::assertion(alloc, pos, condition, text)?;
            Ok((assertion, rest))
        }
        _ => Err(Fault::Unfit(tokens)),
    }
}
