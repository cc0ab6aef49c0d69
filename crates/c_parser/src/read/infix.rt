//! Operators between operands, and the conditional (6.5.5 to 6.5.17).

ghost use Rattle.std.specs.Prelude.{◌≡◌, ◌+◌, ◌^◌, ◌≤◌, ◌<◌, ◌++◌, Some, IfOk};
ghost use Rattle.c_lexer.specs.declared.token.Body.TheVariants as bodies;
ghost use Rattle.c_parser.specs.Agree.{Gives};
ghost use Rattle.c_syntax.specs.Height.{height};
ghost use Rattle.c_reading.specs.Parser as parser;
ghost use Rattle.c_reading.specs.ReadExpr as spec;
ghost use Rattle.c_reading.specs.ReadToken as next_token;
ghost use Rattle.c_reading.specs.ReadSpecifier.{parsers};
ghost use Rattle.c_syntax.specs.Scopes as names;
ghost use Rattle.c_syntax.specs.Scopes.{expr_adds};
ghost use Rattle.c_syntax.specs.View.{expr_of};

use crate::fault::Fault;
use crate::level::{
    CONDITIONAL, EXPRESSION, LOGICAL_OR, infix_level, left_level, own_level, right_level,
};
use crate::make::operator;
use crate::next::{expect, is_mark, place, tail};
use crate::part::Part;
use crate::read::height::expr;
use crate::read::unary::unary_at;
use crate::scope::Scope;
use c_lexer::{Body, Punct, Token};
use c_syntax::expression::Expr;
use c_syntax::operator::{Arithmetic, Comparison, Infix};
use critical_table::Pos;
use std::alloc::Global;

/// The operator that this mark is between two operands.
fn between(mark: Punct) -> Option<Infix>
    ensures { result ≡ next_token.infix_of (Some (bodies.Mark mark)) }
{
    match mark {
        Punct::Star => Some(Infix::Arithmetic(Arithmetic::Multiply)),
        Punct::Slash => Some(Infix::Arithmetic(Arithmetic::Divide)),
        Punct::Percent => Some(Infix::Arithmetic(Arithmetic::Remainder)),
        Punct::Plus => Some(Infix::Arithmetic(Arithmetic::Add)),
        Punct::Minus => Some(Infix::Arithmetic(Arithmetic::Subtract)),
        Punct::ShiftLeft => Some(Infix::Arithmetic(Arithmetic::ShiftLeft)),
        Punct::ShiftRight => Some(Infix::Arithmetic(Arithmetic::ShiftRight)),
        Punct::Ampersand => Some(Infix::Arithmetic(Arithmetic::BitAnd)),
        Punct::Caret => Some(Infix::Arithmetic(Arithmetic::BitXor)),
        Punct::Bar => Some(Infix::Arithmetic(Arithmetic::BitOr)),
        Punct::Less => Some(Infix::Comparison(Comparison::Less)),
        Punct::Greater => Some(Infix::Comparison(Comparison::Greater)),
        Punct::LessEqual => Some(Infix::Comparison(Comparison::LessEqual)),
        Punct::GreaterEqual => Some(Infix::Comparison(Comparison::GreaterEqual)),
        Punct::Equal => Some(Infix::Comparison(Comparison::Equal)),
        Punct::NotEqual => Some(Infix::Comparison(Comparison::NotEqual)),
        Punct::AndAnd => Some(Infix::AndAlso),
        Punct::OrOr => Some(Infix::OrElse),
        Punct::Assign => Some(Infix::Assign),
        Punct::StarAssign => Some(Infix::AssignOp(Arithmetic::Multiply)),
        Punct::SlashAssign => Some(Infix::AssignOp(Arithmetic::Divide)),
        Punct::PercentAssign => Some(Infix::AssignOp(Arithmetic::Remainder)),
        Punct::PlusAssign => Some(Infix::AssignOp(Arithmetic::Add)),
        Punct::MinusAssign => Some(Infix::AssignOp(Arithmetic::Subtract)),
        Punct::ShiftLeftAssign => Some(Infix::AssignOp(Arithmetic::ShiftLeft)),
        Punct::ShiftRightAssign => Some(Infix::AssignOp(Arithmetic::ShiftRight)),
        Punct::AmpersandAssign => Some(Infix::AssignOp(Arithmetic::BitAnd)),
        Punct::CaretAssign => Some(Infix::AssignOp(Arithmetic::BitXor)),
        Punct::BarAssign => Some(Infix::AssignOp(Arithmetic::BitOr)),
        Punct::Comma => Some(Infix::Comma),
        _ => None,
    }
}

/// The operator between two operands that the next token is.
fn infix_of(tokens: &[Token]) -> Option<Infix>
    ensures { result ≡ next_token.infix_of (parser.next_body tokens.now) }
{
    match tokens {
        [
            Token {
                body: Body::Mark(mark),
                ..
            },
            ..
        ] => between(*mark),
        _ => None,
    }
}

/// Whether an operator comes next that may take this tree on its left, and stand where the level is wanted.
fn goes_infix(level: u8, left: &Part<Expr>, tokens: &[Token]) -> bool
    ensures { result ≡ spec.goes_infix level (expr_of left.now.node.value) (parser.next_body tokens.now) }
{
    match infix_of(tokens) {
        Some(operator) => level <= infix_level(operator)
            && left_level(operator) <= own_level(&left.node),
        None => {
            is_mark(tokens, Punct::Question)
                && level <= CONDITIONAL
                && LOGICAL_OR <= own_level(&left.node)
        }
    }
}

/// An expression of a level.
#[cycle(reading)]
#[tactic(auto, unfolding(c_reading::specs::ReadExpr::expr_at))]
pub(crate) fn expr_at<'a>(
    alloc: Global,
    scope: &mut Scope,
    k: usize,
    level: u8,
    tokens: &'a [Token],
) -> Result<(Part<Expr>, &'a [Token]), Fault<'a>>
    requires { k < 2 ^ 32 }
    ensures reads { Gives (λ x. expr_of x.node.value) (spec.expr_at k (parsers k) scope.old level tokens.now) result }
    ensures height { IfOk result (λ x. (x.0.height ≡ height (expr_of x.0.node.value)) × (x.0.height ≤ k + 1)) }
    ensures scope { IfOk result (λ x. scope.new ≡ scope.old ++ expr_adds (expr_of x.0.node.value)) }
{
    let (left, rest) = unary_at(alloc, scope, k, level, tokens)?;
    infixes(alloc, scope, k, level, left, rest)
}

/// All operators that follow, as far as they may stand where the level is wanted.
#[cycle(reading)]
fn infixes<'a>(
    alloc: Global,
    scope: &mut Scope,
    k: usize,
    level: u8,
    mut left: Part<Expr>,
    tokens: &'a [Token],
) -> Result<(Part<Expr>, &'a [Token]), Fault<'a>>
    requires small { k < 2 ^ 32 }
    requires known { left.height ≡ height (expr_of left.node.value) }
    requires within { left.height ≤ k + 1 }
    ensures reads { (outer : names.Scope) → scope.old ≡ outer ++ expr_adds (expr_of left.node.value)
        → Gives (λ x. expr_of x.node.value)
        (spec.infixes k (parsers k) outer level (expr_of left.node.value) tokens.now) result }
    ensures height { IfOk result (λ x. (x.0.height ≡ height (expr_of x.0.node.value)) × (x.0.height ≤ k + 1)) }
    ensures scope { IfOk result (λ x. (outer : names.Scope)
        → scope.old ≡ outer ++ expr_adds (expr_of left.node.value)
        → scope.new ≡ outer ++ expr_adds (expr_of x.0.node.value)) }
{
    let mut rest = tokens;
    'operators: while goes_infix(level, &left, rest) {
        if left.height > k {
            return Err(Fault::TooDeep(rest));
        }
        let (whole, behind) = infix_on(alloc, scope, k, left, rest)?;
        left = whole;
        rest = behind;
    }
    Ok((left, rest))
}

/// The operator that follows, and its other operands.
#[cycle(reading)]
#[tactic(auto, unfolding(c_reading::specs::ReadExpr::infix_on, c_reading::specs::ReadExpr::between_on))]
fn infix_on<'a>(
    alloc: Global,
    scope: &mut Scope,
    k: usize,
    left: Part<Expr>,
    tokens: &'a [Token],
) -> Result<(Part<Expr>, &'a [Token]), Fault<'a>>
    requires small { k < 2 ^ 32 }
    requires known { left.height ≡ height (expr_of left.node.value) }
    requires within { left.height ≤ k }
    ensures reads { (outer : names.Scope) → scope.old ≡ outer ++ expr_adds (expr_of left.node.value)
        → Gives (λ x. expr_of x.node.value) (spec.infix_on k (parsers k) outer (expr_of left.node.value) tokens.now)
        result }
    ensures height { IfOk result (λ x. (x.0.height ≡ height (expr_of x.0.node.value)) × (left.height < x.0.height)
        × (x.0.height ≤ k + 1)) }
    ensures scope { IfOk result (λ x. (outer : names.Scope)
        → scope.old ≡ outer ++ expr_adds (expr_of left.node.value)
        → scope.new ≡ outer ++ expr_adds (expr_of x.0.node.value)) }
{
    match infix_of(tokens) {
        Some(operator) => between_on(alloc, scope, k, left, place(tokens), operator, tail(tokens)),
        None => cond_on(alloc, scope, k, left, place(tokens), tail(tokens)),
    }
}

/// The right operand of an operator (6.5.5 to 6.5.14, 6.5.16, 6.5.17).
#[cycle(reading)]
fn between_on<'a>(
    alloc: Global,
    scope: &mut Scope,
    k: usize,
    left: Part<Expr>,
    pos: Pos,
    operator: Infix,
    tokens: &'a [Token],
) -> Result<(Part<Expr>, &'a [Token]), Fault<'a>>
    requires small { k < 2 ^ 32 }
    requires known { left.height ≡ height (expr_of left.node.value) }
    requires within { left.height ≤ k }
    ensures reads { Gives (λ x. expr_of x.node.value)
        (spec.between_in k (parsers k) scope.old (expr_of left.node.value) pos operator tokens.now) result }
    ensures height { IfOk result (λ x. (x.0.height ≡ height (expr_of x.0.node.value)) × (left.height < x.0.height)
        × (x.0.height ≤ k + 1)) }
    ensures scope { IfOk result (λ x. (outer : names.Scope)
        → scope.old ≡ outer ++ expr_adds (expr_of left.node.value)
        → scope.new ≡ outer ++ expr_adds (expr_of x.0.node.value)) }
{
    let (right, rest) = expr(alloc, scope, k, right_level(operator), tokens)?;
    let part = operator::infix(alloc, pos, operator, left, right)?;
    Ok((part, rest))
}

/// The second and third operand of the conditional operator (6.5.15).
#[cycle(reading)]
#[tactic(auto, unfolding(c_reading::specs::ReadExpr::cond_on))]
fn cond_on<'a>(
    alloc: Global,
    scope: &mut Scope,
    k: usize,
    left: Part<Expr>,
    pos: Pos,
    tokens: &'a [Token],
) -> Result<(Part<Expr>, &'a [Token]), Fault<'a>>
    requires small { k < 2 ^ 32 }
    requires known { left.height ≡ height (expr_of left.node.value) }
    requires within { left.height ≤ k }
    ensures reads { (outer : names.Scope) → scope.old ≡ outer ++ expr_adds (expr_of left.node.value)
        → Gives (λ x. expr_of x.node.value)
        (spec.cond_on k (parsers k) outer (expr_of left.node.value) pos tokens.now) result }
    ensures height { IfOk result (λ x. (x.0.height ≡ height (expr_of x.0.node.value)) × (left.height < x.0.height)
        × (x.0.height ≤ k + 1)) }
    ensures scope { IfOk result (λ x. (outer : names.Scope)
        → scope.old ≡ outer ++ expr_adds (expr_of left.node.value)
        → scope.new ≡ outer ++ expr_adds (expr_of x.0.node.value)) }
{
    let (then, rest) = expr(alloc, scope, k, EXPRESSION, tokens)?;
    let rest = expect(rest, Punct::Colon)?;
    let (otherwise, rest) = expr(alloc, scope, k, CONDITIONAL, rest)?;
    let part = operator::cond(alloc, pos, left, then, otherwise)?;
    Ok((part, rest))
}
