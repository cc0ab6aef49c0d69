//! Unary expressions and casts (6.5.3, 6.5.4), and what stands before the postfix operators.

ghost use Rattle.std.specs.Prelude.{◌≡◌, ◌+◌, ◌^◌, ◌≤◌, ◌<◌, ◌++◌, IfOk};
ghost use Rattle.c_parser.specs.Agree.{Gives};
ghost use Rattle.c_syntax.specs.Height.{height};
ghost use Rattle.c_reading.specs.ReadExpr as spec;
ghost use Rattle.c_reading.specs.ReadSpecifier.{parsers};
ghost use Rattle.c_reading.specs.ReadToken.{prefix_of};
ghost use Rattle.c_reading.specs.Parser.{place, next_body};
ghost use Rattle.c_syntax.specs.Scopes.{expr_adds};
ghost use Rattle.c_syntax.specs.Tree as tree;
ghost use Rattle.c_syntax.specs.View.{expr_of};

use crate::begins::{begins_expr, begins_type, prefix_of};
use crate::fault::Fault;
use crate::level::{CAST, EXPRESSION, UNARY, operand_level};
use crate::make::primary;
use crate::next::{expect, is_mark, place, tail};
use crate::part::Part;
use crate::read::height::{expr, paren_expr, type_name};
use crate::read::pieces::pieces;
use crate::read::postfix::postfixes;
use crate::scope::Scope;
use c_lexer::{Body, Punct, Token, Units, Word};
use c_syntax::expression::{Constant, Expr};
use c_syntax::operator::{Measure, Prefix};
use critical_table::{Name, Pos};
use std::alloc::Global;

/// An expression in parentheses, behind the first of them.
#[cycle(reading)]
#[tactic(auto, unfolding(c_reading::specs::ReadExpr::paren_expr, c_reading::specs::ReadExpr::expr_lower))]
pub(crate) fn paren_expr_at<'a>(
    alloc: Global,
    scope: &mut Scope,
    k: usize,
    tokens: &'a [Token],
) -> Result<(Part<Expr>, &'a [Token]), Fault<'a>>
    requires { k < 2 ^ 32 }
    ensures reads { Gives (λ x. expr_of x.node.value) (spec.paren_expr k (parsers k) scope.old tokens.now) result }
    ensures height { IfOk result (λ x. (x.0.height ≡ height (expr_of x.0.node.value)) × (x.0.height ≤ k + 1)) }
    ensures scope { IfOk result (λ x. scope.new ≡ scope.old ++ expr_adds (expr_of x.0.node.value)) }
{
    if !begins_expr(scope, tokens) {
        return Err(Fault::Unfit(tokens));
    }
    if k == 0 {
        return Err(Fault::TooDeep(tokens));
    }
    let (inside, rest) = expr(alloc, scope, k, EXPRESSION, tokens)?;
    let rest = expect(rest, Punct::CloseParen)?;
    let whole = primary::paren(alloc, inside)?;
    postfixes(alloc, scope, k, whole, rest)
}

/// A cast, behind its first parenthesis, which stands at this place.
#[cycle(reading)]
#[tactic(auto, unfolding(c_reading::specs::ReadExpr::cast_on))]
fn cast_on<'a>(
    alloc: Global,
    scope: &mut Scope,
    k: usize,
    pos: Pos,
    tokens: &'a [Token],
) -> Result<(Part<Expr>, &'a [Token]), Fault<'a>>
    requires { k < 2 ^ 32 }
    ensures reads { Gives (λ x. expr_of x.node.value) (spec.cast_on k (parsers k) scope.old pos tokens.now) result }
    ensures height { IfOk result (λ x. (x.0.height ≡ height (expr_of x.0.node.value)) × (x.0.height ≤ k + 1)) }
    ensures scope { IfOk result (λ x. scope.new ≡ scope.old ++ expr_adds (expr_of x.0.node.value)) }
{
    let (type_name, rest) = type_name(alloc, scope, k, tokens)?;
    let rest = expect(rest, Punct::CloseParen)?;
    let (operand, rest) = expr(alloc, scope, k, CAST, rest)?;
    let whole = primary::cast(alloc, pos, type_name, operand)?;
    Ok((whole, rest))
}

/// Behind a parenthesis that stands at this place: a cast, where one may stand, or an expression in parentheses.
#[cycle(reading)]
#[tactic(auto, unfolding(c_reading::specs::ReadExpr::inside))]
fn inside<'a>(
    alloc: Global,
    scope: &mut Scope,
    k: usize,
    level: u8,
    pos: Pos,
    tokens: &'a [Token],
) -> Result<(Part<Expr>, &'a [Token]), Fault<'a>>
    requires { k < 2 ^ 32 }
    ensures reads { Gives (λ x. expr_of x.node.value) (spec.inside k (parsers k) scope.old level pos tokens.now)
        result }
    ensures height { IfOk result (λ x. (x.0.height ≡ height (expr_of x.0.node.value)) × (x.0.height ≤ k + 1)) }
    ensures scope { IfOk result (λ x. scope.new ≡ scope.old ++ expr_adds (expr_of x.0.node.value)) }
{
    if begins_type(scope, tokens) {
        if level <= CAST {
            return cast_on(alloc, scope, k, pos, tokens);
        }
        return Err(Fault::Unfit(tokens));
    }
    paren_expr_at(alloc, scope, k, tokens)
}

/// A type name and the parenthesis behind it, for an operator at this place.
#[cycle(reading)]
#[tactic(auto, unfolding(c_reading::specs::ReadExpr::type_measure))]
fn type_measure<'a>(
    alloc: Global,
    scope: &mut Scope,
    k: usize,
    operator: Measure,
    pos: Pos,
    tokens: &'a [Token],
) -> Result<(Part<Expr>, &'a [Token]), Fault<'a>>
    requires { k < 2 ^ 32 }
    ensures reads { Gives (λ x. expr_of x.node.value)
        (spec.type_measure k (parsers k) scope.old operator pos tokens.now) result }
    ensures height { IfOk result (λ x. (x.0.height ≡ height (expr_of x.0.node.value)) × (x.0.height ≤ k + 1)) }
    ensures scope { IfOk result (λ x. scope.new ≡ scope.old ++ expr_adds (expr_of x.0.node.value)) }
{
    let (type_name, rest) = type_name(alloc, scope, k, tokens)?;
    let rest = expect(rest, Punct::CloseParen)?;
    let whole = primary::measure(alloc, pos, operator, type_name)?;
    Ok((whole, rest))
}

/// Behind `sizeof`, at this place, and a parenthesis: a type name, or an operand that begins with the parenthesis.
#[cycle(reading)]
#[tactic(auto, unfolding(c_reading::specs::ReadExpr::size_behind_paren))]
fn size_behind_paren<'a>(
    alloc: Global,
    scope: &mut Scope,
    k: usize,
    pos: Pos,
    tokens: &'a [Token],
) -> Result<(Part<Expr>, &'a [Token]), Fault<'a>>
    requires { k < 2 ^ 32 }
    ensures reads { Gives (λ x. expr_of x.node.value)
        (spec.size_behind_paren k (parsers k) scope.old pos tokens.now) result }
    ensures height { IfOk result (λ x. (x.0.height ≡ height (expr_of x.0.node.value)) × (x.0.height ≤ k + 1)) }
    ensures scope { IfOk result (λ x. scope.new ≡ scope.old ++ expr_adds (expr_of x.0.node.value)) }
{
    if begins_type(scope, tokens) {
        return type_measure(alloc, scope, k, Measure::SizeType, pos, tokens);
    }
    let (operand, rest) = paren_expr(alloc, scope, k, tokens)?;
    let whole = primary::prefix(alloc, pos, Prefix::SizeExpr, operand)?;
    Ok((whole, rest))
}

/// Behind `sizeof`, which stands at this place.
#[cycle(reading)]
#[tactic(auto, unfolding(c_reading::specs::ReadExpr::size))]
fn size<'a>(
    alloc: Global,
    scope: &mut Scope,
    k: usize,
    pos: Pos,
    tokens: &'a [Token],
) -> Result<(Part<Expr>, &'a [Token]), Fault<'a>>
    requires { k < 2 ^ 32 }
    ensures reads { Gives (λ x. expr_of x.node.value) (spec.size k (parsers k) scope.old pos tokens.now) result }
    ensures height { IfOk result (λ x. (x.0.height ≡ height (expr_of x.0.node.value)) × (x.0.height ≤ k + 1)) }
    ensures scope { IfOk result (λ x. scope.new ≡ scope.old ++ expr_adds (expr_of x.0.node.value)) }
{
    if is_mark(tokens, Punct::OpenParen) {
        return size_behind_paren(alloc, scope, k, pos, tail(tokens));
    }
    let (operand, rest) = expr(alloc, scope, k, UNARY, tokens)?;
    let whole = primary::prefix(alloc, pos, Prefix::SizeExpr, operand)?;
    Ok((whole, rest))
}

/// Behind `_Alignof`, which stands at this place.
#[cycle(reading)]
#[tactic(auto, unfolding(c_reading::specs::ReadExpr::alignment))]
fn alignment<'a>(
    alloc: Global,
    scope: &mut Scope,
    k: usize,
    pos: Pos,
    tokens: &'a [Token],
) -> Result<(Part<Expr>, &'a [Token]), Fault<'a>>
    requires { k < 2 ^ 32 }
    ensures reads { Gives (λ x. expr_of x.node.value) (spec.alignment k (parsers k) scope.old pos tokens.now) result }
    ensures height { IfOk result (λ x. (x.0.height ≡ height (expr_of x.0.node.value)) × (x.0.height ≤ k + 1)) }
    ensures scope { IfOk result (λ x. scope.new ≡ scope.old ++ expr_adds (expr_of x.0.node.value)) }
{
    let rest = expect(tokens, Punct::OpenParen)?;
    type_measure(alloc, scope, k, Measure::AlignType, pos, rest)
}

/// A prefix operator and its operand.
#[cycle(reading)]
#[tactic(auto, unfolding(c_reading::specs::ReadExpr::prefix_expr))]
fn prefix_expr<'a>(
    alloc: Global,
    scope: &mut Scope,
    k: usize,
    tokens: &'a [Token],
) -> Result<(Part<Expr>, &'a [Token]), Fault<'a>>
    requires { k < 2 ^ 32 }
    ensures reads { Gives (λ x. expr_of x.node.value)
        (spec.prefix_expr k (parsers k) scope.old (place tokens.now) (prefix_of (next_body tokens.now)) tokens.now)
        result }
    ensures height { IfOk result (λ x. (x.0.height ≡ height (expr_of x.0.node.value)) × (x.0.height ≤ k + 1)) }
    ensures scope { IfOk result (λ x. scope.new ≡ scope.old ++ expr_adds (expr_of x.0.node.value)) }
{
    let Some(operator) = prefix_of(tokens) else {
        return Err(Fault::Unfit(tokens));
    };
    if k == 0 {
        return Err(Fault::TooDeep(tokens));
    }
    let (operand, rest) = expr(alloc, scope, k, operand_level(operator), tail(tokens))?;
    let whole = primary::prefix(alloc, place(tokens), operator, operand)?;
    Ok((whole, rest))
}

/// A constant at this place, with the postfix operators behind it.
#[cycle(reading)]
fn constant<'a>(
    alloc: Global,
    scope: &mut Scope,
    k: usize,
    pos: Pos,
    constant: Constant,
    tokens: &'a [Token],
) -> Result<(Part<Expr>, &'a [Token]), Fault<'a>>
    requires { k < 2 ^ 32 }
    ensures reads { Gives (λ x. expr_of x.node.value)
        (spec.postfixes k (parsers k) scope.old (tree.Const pos constant) tokens.now) result }
    ensures height { IfOk result (λ x. (x.0.height ≡ height (expr_of x.0.node.value)) × (x.0.height ≤ k + 1)) }
    ensures scope { IfOk result (λ x. scope.new ≡ scope.old ++ expr_adds (expr_of x.0.node.value)) }
{
    let whole = primary::constant(alloc, pos, constant)?;
    postfixes(alloc, scope, k, whole, tokens)
}

/// A name at this place, with the postfix operators behind it.
#[cycle(reading)]
fn name<'a>(
    alloc: Global,
    scope: &mut Scope,
    k: usize,
    pos: Pos,
    name: &Name,
    tokens: &'a [Token],
) -> Result<(Part<Expr>, &'a [Token]), Fault<'a>>
    requires { k < 2 ^ 32 }
    ensures reads { Gives (λ x. expr_of x.node.value)
        (spec.postfixes k (parsers k) scope.old (tree.Id pos name.now) tokens.now) result }
    ensures height { IfOk result (λ x. (x.0.height ≡ height (expr_of x.0.node.value)) × (x.0.height ≤ k + 1)) }
    ensures scope { IfOk result (λ x. scope.new ≡ scope.old ++ expr_adds (expr_of x.0.node.value)) }
{
    let whole = primary::name(alloc, pos, name)?;
    postfixes(alloc, scope, k, whole, tokens)
}

/// Behind a string literal at this place: more of its width, and postfix operators.
#[cycle(reading)]
#[tactic(auto, unfolding(c_reading::specs::ReadExpr::text))]
fn text<'a>(
    alloc: Global,
    scope: &mut Scope,
    k: usize,
    pos: Pos,
    units: &Units,
    wide: bool,
    tokens: &'a [Token],
) -> Result<(Part<Expr>, &'a [Token]), Fault<'a>>
    requires { k < 2 ^ 32 }
    ensures reads { Gives (λ x. expr_of x.node.value)
        (spec.text k (parsers k) scope.old pos units.now wide tokens.now) result }
    ensures height { IfOk result (λ x. (x.0.height ≡ height (expr_of x.0.node.value)) × (x.0.height ≤ k + 1)) }
    ensures scope { IfOk result (λ x. scope.new ≡ scope.old ++ expr_adds (expr_of x.0.node.value)) }
{
    let (more, rest) = pieces(alloc, tokens, wide)?;
    let literals = primary::literals(alloc, units, more, wide)?;
    let whole = primary::text(alloc, pos, literals)?;
    postfixes(alloc, scope, k, whole, rest)
}

/// A unary expression or a cast, with the postfix operators behind it.
#[cycle(reading)]
#[tactic(auto, unfolding(c_reading::specs::ReadExpr::unary_at, c_reading::specs::ReadExpr::prefix_expr))]
pub(crate) fn unary_at<'a>(
    alloc: Global,
    scope: &mut Scope,
    k: usize,
    level: u8,
    tokens: &'a [Token],
) -> Result<(Part<Expr>, &'a [Token]), Fault<'a>>
    requires { k < 2 ^ 32 }
    ensures reads { Gives (λ x. expr_of x.node.value) (spec.unary_at k (parsers k) scope.old level tokens.now) result }
    ensures height { IfOk result (λ x. (x.0.height ≡ height (expr_of x.0.node.value)) × (x.0.height ≤ k + 1)) }
    ensures scope { IfOk result (λ x. scope.new ≡ scope.old ++ expr_adds (expr_of x.0.node.value)) }
{
    let [Token { pos, body, .. }, rest @ ..] = tokens else {
        return Err(Fault::Unfit(tokens));
    };
    match body {
        Body::Number(number) => constant(alloc, scope, k, *pos, Constant::Number(*number), rest),
        Body::Character(value, wide) => {
            let value = Constant::Character(*value, *wide);
            constant(alloc, scope, k, *pos, value, rest)
        }
        Body::Literal(units, wide) => text(alloc, scope, k, *pos, units, *wide, rest),
        Body::Name(found) => {
            if scope.is_type(found) {
                return Err(Fault::Unfit(tokens));
            }
            name(alloc, scope, k, *pos, found, rest)
        }
        Body::Word(Word::Sizeof) => {
            if k == 0 {
                return Err(Fault::TooDeep(tokens));
            }
            size(alloc, scope, k, *pos, rest)
        }
        Body::Word(Word::Alignof) => {
            if k == 0 {
                return Err(Fault::TooDeep(tokens));
            }
            alignment(alloc, scope, k, *pos, rest)
        }
        Body::Mark(Punct::OpenParen) => {
            if k == 0 {
                return Err(Fault::TooDeep(tokens));
            }
            inside(alloc, scope, k, level, *pos, rest)
        }
        _ => prefix_expr(alloc, scope, k, tokens),
    }
}
