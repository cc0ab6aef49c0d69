//! Arrays and functions, behind what they declare (6.7.6.2, 6.7.6.3).

ghost use Rattle.std.specs.Prelude.{◌≡◌, ◌+◌, ◌^◌, ◌≤◌, ◌<◌, ◌++◌, IfOk};
ghost use Rattle.c_parser.specs.Agree.{Gives};
ghost use Rattle.c_syntax.specs.Height.{height, declarator_height};
ghost use Rattle.c_syntax.specs.Levels.{conditional};
ghost use Rattle.c_reading.specs.Parser.{next_body};
ghost use Rattle.c_reading.specs.ReadDeclarator as spec;
ghost use Rattle.c_reading.specs.ReadExpr.{expr_lower};
ghost use Rattle.c_reading.specs.ReadSpecifier.{parsers};
ghost use Rattle.c_syntax.specs.Scopes as names;
ghost use Rattle.c_syntax.specs.Scopes.{expr_adds, declarator_adds};
ghost use Rattle.c_syntax.specs.Tree as trees;
ghost use Rattle.c_syntax.specs.View.{expr_of, declarator_of};

use crate::begins::begins_expr;
use crate::fault::Fault;
use crate::level::CONDITIONAL;
use crate::make::declarator;
use crate::next::expect;
use crate::part::Part;
use crate::read::height::expr;
use crate::read::parameters::parameters_at;
use crate::scope::Scope;
use c_lexer::{Body, Punct, Token};
use c_syntax::declarator::Declarator;
use c_syntax::expression::Expr;
use std::alloc::Global;

/// Whether an array or function declarator follows.
fn goes_suffix(tokens: &[Token]) -> bool
    ensures { (left : trees.Declarator) → result ≡ spec.goes_suffix left (next_body tokens.now) }
{
    matches!(
        tokens,
        [
            Token {
                body: Body::Mark(Punct::OpenBracket | Punct::OpenParen),
                ..
            },
            ..
        ]
    )
}

/// All arrays and functions that follow.
#[cycle(reading)]
pub(crate) fn suffixes<'a>(
    alloc: Global,
    scope: &mut Scope,
    k: usize,
    mut left: Part<Declarator>,
    tokens: &'a [Token],
) -> Result<(Part<Declarator>, &'a [Token]), Fault<'a>>
    requires small { k < 2 ^ 32 }
    requires known { left.height ≡ declarator_height (declarator_of left.node.value) }
    requires some { 0 < left.height }
    requires within { left.height ≤ k + 1 }
    ensures reads { (outer : names.Scope) → scope.old ≡ outer ++ declarator_adds (declarator_of left.node.value)
        → Gives (λ x. declarator_of x.node.value)
        (spec.suffixes k (parsers k) outer (declarator_of left.node.value) tokens.now) result }
    ensures height { IfOk result (λ x. (x.0.height ≡ declarator_height (declarator_of x.0.node.value))
        × (x.0.height ≤ k + 1)) }
    ensures scope { IfOk result (λ x. (outer : names.Scope)
        → scope.old ≡ outer ++ declarator_adds (declarator_of left.node.value)
        → scope.new ≡ outer ++ declarator_adds (declarator_of x.0.node.value)) }
{
    let mut rest = tokens;
    'each: while goes_suffix(rest) {
        if left.height > k {
            return Err(Fault::TooDeep(rest));
        }
        let (whole, behind) = suffix_on(alloc, scope, k, left, rest)?;
        left = whole;
        rest = behind;
    }
    Ok((left, rest))
}

/// The next array or function.
#[cycle(reading)]
#[tactic(auto, unfolding(c_reading::specs::ReadDeclarator::suffix_on, c_reading::specs::ReadDeclarator::array_on, c_reading::specs::ReadDeclarator::function_on))]
pub(crate) fn suffix_on<'a>(
    alloc: Global,
    scope: &mut Scope,
    k: usize,
    left: Part<Declarator>,
    tokens: &'a [Token],
) -> Result<(Part<Declarator>, &'a [Token]), Fault<'a>>
    requires small { k < 2 ^ 32 }
    requires known { left.height ≡ declarator_height (declarator_of left.node.value) }
    requires within { left.height ≤ k }
    ensures reads { (outer : names.Scope) → scope.old ≡ outer ++ declarator_adds (declarator_of left.node.value)
        → Gives (λ x. declarator_of x.node.value)
        (spec.suffix_on k (parsers k) outer (declarator_of left.node.value) tokens.now) result }
    ensures height { IfOk result (λ x. (x.0.height ≡ declarator_height (declarator_of x.0.node.value))
        × (left.height < x.0.height) × (x.0.height ≤ k + 1)) }
    ensures scope { IfOk result (λ x. (outer : names.Scope)
        → scope.old ≡ outer ++ declarator_adds (declarator_of left.node.value)
        → scope.new ≡ outer ++ declarator_adds (declarator_of x.0.node.value)) }
{
    match tokens {
        [
            Token {
                body: Body::Mark(Punct::OpenBracket),
                ..
            },
            rest @ ..,
        ] => array_on(alloc, scope, k, left, rest),
        [
            Token {
                body: Body::Mark(Punct::OpenParen),
                ..
            },
            rest @ ..,
        ] => function_on(alloc, scope, k, left, rest),
        _ => Err(Fault::Unfit(tokens)),
    }
}

/// An array, behind its opening bracket.
#[cycle(reading)]
fn array_on<'a>(
    alloc: Global,
    scope: &mut Scope,
    k: usize,
    left: Part<Declarator>,
    tokens: &'a [Token],
) -> Result<(Part<Declarator>, &'a [Token]), Fault<'a>>
    requires small { k < 2 ^ 32 }
    requires known { left.height ≡ declarator_height (declarator_of left.node.value) }
    requires within { left.height ≤ k }
    ensures reads { Gives (λ x. declarator_of x.node.value)
        (spec.array_in k (parsers k) scope.old (declarator_of left.node.value) tokens.now) result }
    ensures height { IfOk result (λ x. (x.0.height ≡ declarator_height (declarator_of x.0.node.value))
        × (left.height < x.0.height) × (x.0.height ≤ k + 1)) }
    ensures scope { IfOk result (λ x. (outer : names.Scope)
        → scope.old ≡ outer ++ declarator_adds (declarator_of left.node.value)
        → scope.new ≡ outer ++ declarator_adds (declarator_of x.0.node.value)) }
{
    match tokens {
        [
            Token {
                body: Body::Mark(Punct::CloseBracket),
                ..
            },
            rest @ ..,
        ] => {
            let whole = declarator::open_array(alloc, left)?;
            Ok((whole, rest))
        }
        _ => {
            let (length, rest) = length(alloc, scope, k, tokens)?;
            let rest = expect(rest, Punct::CloseBracket)?;
            let whole = declarator::array(alloc, left, length)?;
            Ok((whole, rest))
        }
    }
}

/// The length of an array, a constant expression (6.6).
#[cycle(reading)]
#[tactic(auto, unfolding(c_reading::specs::ReadExpr::expr_lower))]
fn length<'a>(
    alloc: Global,
    scope: &mut Scope,
    k: usize,
    tokens: &'a [Token],
) -> Result<(Part<Expr>, &'a [Token]), Fault<'a>>
    requires { k < 2 ^ 32 }
    ensures reads { Gives (λ x. expr_of x.node.value)
        (expr_lower scope.old k ((parsers k).expr scope.old conditional) tokens.now) result }
    ensures height { IfOk result (λ x. (x.0.height ≡ height (expr_of x.0.node.value)) × (x.0.height ≤ k)) }
    ensures scope { IfOk result (λ x. scope.new ≡ scope.old ++ expr_adds (expr_of x.0.node.value)) }
{
    if !begins_expr(scope, tokens) {
        return Err(Fault::Unfit(tokens));
    }
    if k == 0 {
        return Err(Fault::TooDeep(tokens));
    }
    expr(alloc, scope, k, CONDITIONAL, tokens)
}

/// A function, behind its opening parenthesis.
#[cycle(reading)]
fn function_on<'a>(
    alloc: Global,
    scope: &mut Scope,
    k: usize,
    left: Part<Declarator>,
    tokens: &'a [Token],
) -> Result<(Part<Declarator>, &'a [Token]), Fault<'a>>
    requires small { k < 2 ^ 32 }
    requires known { left.height ≡ declarator_height (declarator_of left.node.value) }
    requires within { left.height ≤ k }
    ensures reads { Gives (λ x. declarator_of x.node.value)
        (spec.function_in k (parsers k) scope.old (declarator_of left.node.value) tokens.now) result }
    ensures height { IfOk result (λ x. (x.0.height ≡ declarator_height (declarator_of x.0.node.value))
        × (left.height < x.0.height) × (x.0.height ≤ k + 1)) }
    ensures scope { IfOk result (λ x. (outer : names.Scope)
        → scope.old ≡ outer ++ declarator_adds (declarator_of left.node.value)
        → scope.new ≡ outer ++ declarator_adds (declarator_of x.0.node.value)) }
{
    let outer = scope.len();
    let (list, rest) = parameters_at(alloc, scope, k, tokens)?;
    // parameters are in scope inside their list alone (6.2.1p4)
    scope.leave(outer);
    let whole = declarator::function(alloc, left, list.all, list.variadic)?;
    Ok((whole, rest))
}
