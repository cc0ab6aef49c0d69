//! The walk over an expression: its parts in order, and then the node by its rule (6.5).

ghost use Rattle.std.specs.Prelude.{true, false};
ghost use Rattle.c_scopes.specs.Env.{ScopesIn, env_of};
ghost use Rattle.c_syntax.specs.View.{expr_of};
ghost use Rattle.c_expr.specs.Clauses.{AnswersCore, AnswersPart};
ghost use Rattle.c_type_parts.specs.Shapes as shape;
ghost use Rattle.c_expr.specs.Typing.{typed, side_of, value_of};
ghost use Rattle.c_expr.specs.Uses as spec;

use crate::call::call_operand;
use crate::node::{
    Sides, cast_operand, conditional_operand, index_operand, infix_operand, measure_operand,
    member_operand, postfix_operand, prefix_operand,
};
use crate::operators::place_of;
use crate::primary::{constant, identifier, string_literal};
use crate::usage::Usage;
use c_conversions::operand::{Category, Operand};
use c_core::{CoreExpr, TypeFault};
use c_expr_rules::uses::{discard, test, used, value};
use c_scopes::Scopes;
use c_syntax::Expr;
use c_types::TypeTable;

/// An expression before it is a value (6.5). The flag tells that its value is used.
#[cycle(typing)]
#[tactic(auto, unfolding(crate::specs::Typing::typed))]
pub(crate) fn operand(
    scopes: &mut Scopes,
    types: &mut TypeTable,
    used: bool,
    expr: &Expr,
) -> Result<Operand, TypeFault>
    requires { ScopesIn types.old scopes.old }
    ensures { AnswersPart (typed used (expr_of expr.now) (env_of scopes.old types.old)) types.old scopes.new types.new
        result }
{
    match expr {
        Expr::Const(at, value) => constant(types, *at, *value),
        Expr::Id(at, name) => identifier(scopes, types, *at, name),
        Expr::Text(at, text) => string_literal(types, *at, text),
        Expr::Paren(inner) => operand(scopes, types, used, inner),
        Expr::Index(at, left, right) => index_operand(scopes, types, *at, Sides { left, right }),
        Expr::Call(at, function, arguments) => {
            call_operand(scopes, types, (used, *at, function), arguments.as_slice())
        }
        Expr::Member(at, access, whole, name) => {
            member_operand(scopes, types, (*at, *access, name), whole)
        }
        Expr::Postfix(at, operator, inner) => {
            postfix_operand(scopes, types, (*at, *operator), inner)
        }
        Expr::Prefix(at, operator, inner) => prefix_operand(scopes, types, (*at, *operator), inner),
        Expr::Measure(at, operator, name) => {
            measure_operand(scopes, types, (*at, *operator), name)
        }
        Expr::Cast(at, name, inner) => cast_operand(scopes, types, (*at, name), inner),
        Expr::Infix(at, operator, left, right) => {
            infix_operand(scopes, types, (used, *at, *operator), Sides { left, right })
        }
        Expr::Cond(at, test, left, right) => {
            conditional_operand(scopes, types, (used, *at, test), Sides { left, right })
        }
    }
}

/// An expression as a value, which may be void (6.3.2.1). The flag tells that the value is used.
#[cycle(typing)]
pub fn used_operand(
    scopes: &mut Scopes,
    types: &mut TypeTable,
    is_used: bool,
    expr: &Expr,
) -> Result<Operand, TypeFault>
    requires { ScopesIn types.old scopes.old }
    ensures { AnswersPart (spec.as_used (shape.place_of (expr_of expr.now)) (typed is_used (expr_of expr.now)
        (env_of scopes.old types.old))) types.old scopes.new types.new result }
{
    let made = operand(scopes, types, is_used, expr)?;
    used(types, place_of(expr), made)
}

/// An expression as a value that is needed (6.3.2.1, 6.3.2.2).
#[cycle(typing)]
pub(crate) fn value_operand(
    scopes: &mut Scopes,
    types: &mut TypeTable,
    expr: &Expr,
) -> Result<Operand, TypeFault>
    requires { ScopesIn types.old scopes.old }
    ensures { AnswersPart (spec.as_value (shape.place_of (expr_of expr.now)) (typed true (expr_of expr.now)
        (env_of scopes.old types.old))) types.old scopes.new types.new result }
{
    let made = operand(scopes, types, true, expr)?;
    value(types, place_of(expr), made)
}

/// An expression whose value is not used (6.3.2.2).
#[cycle(typing)]
fn unused_core(
    scopes: &mut Scopes,
    types: &mut TypeTable,
    expr: &Expr,
) -> Result<CoreExpr, TypeFault>
    requires { ScopesIn types.old scopes.old }
    ensures { AnswersCore (spec.as_unused (shape.place_of (expr_of expr.now)) (typed false (expr_of expr.now)
        (env_of scopes.old types.old))) types.old scopes.new types.new result }
{
    let made = operand(scopes, types, false, expr)?;
    discard(types, place_of(expr), made)
}

/// A controlling expression (6.5.15p2, 6.8.4.1, 6.8.5).
#[cycle(typing)]
pub(crate) fn test_core(
    scopes: &mut Scopes,
    types: &mut TypeTable,
    expr: &Expr,
) -> Result<CoreExpr, TypeFault>
    requires { ScopesIn types.old scopes.old }
    ensures { AnswersCore (spec.as_test (shape.place_of (expr_of expr.now)) (typed true (expr_of expr.now)
        (env_of scopes.old types.old))) types.old scopes.new types.new result }
{
    let made = operand(scopes, types, true, expr)?;
    test(types, place_of(expr), made)
}

// An expression whose value is not used, as an operand.
#[cycle(typing)]
fn unused_operand(
    scopes: &mut Scopes,
    types: &mut TypeTable,
    expr: &Expr,
) -> Result<Operand, TypeFault>
    requires { ScopesIn types.old scopes.old }
    ensures { AnswersPart (spec.side_as Usage.Unused (side_of (expr_of expr.now)) (env_of scopes.old types.old))
        types.old scopes.new types.new result }
{
    let core = unused_core(scopes, types, expr)?;
    Ok(Operand {
        category: Category::Value,
        null: false,
        core,
    })
}

/// An operand by what it is to its operator.
#[cycle(typing)]
pub(crate) fn side_operand(
    scopes: &mut Scopes,
    types: &mut TypeTable,
    usage: Usage,
    expr: &Expr,
) -> Result<Operand, TypeFault>
    requires { ScopesIn types.old scopes.old }
    ensures { AnswersPart (spec.side_as usage (side_of (expr_of expr.now)) (env_of scopes.old types.old)) types.old
        scopes.new types.new result }
{
    match usage {
        Usage::Value => value_operand(scopes, types, expr),
        Usage::Used(is_used) => used_operand(scopes, types, is_used, expr),
        Usage::Target => operand(scopes, types, true, expr),
        Usage::Unused => unused_operand(scopes, types, expr),
    }
}

/// The value of an expression (6.5, 6.3.2.1): what it is as a value that is needed.
///
/// The fault has the number of the first constraint that fails, with its place; the scopes are then as far as the walk
/// came. `Memory` where memory runs out.
pub fn expression(
    scopes: &mut Scopes,
    types: &mut TypeTable,
    expr: &Expr,
) -> Result<CoreExpr, TypeFault>
    requires { ScopesIn types.old scopes.old }
    ensures { AnswersCore (value_of (expr_of expr.now) (env_of scopes.old types.old)) types.old scopes.new types.new
        result }
{
    let made = value_operand(scopes, types, expr)?;
    Ok(made.core)
}
