//! Calls: the function, then the arguments in order, then the call by its rule (6.5.2.2).

ghost use Rattle.std.specs.Prelude.{map, true};
ghost use Rattle.c_scopes.specs.Clauses.{OptionIn, type_or_none};
ghost use Rattle.c_scopes.specs.Env.{ScopesIn, env_of};
ghost use Rattle.c_syntax.specs.Tree as tree;
ghost use Rattle.c_syntax.specs.View.{expr_of, exprs};
ghost use Rattle.c_conversions.specs.Parts.{part_of, PartIn};
ghost use Rattle.c_expr.specs.Clauses.{AnswersCore, AnswersCores, AnswersPart};
ghost use Rattle.c_expr.specs.Operands.{callee_parameters, callee_varies};
ghost use Rattle.c_type_parts.specs.Shapes as shape;
ghost use Rattle.c_expr.specs.Typing.{typed, passed};
ghost use Rattle.c_expr.specs.Uses as spec;

use crate::argument::{Expected, argument_core, argument_value, expected_at};
use crate::expression::{operand, used_operand};
use crate::operators::place_of;
use c_conversions::operand::Operand;
use c_core::{CoreExpr, TypeFault};
use c_expr_rules::calls::{Called, call};
use c_scopes::Scopes;
use c_syntax::Expr;
use c_types::TypeTable;
use critical_table::Pos;

/// A call: whether its value is used, its place, and the function that is called; then the arguments.
#[cycle(typing)]
pub(crate) fn call_operand(
    scopes: &mut Scopes,
    types: &mut TypeTable,
    node: (bool, Pos, &Expr),
    list: &[Expr],
) -> Result<Operand, TypeFault>
    requires { ScopesIn types.old scopes.old }
    ensures { AnswersPart (typed node.entry.0 (tree.Call node.entry.1 (expr_of node.entry.2.now)
        (exprs (map expr_of list.now))) (env_of scopes.old types.old)) types.old scopes.new types.new result }
{
    let function = used_operand(scopes, types, true, node.2)?;
    let arguments = arguments(scopes, types, &function, list)?;
    let called = Called {
        function,
        arguments,
    };
    call(types, node.1, node.0, called)
}

/// The arguments of a call of that function, in order.
#[cycle(typing)]
fn arguments(
    scopes: &mut Scopes,
    types: &mut TypeTable,
    function: &Operand,
    list: &[Expr],
) -> Result<Vec<CoreExpr>, TypeFault>
    requires here { ScopesIn types.old scopes.old }
    requires function { PartIn types.old function.now }
    ensures { AnswersCores (passed (exprs (map expr_of list.now)) (callee_parameters (part_of types.old function.now))
        (callee_varies (part_of types.old function.now)) (env_of scopes.old types.old)) types.old scopes.new types.new
        result }
{
    let mut made = Vec::new(scopes.alloc());
    for (index, expr) in list.iter().enumerate() {
        let place = expected_at(types, function, index);
        let core = argument(scopes, types, place, expr)?;
        made.push(core)?;
    }
    Ok(made)
}

/// One argument, by what it is for.
#[cycle(typing)]
fn argument(
    scopes: &mut Scopes,
    types: &mut TypeTable,
    place: Expected,
    expr: &Expr,
) -> Result<CoreExpr, TypeFault>
    requires here { ScopesIn types.old scopes.old }
    requires parameter { OptionIn types.old place.parameter }
    ensures { AnswersCore (spec.as_argument (type_or_none types.old place.parameter) place.variadic
        (shape.place_of (expr_of expr.now)) (typed true (expr_of expr.now) (env_of scopes.old types.old))) types.old
        scopes.new types.new result }
{
    let made = operand(scopes, types, true, expr)?;
    let at = place_of(expr);
    let value = argument_value(types, at, place.parameter, made)?;
    argument_core(types, at, place, value)
}
