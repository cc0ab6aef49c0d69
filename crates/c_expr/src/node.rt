//! Nodes of an expression: the operands in order, and then the operator by its rule (6.5.2 to 6.5.17).

ghost use Rattle.std.specs.Prelude.{true};
ghost use Rattle.c_scopes.specs.Env.{ScopesIn, env_of};
ghost use Rattle.c_syntax.specs.Tree as tree;
ghost use Rattle.c_syntax.specs.View.{expr_of, type_name_of};
ghost use Rattle.c_expr.specs.Clauses.{AnswersPart, AnswersParts};
ghost use Rattle.c_expr.specs.Typing.{typed, side_of};
ghost use Rattle.c_expr.specs.Uses as spec;

use crate::applying::{Places, cast_to, joined, measure, prefixed, select};
use crate::expression::{operand, side_operand, test_core};
use crate::operators::{is_decrement, place_of};
use crate::type_names::named;
use crate::usage::{
    Usages, cast_usage, choice_usages, infix_usages, prefix_usage, two_values, whole_usage,
};
use c_conversions::operand::Operand;
use c_core::TypeFault;
use c_expr_rules::operand::Operands;
use c_expr_rules::pointers::index;
use c_operator_rules::conditional::conditional;
use c_operator_rules::steps::postfix;
use c_scopes::Scopes;
use c_syntax::{Access, Expr, Infix, Measure, Postfix, Prefix, TypeName};
use c_types::TypeTable;
use critical_table::{Name, Pos};

/// Two operands that are not typed yet.
#[derive(Clone, Copy)]
pub(crate) struct Sides<'a> {
    pub(crate) left: &'a Expr,
    pub(crate) right: &'a Expr,
}

/// Two operands, the left one first.
#[cycle(typing)]
fn two_operands(
    scopes: &mut Scopes,
    types: &mut TypeTable,
    usages: Usages,
    sides: Sides,
) -> Result<Operands, TypeFault>
    requires { ScopesIn types.old scopes.old }
    ensures { AnswersParts (spec.both usages (side_of (expr_of sides.entry.left.now))
        (side_of (expr_of sides.entry.right.now)) (env_of scopes.old types.old)) types.old scopes.new types.new result }
{
    let left = side_operand(scopes, types, usages.left, sides.left)?;
    let right = side_operand(scopes, types, usages.right, sides.right)?;
    Ok(Operands { left, right })
}

/// `left[right]` (6.5.2.1)
#[cycle(typing)]
pub(crate) fn index_operand(
    scopes: &mut Scopes,
    types: &mut TypeTable,
    at: Pos,
    sides: Sides,
) -> Result<Operand, TypeFault>
    requires { ScopesIn types.old scopes.old }
    ensures { AnswersPart (typed true (tree.Index at (expr_of sides.entry.left.now) (expr_of sides.entry.right.now))
        (env_of scopes.old types.old)) types.old scopes.new types.new result }
{
    let both = two_operands(scopes, types, two_values(), sides)?;
    index(types, at, both)
}

/// `whole.name` and `whole->name` (6.5.2.3)
#[cycle(typing)]
pub(crate) fn member_operand(
    scopes: &mut Scopes,
    types: &mut TypeTable,
    node: (Pos, Access, &Name),
    whole: &Expr,
) -> Result<Operand, TypeFault>
    requires { ScopesIn types.old scopes.old }
    ensures { AnswersPart (typed true (tree.Member node.entry.0 node.entry.1 (expr_of whole.now) node.entry.2.now)
        (env_of scopes.old types.old)) types.old scopes.new types.new result }
{
    let whole = side_operand(scopes, types, whole_usage(node.1), whole)?;
    select(types, (node.0, node.1), node.2, whole)
}

/// `inner++` and `inner--` (6.5.2.4)
#[cycle(typing)]
pub(crate) fn postfix_operand(
    scopes: &mut Scopes,
    types: &mut TypeTable,
    node: (Pos, Postfix),
    inner: &Expr,
) -> Result<Operand, TypeFault>
    requires { ScopesIn types.old scopes.old }
    ensures { AnswersPart (typed true (tree.PostfixOp node.0 node.1 (expr_of inner.now))
        (env_of scopes.old types.old)) types.old scopes.new types.new result }
{
    let made = operand(scopes, types, true, inner)?;
    postfix(types, node.0, is_decrement(node.1), made)
}

/// An operator before its operand (6.5.3)
#[cycle(typing)]
pub(crate) fn prefix_operand(
    scopes: &mut Scopes,
    types: &mut TypeTable,
    node: (Pos, Prefix),
    inner: &Expr,
) -> Result<Operand, TypeFault>
    requires { ScopesIn types.old scopes.old }
    ensures { AnswersPart (typed true (tree.PrefixOp node.0 node.1 (expr_of inner.now))
        (env_of scopes.old types.old)) types.old scopes.new types.new result }
{
    let made = side_operand(scopes, types, prefix_usage(node.1), inner)?;
    prefixed(types, node.0, node.1, made)
}

/// `sizeof` and `_Alignof` of a type name (6.5.3.4)
#[cycle(typing)]
pub(crate) fn measure_operand(
    scopes: &mut Scopes,
    types: &mut TypeTable,
    node: (Pos, Measure),
    name: &TypeName,
) -> Result<Operand, TypeFault>
    requires { ScopesIn types.old scopes.old }
    ensures { AnswersPart (typed true (tree.MeasureOp node.0 node.1 (type_name_of name.now))
        (env_of scopes.old types.old)) types.old scopes.new types.new result }
{
    let of = named(scopes, types, node.0, name)?;
    measure(types, node.0, node.1, of)
}

/// `(type name) inner` (6.5.4)
#[cycle(typing)]
pub(crate) fn cast_operand(
    scopes: &mut Scopes,
    types: &mut TypeTable,
    node: (Pos, &TypeName),
    inner: &Expr,
) -> Result<Operand, TypeFault>
    requires { ScopesIn types.old scopes.old }
    ensures { AnswersPart (typed true (tree.Cast node.entry.0 (type_name_of node.entry.1.now) (expr_of inner.now))
        (env_of scopes.old types.old)) types.old scopes.new types.new result }
{
    let to = named(scopes, types, node.0, node.1)?;
    let made = side_operand(scopes, types, cast_usage(types, to), inner)?;
    cast_to(types, node.0, to, made)
}

/// Two operands and the operator between them (6.5.5 to 6.5.14, 6.5.16, 6.5.17)
#[cycle(typing)]
pub(crate) fn infix_operand(
    scopes: &mut Scopes,
    types: &mut TypeTable,
    node: (bool, Pos, Infix),
    sides: Sides,
) -> Result<Operand, TypeFault>
    requires { ScopesIn types.old scopes.old }
    ensures { AnswersPart (typed node.0 (tree.InfixOp node.1 node.2 (expr_of sides.entry.left.now)
        (expr_of sides.entry.right.now)) (env_of scopes.old types.old)) types.old scopes.new types.new result }
{
    let usages = infix_usages(node.0, node.2);
    let both = two_operands(scopes, types, usages, sides)?;
    let places = Places {
        at: node.1,
        right: place_of(sides.right),
    };
    joined(types, places, node.2, both)
}

/// `test ? left : right` (6.5.15)
#[cycle(typing)]
pub(crate) fn conditional_operand(
    scopes: &mut Scopes,
    types: &mut TypeTable,
    node: (bool, Pos, &Expr),
    sides: Sides,
) -> Result<Operand, TypeFault>
    requires { ScopesIn types.old scopes.old }
    ensures { AnswersPart (typed node.entry.0 (tree.Cond node.entry.1 (expr_of node.entry.2.now)
        (expr_of sides.entry.left.now) (expr_of sides.entry.right.now)) (env_of scopes.old types.old)) types.old
        scopes.new types.new result }
{
    let test = test_core(scopes, types, node.2)?;
    let both = two_operands(scopes, types, choice_usages(node.0), sides)?;
    conditional(types, node.1, test, both)
}
