//! Operators on operands that are typed: each by its rule (6.5.2 to 6.5.17).

ghost use Rattle.std.specs.Prelude.{List};
ghost use Rattle.c_types.specs.CType.{type_of};
ghost use Rattle.c_types.specs.Structures.{structures_of};
ghost use Rattle.c_core.specs.Ids.{IdIn};
ghost use Rattle.c_scopes.specs.Clauses.{Rules};
ghost use Rattle.c_scopes.specs.Env.{ScopesIn, env_of};
ghost use Rattle.c_scopes.specs.Scopes.{Scope};
ghost use Rattle.c_conversions.specs.Parts.{part_of, PartIn};
ghost use Rattle.c_expr.specs.Clauses.{AnswersPart, PartsIn};
ghost use Rattle.c_expr.specs.Operands as rule;
ghost use Rattle.c_expr.specs.Uses as spec;

use crate::operators::{comparison_of, operator_of};
use c_conversions::operand::Operand;
use c_conversions::versions::is_void;
use c_core::TypeFault;
use c_expr_rules::casts::cast;
use c_expr_rules::members::{arrow, dot};
use c_expr_rules::operand::Operands;
use c_expr_rules::pointers::{address, deref};
use c_expr_rules::unary::{align_of_type, flip, minus, not, plus, size_of, size_of_type};
use c_operator_rules::assignment::{assign, convert_assigned};
use c_operator_rules::binary::{and_also, binary, or_else};
use c_operator_rules::comparisons::comparison;
use c_operator_rules::conditional::comma;
use c_operator_rules::steps::{compound, prefix};
use c_syntax::{Access, Infix, Measure, Prefix};
use c_types::{TypeId, TypeTable};
use critical_table::{Name, Pos};

/// A member of a structure or union, by `.` or `->` at that place (6.5.2.3).
pub fn select(
    types: &mut TypeTable,
    operator: (Pos, Access),
    name: &Name,
    whole: Operand,
) -> Result<Operand, TypeFault>
    requires { PartIn types.old whole }
    ensures { Rules part_of PartIn (rule.selection_rule (structures_of types.old) operator.0 operator.1
        name.now (part_of types.old whole)) operator.0 types.old types.new result }
{
    let (at, access) = operator;
    match access {
        Access::Dot => dot(types, at, name, whole),
        Access::Arrow => arrow(types, at, name, whole),
    }
}

/// An operator before its operand (6.5.3).
pub fn prefixed(
    types: &mut TypeTable,
    at: Pos,
    operator: Prefix,
    operand: Operand,
) -> Result<Operand, TypeFault>
    requires { PartIn types.old operand }
    ensures { Rules part_of PartIn (rule.prefixed_rule (structures_of types.old) at operator
        (part_of types.old operand)) at types.old types.new result }
{
    match operator {
        Prefix::PreInc => prefix(types, at, false, operand),
        Prefix::PreDec => prefix(types, at, true, operand),
        Prefix::AddressOf => address(types, at, operand),
        Prefix::SizeExpr => size_of(types, at, operand),
        Prefix::Deref => deref(types, at, operand),
        Prefix::Plus => plus(types, at, operand),
        Prefix::Minus => minus(types, at, operand),
        Prefix::Flip => flip(types, at, operand),
        Prefix::Not => not(types, at, operand),
    }
}

/// `sizeof` or `_Alignof` of a type (6.5.3.4).
pub fn measure(
    types: &TypeTable,
    at: Pos,
    operator: Measure,
    of: TypeId,
) -> Result<Operand, TypeFault>
    requires { IdIn types.now of }
    ensures { Rules part_of PartIn (rule.measure_rule (structures_of types.now) at operator (type_of types.now of)) at
        types.now types.now result }
{
    match operator {
        Measure::SizeType => size_of_type(types, at, of),
        Measure::AlignType => align_of_type(types, at, of),
    }
}

/// A cast of an operand, whose value is used where the type is not `void` (6.5.4).
pub fn cast_to(
    types: &mut TypeTable,
    at: Pos,
    to: TypeId,
    operand: Operand,
) -> Result<Operand, TypeFault>
    requires to { IdIn types.old to }
    requires operand { PartIn types.old operand }
    ensures { Rules part_of PartIn (rule.cast_to_rule at (type_of types.old to) (part_of types.old operand)) at
        types.old types.new result }
{
    if is_void(types, to) {
        return Ok(operand);
    }
    cast(types, at, to, operand)
}

/// The places of an operator and of its right operand.
#[derive(Clone, Copy)]
pub struct Places {
    pub at: Pos,
    pub right: Pos,
}

// `=` (6.5.16.1)
fn assigned(types: &mut TypeTable, places: Places, operands: Operands) -> Result<Operand, TypeFault>
    requires { PartsIn types.old operands }
    ensures { (scopes : List Scope) → ScopesIn types.old scopes → AnswersPart (spec.joined places.at places.right
        Infix.Assign (part_of types.old operands.left) (part_of types.old operands.right) (env_of scopes types.old))
        types.old scopes types.new result }
{
    let Operands { left, right } = operands;
    let core = convert_assigned(types, places.right, &left, right)?;
    assign(types, places.at, left, core)
}

/// Two operands and the operator between them (6.5.5 to 6.5.14, 6.5.16, 6.5.17).
pub fn joined(
    types: &mut TypeTable,
    places: Places,
    operator: Infix,
    operands: Operands,
) -> Result<Operand, TypeFault>
    requires { PartsIn types.old operands }
    ensures { (scopes : List Scope) → ScopesIn types.old scopes → AnswersPart (spec.joined places.at places.right
        operator (part_of types.old operands.left) (part_of types.old operands.right) (env_of scopes types.old))
        types.old scopes types.new result }
{
    let at = places.at;
    match operator {
        Infix::Arithmetic(operator) => binary(types, at, operator_of(operator), operands),
        Infix::Comparison(relation) => comparison(types, at, comparison_of(relation), operands),
        Infix::AndAlso => and_also(types, at, operands),
        Infix::OrElse => or_else(types, at, operands),
        Infix::Assign => assigned(types, places, operands),
        Infix::AssignOp(operator) => compound(types, at, operator_of(operator), operands),
        Infix::Comma => sequenced(types, at, operands),
    }
}

// `,` (6.5.17)
fn sequenced(types: &TypeTable, at: Pos, operands: Operands) -> Result<Operand, TypeFault>
    requires { PartsIn types.now operands }
    ensures { (scopes : List Scope) → ScopesIn types.now scopes → AnswersPart (spec.joined at at Infix.Comma
        (part_of types.now operands.left) (part_of types.now operands.right) (env_of scopes types.now))
        types.now scopes types.now result }
{
    let made = comma(types, at, operands.left.core, operands.right)?;
    Ok(made)
}
