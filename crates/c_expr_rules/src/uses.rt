//! Expressions that are used as values, as conditions, or for nothing (6.3.2.1, 6.3.2.2, 6.8.4, 6.8.5).
ghost use Rattle.std.specs.Prelude.{◌≡◌};
ghost use Rattle.c_types.specs.CType.{type_of};
ghost use Rattle.c_types.specs.Structures.{structures_of};
ghost use Rattle.c_core.specs.Ids.{CoreIn};
ghost use Rattle.c_core.specs.View.{core_of};
ghost use Rattle.c_scopes.specs.Clauses.{Rules};
ghost use Rattle.c_conversions.specs.Parts.{part_of, PartIn};
ghost use Rattle.c_expr_rules.specs.Uses as rule;

use crate::targets::is_complete;
use c_conversions::converting::{discarded, promoted_value, truth_value};
use c_conversions::kind::is_integer;
use c_conversions::operand::Operand;
use c_conversions::value::as_value;
use c_conversions::versions::{is_compound, is_scalar, is_void};
use c_core::{CoreExpr, TypeFault};
use c_types::TypeTable;
use critical_table::Pos;

// A structure or union is complete where its value is used.
fn has_value(types: &TypeTable, operand: &Operand) -> bool
    requires { PartIn types.now operand.now }
    ensures { result ≡ rule.has_value (structures_of types.now) (part_of types.now operand.now) }
{
    !is_compound(types, operand.core.of) || is_complete(types, operand.core.of)
}

/// An expression at that place that is converted as a value, and may be void.
///
/// Constraint 7 breaks exactly where it is a structure or union without members.
pub fn used(types: &mut TypeTable, pos: Pos, operand: Operand) -> Result<Operand, TypeFault>
    requires { PartIn types.old operand }
    ensures { Rules part_of PartIn (rule.used_rule (structures_of types.old) (part_of types.old operand)) pos
        types.old types.new result }
{
    if !has_value(types, &operand) {
        return Err(TypeFault::Constraint(7, pos));
    }
    let made = as_value(types, operand)?;
    Ok(made)
}

/// A value at that place.
///
/// Constraint 7 breaks exactly where it is a structure or union without members, and 37 where it is void.
pub fn value(types: &mut TypeTable, pos: Pos, operand: Operand) -> Result<Operand, TypeFault>
    requires { PartIn types.old operand }
    ensures { Rules part_of PartIn (rule.value_rule (structures_of types.old) (part_of types.old operand)) pos
        types.old types.new result }
{
    if !has_value(types, &operand) {
        return Err(TypeFault::Constraint(7, pos));
    }
    if is_void(types, operand.core.of) {
        return Err(TypeFault::Constraint(37, pos));
    }
    let made = as_value(types, operand)?;
    Ok(made)
}

/// The controlling expression of `if`, of a loop or of `?`, at that place, as a number that is 0 or not.
///
/// Constraint 7 breaks where it is a structure or union without members, 37 where it is void, 38 where it is no scalar.
pub fn test(types: &mut TypeTable, pos: Pos, operand: Operand) -> Result<CoreExpr, TypeFault>
    requires { PartIn types.old operand }
    ensures { Rules core_of CoreIn (rule.test_rule (structures_of types.old) (part_of types.old operand)) pos
        types.old types.new result }
{
    let operand = value(types, pos, operand)?;
    if !is_scalar(types, operand.core.of) {
        return Err(TypeFault::Constraint(38, pos));
    }
    let made = truth_value(types, operand.core)?;
    Ok(made)
}

/// The controlling expression of `switch`, at that place, with the integer promotions.
///
/// Constraint 7 breaks where it is a structure or union without members, 37 where it is void, 38 where it is no
/// integer.
pub fn switch(types: &mut TypeTable, pos: Pos, operand: Operand) -> Result<CoreExpr, TypeFault>
    requires { PartIn types.old operand }
    ensures { Rules core_of CoreIn (rule.switch_rule (structures_of types.old) (part_of types.old operand)) pos
        types.old types.new result }
{
    let operand = value(types, pos, operand)?;
    if !is_integer(types, operand.core.of) {
        return Err(TypeFault::Constraint(38, pos));
    }
    let made = promoted_value(types, operand.core)?;
    Ok(made)
}

/// An expression at that place whose value is not used.
///
/// Constraint 7 breaks exactly where it is a structure or union without members.
pub fn discard(types: &mut TypeTable, pos: Pos, operand: Operand) -> Result<CoreExpr, TypeFault>
    requires { PartIn types.old operand }
    ensures { Rules core_of CoreIn (rule.discard_rule (structures_of types.old) (part_of types.old operand)) pos
        types.old types.new result }
{
    if !has_value(types, &operand) {
        return Err(TypeFault::Constraint(7, pos));
    }
    let operand = as_value(types, operand)?;
    let made = discarded(types, operand.core)?;
    Ok(made)
}
