//! Assignments and steps (6.5.2.4, 6.5.3.1, 6.5.16).
ghost use Rattle.std.specs.Prelude.{◌≡◌, ◌<◌, IfOk};
ghost use Rattle.c_types.specs.CType.{type_of};
ghost use Rattle.c_types.specs.Structures.{structures_of};
ghost use Rattle.c_types.specs.Types.{count_of};
ghost use Rattle.c_core.specs.Ids.{CoreIn, IdIn};
ghost use Rattle.c_core.specs.View.{core_of};
ghost use Rattle.c_scopes.specs.Clauses.{Makes, Rules};
ghost use Rattle.c_conversions.specs.Parts.{part_of, PartIn};
ghost use Rattle.c_operator_rules.specs.Assignment as rule;

use crate::joint::{Joint, join};
use c_expr_rules::targets::is_complete;
use c_expr_rules::unary::is_designator;
use c_conversions::content::{scalar, size};
use c_conversions::converting::{assigned, converts};
use c_conversions::operand::{Category, Operand};
use c_conversions::value::unqualified;
use c_conversions::versions::{is_array, is_compound, is_scalar};
use c_core::{CoreExpr, TypeFault};
use c_types::{TypeId, TypeTable};
use critical_table::Pos;
use std::alloc::AllocError;

fn is_lvalue(category: Category) -> bool
    ensures { result ≡ rule.is_lvalue category }
{
    match category {
        Category::Lvalue(_) => true,
        Category::Temporary => false,
        Category::Value => false,
        Category::Designator => false,
    }
}

/// A modifiable lvalue (6.3.2.1p1).
pub(crate) fn is_modifiable(types: &TypeTable, operand: &Operand) -> bool
    requires { PartIn types.now operand.now }
    ensures { result ≡ rule.is_modifiable (structures_of types.now) (part_of types.now operand.now) }
{
    let of = operand.core.of;
    is_lvalue(operand.category)
        && !is_array(types, of)
        && is_complete(types, of)
        && !types.has_const(of)
}

/// A value at that place that is returned as that type, or initializes an object of it.
///
/// Constraint 30 breaks exactly where it may not be converted.
pub fn convert(
    types: &mut TypeTable,
    pos: Pos,
    to: TypeId,
    operand: Operand,
) -> Result<CoreExpr, TypeFault>
    requires to { to.0 < count_of types.old }
    requires operand { PartIn types.old operand }
    ensures { Rules core_of CoreIn (rule.convert_rule (type_of types.old to) (part_of types.old operand)) pos
        types.old types.new result }
{
    if !converts(types, to, &operand) {
        return Err(TypeFault::Constraint(30, pos));
    }
    let made = assigned(types, to, operand)?;
    Ok(made)
}

// The target holds values of a scalar, or of a complete structure or union.
fn may_hold(types: &TypeTable, target: &Operand) -> bool
    requires { PartIn types.now target.now }
    ensures { result ≡ rule.may_hold (structures_of types.now) (part_of types.now target.now) }
{
    let of = target.core.of;
    !is_designator(target.category)
        && (is_scalar(types, of) || (is_compound(types, of) && is_complete(types, of)))
}

/// A value at that place that is the right operand of `=`.
///
/// Constraint 30 breaks exactly where the left operand holds values, and this may not be converted to its type.
pub fn convert_assigned(
    types: &mut TypeTable,
    pos: Pos,
    target: &Operand,
    operand: Operand,
) -> Result<CoreExpr, TypeFault>
    requires target { PartIn types.old target.now }
    requires operand { PartIn types.old operand }
    ensures { Rules core_of CoreIn (rule.assigned_rule (structures_of types.old) (part_of types.old target.now)
        (part_of types.old operand)) pos types.old types.new result }
{
    if may_hold(types, target) && !converts(types, target.core.of, &operand) {
        return Err(TypeFault::Constraint(30, pos));
    }
    let made = assigned(types, target.core.of, operand)?;
    Ok(made)
}

// A value of that type by that node.
fn stored(
    types: &TypeTable,
    pos: Pos,
    of: TypeId,
    cores: (CoreExpr, CoreExpr),
) -> Result<Operand, AllocError>
    requires of { IdIn types.now of }
    requires place { CoreIn types.now cores.0 }
    requires core { CoreIn types.now cores.1 }
    ensures { IfOk result (Makes part_of PartIn (rule.stored (structures_of types.now) pos (type_of types.now of)
        (core_of types.now cores.0) (core_of types.now cores.1)) types.now types.now) }
{
    let at = (of, pos);
    let place = cores.0.of;
    match scalar(types, place) {
        Some(scalar) => join(types, at, Joint::Assign(scalar), cores),
        None => {
            let size = size(types.layout(place));
            join(types, at, Joint::AssignWhole(size), cores)
        }
    }
}

// The store, in the unqualified version of the type of the place.
fn assignment(
    types: &mut TypeTable,
    pos: Pos,
    place: CoreExpr,
    core: CoreExpr,
) -> Result<Operand, AllocError>
    requires place { CoreIn types.old place }
    requires core { CoreIn types.old core }
    ensures { IfOk result (Makes part_of PartIn (rule.assignment (structures_of types.old) pos
        (core_of types.old place) (core_of types.old core)) types.old types.new) }
{
    let of = unqualified(types, place.of)?;
    let made = stored(types, pos, of, (place, core))?;
    Ok(made)
}

/// `E = F` of an expression that is not converted, and of a value of its type.
///
/// Constraint 22 breaks exactly where the left operand is no modifiable lvalue.
pub fn assign(
    types: &mut TypeTable,
    pos: Pos,
    target: Operand,
    core: CoreExpr,
) -> Result<Operand, TypeFault>
    requires target { PartIn types.old target }
    requires core { CoreIn types.old core }
    ensures { Rules part_of PartIn (rule.assign_rule (structures_of types.old) pos (part_of types.old target)
        (core_of types.old core)) pos types.old types.new result }
{
    if !is_modifiable(types, &target) {
        return Err(TypeFault::Constraint(22, pos));
    }
    let made = assignment(types, pos, target.core, core)?;
    Ok(made)
}
