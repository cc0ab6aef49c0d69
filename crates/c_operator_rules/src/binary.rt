//! Operators on two values that give a number or a pointer; `&&` and `||` (6.5.5 to 6.5.7, 6.5.10 to 6.5.14).
ghost use Rattle.std.specs.Prelude.{◌≡◌, IfOk};
ghost use Rattle.c_types.specs.CType.{type_of};
ghost use Rattle.c_types.specs.Structures.{structures_of};
ghost use Rattle.c_core.specs.Ids.{CoreIn, IdIn};
ghost use Rattle.c_core.specs.Operations.{is_shift};
ghost use Rattle.c_core.specs.View.{core_of};
ghost use Rattle.c_scopes.specs.Clauses.{Makes, Rules};
ghost use Rattle.c_conversions.specs.Parts.{part_of, PartIn};
ghost use Rattle.c_operator_rules.specs.Binary as rule;

use crate::joint::{Joint, join};
use c_expr_rules::operand::{Operands, value};
use c_expr_rules::pointers::{Movement, moved};
use c_expr_rules::targets::{basic, may_move, target};
use c_conversions::content::size;
use c_conversions::converting::{number_as, promoted_value, truth_value};
use c_conversions::kind::{common, int_kind, is_integer, promoted};
use c_conversions::operand::Operand;
use c_conversions::versions::{are_versions, is_pointer, is_scalar};
use c_core::{Operator, TypeFault};
use c_types::{Basic, TypeId, TypeTable};
use critical_table::Pos;
use std::alloc::AllocError;

/// Both operands are integers.
pub(crate) fn are_integers(types: &TypeTable, operands: &Operands) -> bool
    requires left { PartIn types.now operands.now.left }
    requires right { PartIn types.now operands.now.right }
    ensures { result ≡ rule.are_integers (part_of types.now operands.now.left)
        (part_of types.now operands.now.right) }
{
    is_integer(types, operands.left.core.of) && is_integer(types, operands.right.core.of)
}

/// The first operand is a pointer, the second an integer.
pub(crate) fn are_pointer_and_integer(types: &TypeTable, left: &Operand, right: &Operand) -> bool
    requires left { PartIn types.now left.now }
    requires right { PartIn types.now right.now }
    ensures { result ≡ rule.are_pointer_and_integer (part_of types.now left.now) (part_of types.now right.now) }
{
    is_pointer(types, left.core.of) && is_integer(types, right.core.of)
}

/// Both operands are pointers to versions of compatible types.
pub(crate) fn point_to_versions(types: &TypeTable, operands: &Operands) -> bool
    requires left { PartIn types.now operands.now.left }
    requires right { PartIn types.now operands.now.right }
    ensures { result ≡ rule.point_to_versions (part_of types.now operands.now.left)
        (part_of types.now operands.now.right) }
{
    let (left, right) = (operands.left.core.of, operands.right.core.of);
    is_pointer(types, left)
        && is_pointer(types, right)
        && are_versions(types, target(types, left), target(types, right))
}

// Both are promoted; the result of a shift has the type of its left operand.
#[tactic(auto, using(c_scopes::proofs::Keeps::keeps_own))]
fn shifted(
    types: &TypeTable,
    pos: Pos,
    operator: Operator,
    operands: Operands,
) -> Result<Operand, AllocError>
    requires left { PartIn types.now operands.left }
    requires right { PartIn types.now operands.right }
    ensures { IfOk result (Makes part_of PartIn (rule.shifted pos operator (part_of types.now operands.left)
        (part_of types.now operands.right)) types.now types.now) }
{
    let basic = promoted(basic(types, operands.left.core.of));
    let left = promoted_value(types, operands.left.core)?;
    let right = promoted_value(types, operands.right.core)?;
    let joint = Joint::Arithmetic(operator, int_kind(basic));
    let made = join(types, (types.basic(basic), pos), joint, (left, right))?;
    Ok(made)
}

/// The common type of two integers.
pub(crate) fn common_basic(types: &TypeTable, operands: &Operands) -> Basic
    requires left { PartIn types.now operands.now.left }
    requires right { PartIn types.now operands.now.right }
    ensures { result ≡ rule.common_basic (part_of types.now operands.now.left) (part_of types.now operands.now.right) }
{
    let (left, right) = (operands.left.core.of, operands.right.core.of);
    common(basic(types, left), basic(types, right))
}

/// Two integers, each in their common type, that are joined, as a value of that type at that place.
pub(crate) fn join_numbers(
    types: &TypeTable,
    at: (TypeId, Pos),
    joint: Joint,
    operands: Operands,
) -> Result<Operand, AllocError>
    requires of { IdIn types.now at.0 }
    requires left { PartIn types.now operands.left }
    requires right { PartIn types.now operands.right }
    ensures { IfOk result (Makes part_of PartIn (rule.joined_numbers at.1 (type_of types.now at.0) joint
        (part_of types.now operands.left) (part_of types.now operands.right)) types.now types.now) }
{
    let basic = common_basic(types, &operands);
    let left = number_as(types, basic, operands.left.core)?;
    let right = number_as(types, basic, operands.right.core)?;
    let made = join(types, at, joint, (left, right))?;
    Ok(made)
}

// The usual arithmetic conversions.
fn with_common(
    types: &TypeTable,
    pos: Pos,
    operator: Operator,
    operands: Operands,
) -> Result<Operand, AllocError>
    requires left { PartIn types.now operands.left }
    requires right { PartIn types.now operands.right }
    ensures { IfOk result (Makes part_of PartIn (rule.with_common pos operator (part_of types.now operands.left)
        (part_of types.now operands.right)) types.now types.now) }
{
    let basic = common_basic(types, &operands);
    let joint = Joint::Arithmetic(operator, int_kind(basic));
    join_numbers(types, (types.basic(basic), pos), joint, operands)
}

/// The operator is a shift.
pub(crate) fn is_shift(operator: Operator) -> bool
    ensures { result ≡ is_shift operator }
{
    matches!(operator, Operator::ShiftLeft | Operator::ShiftRight)
}

fn arithmetic(
    types: &TypeTable,
    pos: Pos,
    operator: Operator,
    operands: Operands,
) -> Result<Operand, TypeFault>
    requires left { PartIn types.now operands.left }
    requires right { PartIn types.now operands.right }
    ensures { Rules part_of PartIn (rule.arithmetic_rule pos operator (part_of types.now operands.left)
        (part_of types.now operands.right)) pos types.now types.now result }
{
    if !are_integers(types, &operands) {
        return Err(TypeFault::Constraint(26, pos));
    }
    if is_shift(operator) {
        let made = shifted(types, pos, operator, operands)?;
        return Ok(made);
    }
    let made = with_common(types, pos, operator, operands)?;
    Ok(made)
}

fn may_add(types: &TypeTable, operands: &Operands) -> bool
    requires left { PartIn types.now operands.now.left }
    requires right { PartIn types.now operands.now.right }
    ensures { result ≡ rule.may_add (part_of types.now operands.now.left) (part_of types.now operands.now.right) }
{
    are_integers(types, operands)
        || are_pointer_and_integer(types, &operands.left, &operands.right)
        || are_pointer_and_integer(types, &operands.right, &operands.left)
}

fn both_move(types: &TypeTable, operands: &Operands) -> bool
    requires left { PartIn types.now operands.now.left }
    requires right { PartIn types.now operands.now.right }
    ensures { result ≡ rule.both_move (structures_of types.now) (part_of types.now operands.now.left)
        (part_of types.now operands.now.right) }
{
    may_move(types, operands.left.core.of) && may_move(types, operands.right.core.of)
}

// A pointer that has moved, as a value.
fn moved_value(types: &TypeTable, pos: Pos, movement: Movement) -> Result<Operand, AllocError>
    requires pointer { CoreIn types.now movement.pointer }
    requires number { CoreIn types.now movement.number }
    ensures { IfOk result (Makes part_of PartIn (rule.moved_value (structures_of types.now) pos movement.back
        movement.number_first (core_of types.now movement.pointer) (core_of types.now movement.number))
        types.now types.now) }
{
    let core = moved(types, pos, movement)?;
    Ok(value(core))
}

fn sum(types: &TypeTable, pos: Pos, operands: Operands) -> Result<Operand, AllocError>
    requires left { PartIn types.now operands.left }
    requires right { PartIn types.now operands.right }
    ensures { IfOk result (Makes part_of PartIn (rule.add_part (structures_of types.now) pos
        (part_of types.now operands.left) (part_of types.now operands.right)) types.now types.now) }
{
    if is_pointer(types, operands.left.core.of) {
        return moved_value(
            types,
            pos,
            Movement {
                pointer: operands.left.core,
                number: operands.right.core,
                back: false,
                number_first: false,
            },
        );
    }
    if is_pointer(types, operands.right.core.of) {
        return moved_value(
            types,
            pos,
            Movement {
                pointer: operands.right.core,
                number: operands.left.core,
                back: false,
                number_first: true,
            },
        );
    }
    with_common(types, pos, Operator::Add, operands)
}

fn add(types: &TypeTable, pos: Pos, operands: Operands) -> Result<Operand, TypeFault>
    requires left { PartIn types.now operands.left }
    requires right { PartIn types.now operands.right }
    ensures { Rules part_of PartIn (rule.add_rule (structures_of types.now) pos (part_of types.now operands.left)
        (part_of types.now operands.right)) pos types.now types.now result }
{
    if !may_add(types, &operands) {
        return Err(TypeFault::Constraint(26, pos));
    }
    if !both_move(types, &operands) {
        return Err(TypeFault::Constraint(27, pos));
    }
    let made = sum(types, pos, operands)?;
    Ok(made)
}

fn may_subtract(types: &TypeTable, operands: &Operands) -> bool
    requires left { PartIn types.now operands.now.left }
    requires right { PartIn types.now operands.now.right }
    ensures { result ≡ rule.may_subtract (part_of types.now operands.now.left)
        (part_of types.now operands.now.right) }
{
    are_integers(types, operands)
        || are_pointer_and_integer(types, &operands.left, &operands.right)
        || point_to_versions(types, operands)
}

// The elements between two pointers, as a `long`.
#[tactic(auto, using(c_scopes::proofs::Keeps::keeps_own))]
fn pointer_difference(
    types: &TypeTable,
    pos: Pos,
    operands: Operands,
) -> Result<Operand, AllocError>
    requires left { PartIn types.now operands.left }
    requires right { PartIn types.now operands.right }
    ensures { IfOk result (Makes part_of PartIn (rule.pointer_difference (structures_of types.now) pos
        (part_of types.now operands.left) (part_of types.now operands.right)) types.now types.now) }
{
    let size = size(types.layout(target(types, operands.left.core.of)));
    let cores = (operands.left.core, operands.right.core);
    let at = (types.basic(Basic::Long), pos);
    join(types, at, Joint::Difference(size), cores)
}

fn difference(types: &TypeTable, pos: Pos, operands: Operands) -> Result<Operand, AllocError>
    requires left { PartIn types.now operands.left }
    requires right { PartIn types.now operands.right }
    ensures { IfOk result (Makes part_of PartIn (rule.subtract_part (structures_of types.now) pos
        (part_of types.now operands.left) (part_of types.now operands.right)) types.now types.now) }
{
    if is_pointer(types, operands.right.core.of) {
        return pointer_difference(types, pos, operands);
    }
    if is_pointer(types, operands.left.core.of) {
        return moved_value(
            types,
            pos,
            Movement {
                pointer: operands.left.core,
                number: operands.right.core,
                back: true,
                number_first: false,
            },
        );
    }
    with_common(types, pos, Operator::Subtract, operands)
}

fn subtract(types: &TypeTable, pos: Pos, operands: Operands) -> Result<Operand, TypeFault>
    requires left { PartIn types.now operands.left }
    requires right { PartIn types.now operands.right }
    ensures { Rules part_of PartIn (rule.subtract_rule (structures_of types.now) pos
        (part_of types.now operands.left) (part_of types.now operands.right)) pos types.now types.now result }
{
    if !may_subtract(types, &operands) {
        return Err(TypeFault::Constraint(26, pos));
    }
    if !both_move(types, &operands) {
        return Err(TypeFault::Constraint(27, pos));
    }
    let made = difference(types, pos, operands)?;
    Ok(made)
}

/// `E op F` of two values, for the operators that have a compound assignment.
///
/// Constraint 26 breaks where the types are wrong for the operator, else 27 where a pointer would move over an
/// incomplete or function type.
pub fn binary(
    types: &TypeTable,
    pos: Pos,
    operator: Operator,
    operands: Operands,
) -> Result<Operand, TypeFault>
    requires left { PartIn types.now operands.left }
    requires right { PartIn types.now operands.right }
    ensures { Rules part_of PartIn (rule.binary_rule (structures_of types.now) pos operator
        (part_of types.now operands.left) (part_of types.now operands.right)) pos types.now types.now result }
{
    match operator {
        Operator::Add => add(types, pos, operands),
        Operator::Subtract => subtract(types, pos, operands),
        _ => arithmetic(types, pos, operator, operands),
    }
}

fn are_scalars(types: &TypeTable, operands: &Operands) -> bool
    requires left { PartIn types.now operands.now.left }
    requires right { PartIn types.now operands.now.right }
    ensures { result ≡ rule.are_scalars (part_of types.now operands.now.left) (part_of types.now operands.now.right) }
{
    is_scalar(types, operands.left.core.of) && is_scalar(types, operands.right.core.of)
}

// The truth values of two scalars, joined.
fn join_truths(
    types: &TypeTable,
    pos: Pos,
    joint: Joint,
    operands: Operands,
) -> Result<Operand, AllocError>
    requires left { PartIn types.now operands.left }
    requires right { PartIn types.now operands.right }
    ensures { IfOk result (Makes part_of PartIn (rule.joined_truths pos joint (part_of types.now operands.left)
        (part_of types.now operands.right)) types.now types.now) }
{
    let left = truth_value(types, operands.left.core)?;
    let right = truth_value(types, operands.right.core)?;
    let made = join(types, (types.basic(Basic::Int), pos), joint, (left, right))?;
    Ok(made)
}

/// `E && F` of two values.
///
/// Constraint 26 breaks exactly where one is no scalar.
pub fn and_also(types: &TypeTable, pos: Pos, operands: Operands) -> Result<Operand, TypeFault>
    requires left { PartIn types.now operands.left }
    requires right { PartIn types.now operands.right }
    ensures { Rules part_of PartIn (rule.and_rule pos (part_of types.now operands.left)
        (part_of types.now operands.right)) pos types.now types.now result }
{
    if !are_scalars(types, &operands) {
        return Err(TypeFault::Constraint(26, pos));
    }
    let made = join_truths(types, pos, Joint::AndAlso, operands)?;
    Ok(made)
}

/// `E || F` of two values.
///
/// Constraint 26 breaks exactly where one is no scalar.
pub fn or_else(types: &TypeTable, pos: Pos, operands: Operands) -> Result<Operand, TypeFault>
    requires left { PartIn types.now operands.left }
    requires right { PartIn types.now operands.right }
    ensures { Rules part_of PartIn (rule.or_rule pos (part_of types.now operands.left)
        (part_of types.now operands.right)) pos types.now types.now result }
{
    if !are_scalars(types, &operands) {
        return Err(TypeFault::Constraint(26, pos));
    }
    let made = join_truths(types, pos, Joint::OrElse, operands)?;
    Ok(made)
}
