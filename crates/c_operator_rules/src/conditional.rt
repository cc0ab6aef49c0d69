//! The conditional operator and the comma (6.5.15, 6.5.17).
ghost use Rattle.std.specs.Prelude.{◌≡◌, IfOk, true};
ghost use Rattle.c_types.specs.CType.{type_of};
ghost use Rattle.c_types.specs.Composite.{composite_of};
ghost use Rattle.c_core.specs.Ids.{CoreIn, IdIn};
ghost use Rattle.c_core.specs.Tree.{At};
ghost use Rattle.c_core.specs.Tree as tree;
ghost use Rattle.c_core.specs.View.{core_of};
ghost use Rattle.c_scopes.specs.Clauses.{Makes, Rules};
ghost use Rattle.c_conversions.specs.Parts as part;
ghost use Rattle.c_conversions.specs.Parts.{part_of, PartIn};
ghost use Rattle.c_conversions.specs.Versions.{are_versions, own_unqualified};
ghost use Rattle.c_operator_rules.specs.Conditional as rule;

use crate::binary::{are_integers, common_basic};
use crate::comparisons::{are_alike, are_pointer_and_null};
use crate::joint::{Joint, join};
use c_expr_rules::operand::{Operands, value};
use c_expr_rules::targets::target;
use c_conversions::converting::assigned;
use c_conversions::operand::Operand;
use c_conversions::value::{composite, own_unqualified, pointer_to, qualified, unqualified};
use c_conversions::versions::{are_versions, is_compound, is_pointer, is_void, own_quals};
use c_core::{CoreExpr, CoreNode, TypeFault};
use c_types::{Basic, Quals, TypeId, TypeTable};
use critical_table::Pos;
use std::alloc::AllocError;

fn are_same_compound(types: &TypeTable, operands: &Operands) -> bool
    requires left { PartIn types.now operands.now.left }
    requires right { PartIn types.now operands.now.right }
    ensures { result ≡ rule.are_same_compound (part_of types.now operands.now.left)
        (part_of types.now operands.now.right) }
{
    is_compound(types, operands.left.core.of)
        && are_versions(types, operands.left.core.of, operands.right.core.of)
}

fn are_void(types: &TypeTable, operands: &Operands) -> bool
    requires left { PartIn types.now operands.now.left }
    requires right { PartIn types.now operands.now.right }
    ensures { result ≡ rule.are_void (part_of types.now operands.now.left) (part_of types.now operands.now.right) }
{
    is_void(types, operands.left.core.of) && is_void(types, operands.right.core.of)
}

// The result parts have a common type.
fn have_common_type(types: &TypeTable, operands: &Operands) -> bool
    requires left { PartIn types.now operands.now.left }
    requires right { PartIn types.now operands.now.right }
    ensures { result ≡ rule.have_common_type (part_of types.now operands.now.left)
        (part_of types.now operands.now.right) }
{
    are_integers(types, operands)
        || are_same_compound(types, operands)
        || are_void(types, operands)
        || are_pointer_and_null(types, &operands.left, &operands.right)
        || are_pointer_and_null(types, &operands.right, &operands.left)
        || are_alike(types, operands)
}

// The qualifiers of both types.
fn common_quals(types: &TypeTable, left: TypeId, right: TypeId) -> Quals
    requires left { IdIn types.now left }
    requires right { IdIn types.now right }
    ensures { result ≡ rule.common_quals (type_of types.now left) (type_of types.now right) }
{
    let (left, right) = (own_quals(types, left), own_quals(types, right));
    Quals {
        constant: left.constant || right.constant,
        volatile: left.volatile || right.volatile,
        restricted: left.restricted || right.restricted,
    }
}

// The composite of two types, without the qualifiers that they have themselves.
fn composite_target(
    types: &mut TypeTable,
    left: TypeId,
    right: TypeId,
) -> Result<TypeId, AllocError>
    requires left { IdIn types.old left }
    requires right { IdIn types.old right }
    requires versions { are_versions (type_of types.old left) (type_of types.old right) ≡ true }
    ensures { IfOk result (Makes type_of IdIn (composite_of (own_unqualified (type_of types.old left))
        (own_unqualified (type_of types.old right))) types.old types.new) }
{
    let a = own_unqualified(types, left)?;
    let b = own_unqualified(types, right)?;
    let made = composite(types, a, b)?;
    Ok(made)
}

// `void`, or the composite type.
#[tactic(auto, using(c_scopes::proofs::Keeps::keeps_own))]
fn common_base(types: &mut TypeTable, left: TypeId, right: TypeId) -> Result<TypeId, AllocError>
    requires left { IdIn types.old left }
    requires right { IdIn types.old right }
    ensures { IfOk result (Makes type_of IdIn (rule.common_base (type_of types.old left) (type_of types.old right))
        types.old types.new) }
{
    if are_versions(types, left, right) {
        return composite_target(types, left, right);
    }
    Ok(types.basic(Basic::Void))
}

// What two pointers have in common.
fn common_target(types: &mut TypeTable, left: TypeId, right: TypeId) -> Result<TypeId, AllocError>
    requires left { IdIn types.old left }
    requires right { IdIn types.old right }
    ensures { IfOk result (Makes type_of IdIn (rule.common_target (type_of types.old left) (type_of types.old right))
        types.old types.new) }
{
    let quals = common_quals(types, left, right);
    let base = common_base(types, left, right)?;
    let made = qualified(types, base, quals)?;
    Ok(made)
}

// A pointer to what two pointers have in common.
fn pointer_to_common(
    types: &mut TypeTable,
    left: TypeId,
    right: TypeId,
) -> Result<TypeId, AllocError>
    requires left { IdIn types.old left }
    requires right { IdIn types.old right }
    ensures { IfOk result (Makes type_of IdIn (rule.pointer_to_common (type_of types.old left)
        (type_of types.old right)) types.old types.new) }
{
    let to = common_target(types, left, right)?;
    let made = pointer_to(types, to)?;
    Ok(made)
}

// The common type of two parts of which one is a pointer.
fn common_pointer(types: &mut TypeTable, operands: &Operands) -> Result<TypeId, AllocError>
    requires left { PartIn types.old operands.now.left }
    requires right { PartIn types.old operands.now.right }
    ensures { IfOk result (Makes type_of IdIn (rule.common_pointer (part_of types.old operands.now.left)
        (part_of types.old operands.now.right)) types.old types.new) }
{
    let (left, right) = (operands.left.core.of, operands.right.core.of);
    if are_pointer_and_null(types, &operands.left, &operands.right) {
        return unqualified(types, left);
    }
    if are_pointer_and_null(types, &operands.right, &operands.left) {
        return unqualified(types, right);
    }
    let (left, right) = (target(types, left), target(types, right));
    pointer_to_common(types, left, right)
}

// The type of the result.
#[tactic(auto, using(c_scopes::proofs::Keeps::keeps_own))]
fn conditional_type(types: &mut TypeTable, operands: &Operands) -> Result<TypeId, AllocError>
    requires left { PartIn types.old operands.now.left }
    requires right { PartIn types.old operands.now.right }
    ensures { IfOk result (Makes type_of IdIn (rule.conditional_type (part_of types.old operands.now.left)
        (part_of types.old operands.now.right)) types.old types.new) }
{
    let (left, right) = (operands.left.core.of, operands.right.core.of);
    if are_integers(types, operands) {
        return Ok(types.basic(common_basic(types, operands)));
    }
    if is_pointer(types, left) || is_pointer(types, right) {
        return common_pointer(types, operands);
    }
    unqualified(types, left)
}

// A choice between two values of that type.
#[tactic(auto, using(c_scopes::proofs::Keeps::keeps_own))]
fn choice(
    types: &TypeTable,
    at: (TypeId, Pos),
    test: CoreExpr,
    cores: (CoreExpr, CoreExpr),
) -> Result<Operand, AllocError>
    requires of { IdIn types.now at.0 }
    requires test { CoreIn types.now test }
    requires left { CoreIn types.now cores.0 }
    requires right { CoreIn types.now cores.1 }
    ensures { IfOk result (Makes part_of PartIn (part.value (At (type_of types.now at.0) at.1 (tree.Cond
        (core_of types.now test) (core_of types.now cores.0) (core_of types.now cores.1)))) types.now types.now) }
{
    let (of, pos) = at;
    let (left, right) = cores;
    let test = Box::new(types.alloc(), test)?;
    let left = Box::new(types.alloc(), left)?;
    let right = Box::new(types.alloc(), right)?;
    let node = CoreNode::Cond(test, left, right);
    Ok(value(CoreExpr { of, pos, node }))
}

// A choice between a value of that type and one that becomes one.
fn with_right(
    types: &mut TypeTable,
    at: (TypeId, Pos),
    cores: (CoreExpr, CoreExpr),
    right: Operand,
) -> Result<Operand, AllocError>
    requires of { IdIn types.old at.0 }
    requires test { CoreIn types.old cores.0 }
    requires left { CoreIn types.old cores.1 }
    requires right { PartIn types.old right }
    ensures { IfOk result (Makes part_of PartIn (rule.with_right at.1 (type_of types.old at.0)
        (core_of types.old cores.0) (core_of types.old cores.1) (part_of types.old right)) types.old types.new) }
{
    let (test, left) = cores;
    let right = assigned(types, at.0, right)?;
    let made = choice(types, at, test, (left, right))?;
    Ok(made)
}

// Both parts become values of that type.
fn chosen(
    types: &mut TypeTable,
    at: (TypeId, Pos),
    test: CoreExpr,
    operands: Operands,
) -> Result<Operand, AllocError>
    requires of { IdIn types.old at.0 }
    requires test { CoreIn types.old test }
    requires left { PartIn types.old operands.left }
    requires right { PartIn types.old operands.right }
    ensures { IfOk result (Makes part_of PartIn (rule.chosen at.1 (type_of types.old at.0) (core_of types.old test)
        (part_of types.old operands.left) (part_of types.old operands.right)) types.old types.new) }
{
    let left = assigned(types, at.0, operands.left)?;
    let made = with_right(types, at, (test, left), operands.right)?;
    Ok(made)
}

// The conditional, in the common type of its parts.
fn with_common_type(
    types: &mut TypeTable,
    pos: Pos,
    test: CoreExpr,
    operands: Operands,
) -> Result<Operand, AllocError>
    requires test { CoreIn types.old test }
    requires left { PartIn types.old operands.left }
    requires right { PartIn types.old operands.right }
    ensures { IfOk result (Makes part_of PartIn (rule.conditional_part pos (core_of types.old test)
        (part_of types.old operands.left) (part_of types.old operands.right)) types.old types.new) }
{
    let of = conditional_type(types, &operands)?;
    let made = chosen(types, (of, pos), test, operands)?;
    Ok(made)
}

/// `E ? F : G` of a test, and of two expressions that are converted and may be void.
///
/// Constraint 29 breaks exactly where these have no common type.
pub fn conditional(
    types: &mut TypeTable,
    pos: Pos,
    test: CoreExpr,
    operands: Operands,
) -> Result<Operand, TypeFault>
    requires test { CoreIn types.old test }
    requires left { PartIn types.old operands.left }
    requires right { PartIn types.old operands.right }
    ensures { Rules part_of PartIn (rule.conditional_rule pos (core_of types.old test)
        (part_of types.old operands.left) (part_of types.old operands.right)) pos types.old types.new result }
{
    if !have_common_type(types, &operands) {
        return Err(TypeFault::Constraint(29, pos));
    }
    let made = with_common_type(types, pos, test, operands)?;
    Ok(made)
}

/// `E, F` of an expression that leaves nothing, and of one that is converted and may be void.
pub fn comma(
    types: &TypeTable,
    pos: Pos,
    left: CoreExpr,
    right: Operand,
) -> Result<Operand, AllocError>
    requires left { CoreIn types.now left }
    requires right { PartIn types.now right }
    ensures { IfOk result (Makes part_of PartIn (rule.comma_part pos (core_of types.now left)
        (part_of types.now right)) types.now types.now) }
{
    let at = (right.core.of, pos);
    join(types, at, Joint::Comma, (left, right.core))
}
