//! Unary operators on values, `sizeof` and `_Alignof` (6.5.3.3, 6.5.3.4).
ghost use Rattle.std.specs.Prelude.{◌≡◌, ◌<◌};
ghost use Rattle.c_types.specs.CType.{type_of};
ghost use Rattle.c_types.specs.Structures.{structures_of};
ghost use Rattle.c_types.specs.Types.{count_of};
ghost use Rattle.c_scopes.specs.Clauses.{Makes, Rules};
ghost use Rattle.c_conversions.specs.Parts.{part_of, PartIn};
ghost use Rattle.c_expr_rules.specs.Unary as rule;

use crate::operand::value;
use crate::targets::{align, basic, is_complete};
use c_conversions::content::size;
use c_conversions::converting::promoted_value;
use c_conversions::kind::{int_kind, is_integer, promoted};
use c_conversions::operand::{Category, Operand};
use c_conversions::versions::{is_pointer, is_scalar};
use c_core::{CoreExpr, CoreNode, TypeFault};
use c_types::{Basic, TypeId, TypeTable};
use critical_table::Pos;

/// `+E` of a value.
///
/// Constraint 25 breaks, at that place, exactly where it is no integer.
#[tactic(auto, using(c_scopes::proofs::Keeps::keeps_own))]
pub fn plus(types: &TypeTable, pos: Pos, operand: Operand) -> Result<Operand, TypeFault>
    requires { PartIn types.now operand }
    ensures { Rules part_of PartIn (rule.plus_rule (part_of types.now operand)) pos types.now types.now result }
{
    if !is_integer(types, operand.core.of) {
        return Err(TypeFault::Constraint(25, pos));
    }
    let core = promoted_value(types, operand.core)?;
    Ok(value(core))
}

/// `-E` of a value.
///
/// Constraint 25 breaks exactly where it is no integer.
#[tactic(auto, using(c_scopes::proofs::Keeps::keeps_own))]
pub fn minus(types: &TypeTable, pos: Pos, operand: Operand) -> Result<Operand, TypeFault>
    requires { PartIn types.now operand }
    ensures { Rules part_of PartIn (rule.minus_rule pos (part_of types.now operand)) pos types.now types.now result }
{
    if !is_integer(types, operand.core.of) {
        return Err(TypeFault::Constraint(25, pos));
    }
    let basic = promoted(basic(types, operand.core.of));
    let core = promoted_value(types, operand.core)?;
    let node = CoreNode::Negate(int_kind(basic), Box::new(types.alloc(), core)?);
    let of = types.basic(basic);
    Ok(value(CoreExpr { of, pos, node }))
}

/// `~E` of a value.
///
/// Constraint 25 breaks exactly where it is no integer.
#[tactic(auto, using(c_scopes::proofs::Keeps::keeps_own))]
pub fn flip(types: &TypeTable, pos: Pos, operand: Operand) -> Result<Operand, TypeFault>
    requires { PartIn types.now operand }
    ensures { Rules part_of PartIn (rule.flip_rule pos (part_of types.now operand)) pos types.now types.now result }
{
    if !is_integer(types, operand.core.of) {
        return Err(TypeFault::Constraint(25, pos));
    }
    let basic = promoted(basic(types, operand.core.of));
    let core = promoted_value(types, operand.core)?;
    let node = CoreNode::Flip(int_kind(basic), Box::new(types.alloc(), core)?);
    let of = types.basic(basic);
    Ok(value(CoreExpr { of, pos, node }))
}

/// `!E` of a value.
///
/// Constraint 25 breaks exactly where it is no scalar.
#[tactic(auto, using(c_scopes::proofs::Keeps::keeps_own))]
pub fn not(types: &TypeTable, pos: Pos, operand: Operand) -> Result<Operand, TypeFault>
    requires { PartIn types.now operand }
    ensures { Rules part_of PartIn (rule.not_rule pos (part_of types.now operand)) pos types.now types.now result }
{
    if !is_scalar(types, operand.core.of) {
        return Err(TypeFault::Constraint(25, pos));
    }
    let is_pointer = is_pointer(types, operand.core.of);
    let of = types.basic(Basic::Int);
    let core = Box::new(types.alloc(), operand.core)?;
    if is_pointer {
        let node = CoreNode::IsNull(core);
        return Ok(value(CoreExpr { of, pos, node }));
    }
    let node = CoreNode::Not(core);
    Ok(value(CoreExpr { of, pos, node }))
}

// A size or an alignment, as a constant.
#[tactic(auto, using(c_scopes::proofs::Keeps::keeps_own))]
fn size_number(types: &TypeTable, pos: Pos, n: u32) -> Operand
    ensures { Makes part_of PartIn (rule.size_number pos n) types.now types.now result }
{
    let of = types.basic(Basic::ULong);
    let node = CoreNode::Number(int_kind(Basic::ULong), i128::from(n));
    value(CoreExpr { of, pos, node })
}

/// `sizeof(T)`.
///
/// Constraint 36 breaks exactly where the type is incomplete or a function type.
pub fn size_of_type(types: &TypeTable, pos: Pos, of: TypeId) -> Result<Operand, TypeFault>
    requires { of.0 < count_of types.now }
    ensures { Rules part_of PartIn (rule.size_rule (structures_of types.now) pos (type_of types.now of)) pos
        types.now types.now result }
{
    if !is_complete(types, of) {
        return Err(TypeFault::Constraint(36, pos));
    }
    Ok(size_number(types, pos, size(types.layout(of))))
}

/// `_Alignof(T)`.
///
/// Constraint 36 breaks exactly where the type is incomplete or a function type.
pub fn align_of_type(types: &TypeTable, pos: Pos, of: TypeId) -> Result<Operand, TypeFault>
    requires { of.0 < count_of types.now }
    ensures { Rules part_of PartIn (rule.align_rule (structures_of types.now) pos (type_of types.now of)) pos
        types.now types.now result }
{
    if !is_complete(types, of) {
        return Err(TypeFault::Constraint(36, pos));
    }
    Ok(size_number(types, pos, align(types.layout(of))))
}

/// The expression designates a function.
pub fn is_designator(category: Category) -> bool
    ensures { result ≡ rule.is_designator category }
{
    match category {
        Category::Designator => true,
        Category::Lvalue(_) => false,
        Category::Temporary => false,
        Category::Value => false,
    }
}

/// `sizeof E` of an expression that is not converted.
///
/// Constraint 36 breaks exactly where its type is incomplete or a function type.
pub fn size_of(types: &TypeTable, pos: Pos, operand: Operand) -> Result<Operand, TypeFault>
    requires { PartIn types.now operand }
    ensures { Rules part_of PartIn (rule.size_of_rule (structures_of types.now) pos (part_of types.now operand)) pos
        types.now types.now result }
{
    if is_designator(operand.category) || !is_complete(types, operand.core.of) {
        return Err(TypeFault::Constraint(36, pos));
    }
    Ok(size_number(types, pos, size(types.layout(operand.core.of))))
}
