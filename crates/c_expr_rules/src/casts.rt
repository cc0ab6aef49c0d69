//! Casts to scalar types (6.5.4).
ghost use Rattle.std.specs.Prelude.{◌≡◌, IfOk, IfSome, option_map};
ghost use Rattle.c_types.specs.CType.{type_of};
ghost use Rattle.c_core.specs.Ids.{CoreIn, IdIn};
ghost use Rattle.c_core.specs.Tree.{At};
ghost use Rattle.c_core.specs.Tree as tree;
ghost use Rattle.c_core.specs.View.{core_of};
ghost use Rattle.c_scopes.specs.Clauses.{Makes, Rules};
ghost use Rattle.c_conversions.specs.Kinds.{int_kind};
ghost use Rattle.c_conversions.specs.Parts as part;
ghost use Rattle.c_conversions.specs.Parts.{part_of, PartIn};
ghost use Rattle.c_expr_rules.specs.Casts as rule;

use crate::operand::value;
use crate::targets::basic;
use c_conversions::converting::{
    is_integer_or_truth, is_null, is_zero_constant, pointer_at, truth_value,
};
use c_conversions::kind::int_kind;
use c_conversions::operand::{Category, Operand};
use c_conversions::value::unqualified;
use c_conversions::versions::{is_function, is_plain_void_pointer, is_pointer, pointee};
use c_core::{CoreExpr, CoreNode, TypeFault};
use c_types::{Basic, Shape, TypeId, TypeTable};
use critical_table::Pos;
use std::alloc::AllocError;

// Both are functions, or neither is.
fn are_of_one_sort(types: &TypeTable, to: TypeId, from: Option<TypeId>) -> bool
    requires to { IdIn types.now to }
    requires from { IfSome from (IdIn types.now) }
    ensures { result ≡ rule.are_of_one_sort (type_of types.now to) (option_map (type_of types.now) from) }
{
    match from {
        None => false,
        Some(from) => is_function(types, to) == is_function(types, from),
    }
}

fn may_cast(types: &TypeTable, to: TypeId, operand: &Operand) -> bool
    requires to { IdIn types.now to }
    requires operand { PartIn types.now operand.now }
    ensures { result ≡ rule.may_cast (type_of types.now to) (part_of types.now operand.now) }
{
    match types.shape(to) {
        Shape::Pointer(target) => {
            is_null(types, operand)
                || are_of_one_sort(types, target, pointee(types, operand.core.of))
        }
        _ => is_integer_or_truth(types, to, operand.core.of),
    }
}

// A pointer in the unqualified version of that type.
fn pointer_core(
    types: &mut TypeTable,
    pos: Pos,
    to: TypeId,
    operand: Operand,
) -> Result<CoreExpr, AllocError>
    requires to { IdIn types.old to }
    requires operand { PartIn types.old operand }
    ensures { IfOk result (Makes core_of CoreIn (rule.pointer_core pos (type_of types.old to)
        (part_of types.old operand)) types.old types.new) }
{
    let of = unqualified(types, to)?;
    let made = pointer_at(types, of, pos, operand)?;
    Ok(made)
}

fn cast_pointer(
    types: &mut TypeTable,
    pos: Pos,
    to: TypeId,
    operand: Operand,
) -> Result<Operand, AllocError>
    requires to { IdIn types.old to }
    requires operand { PartIn types.old operand }
    ensures { IfOk result (Makes part_of PartIn (rule.cast_pointer pos (type_of types.old to)
        (part_of types.old operand)) types.old types.new) }
{
    let null = is_plain_void_pointer(types, to) && is_zero_constant(types, &operand.core);
    let core = pointer_core(types, pos, to, operand)?;
    Ok(Operand {
        category: Category::Value,
        null,
        core,
    })
}

// A number in that type, whose kind is that of the basic type.
#[tactic(auto, using(c_scopes::proofs::Keeps::keeps_own))]
fn number_at(
    types: &TypeTable,
    at: (TypeId, Pos),
    basic: Basic,
    core: CoreExpr,
) -> Result<Operand, AllocError>
    requires of { IdIn types.now at.0 }
    requires core { CoreIn types.now core }
    ensures { IfOk result (Makes part_of PartIn (part.value (At (type_of types.now at.0) at.1
        (tree.Convert (int_kind basic) (core_of types.now core)))) types.now types.now) }
{
    let (of, pos) = at;
    let node = CoreNode::Convert(int_kind(basic), Box::new(types.alloc(), core)?);
    Ok(value(CoreExpr { of, pos, node }))
}

// A number in the unqualified version of that type.
fn converted_number(
    types: &mut TypeTable,
    pos: Pos,
    to: TypeId,
    core: CoreExpr,
) -> Result<Operand, AllocError>
    requires to { IdIn types.old to }
    requires core { CoreIn types.old core }
    ensures { IfOk result (Makes part_of PartIn (rule.converted_number pos (type_of types.old to)
        (core_of types.old core)) types.old types.new) }
{
    let basic = basic(types, to);
    let of = unqualified(types, to)?;
    let made = number_at(types, (of, pos), basic, core)?;
    Ok(made)
}

/// `(T)E` of a value, where the type is not `void`.
///
/// Constraint 31 breaks exactly where the cast is none of the profile.
pub fn cast(
    types: &mut TypeTable,
    pos: Pos,
    to: TypeId,
    operand: Operand,
) -> Result<Operand, TypeFault>
    requires to { IdIn types.old to }
    requires operand { PartIn types.old operand }
    ensures { Rules part_of PartIn (rule.cast_rule pos (type_of types.old to) (part_of types.old operand)) pos
        types.old types.new result }
{
    if !may_cast(types, to, &operand) {
        return Err(TypeFault::Constraint(31, pos));
    }
    if is_pointer(types, to) {
        let made = cast_pointer(types, pos, to, operand)?;
        return Ok(made);
    }
    let core = truth_value(types, operand.core)?;
    let made = converted_number(types, pos, to, core)?;
    Ok(made)
}
