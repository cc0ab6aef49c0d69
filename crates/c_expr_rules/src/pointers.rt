//! `&`, `*` and `[ ]` (6.5.2.1, 6.5.3.2).
ghost use Rattle.std.specs.Prelude.{◌≡◌, IfOk};
ghost use Rattle.c_types.specs.CType.{type_of};
ghost use Rattle.c_types.specs.Structures.{structures_of};
ghost use Rattle.c_types.specs.Types.{Types};
ghost use Rattle.c_core.specs.Ids.{CoreIn, IdIn};
ghost use Rattle.c_core.specs.Tree.{At};
ghost use Rattle.c_core.specs.Tree as tree;
ghost use Rattle.c_core.specs.View.{core_of, node_of};
ghost use Rattle.c_scopes.specs.Clauses.{Makes, Rules};
ghost use Rattle.c_conversions.specs.Parts.{part_of, PartIn};
ghost use Rattle.c_expr_rules.specs.Pointers as rule;

use crate::operand::{Operands, lvalue, value};
use crate::targets::{align, is_complete, stride, target};
use crate::unary::is_designator;
use c_conversions::content::size;
use c_conversions::kind::is_integer;
use c_conversions::operand::{Category, Operand};
use c_conversions::value::pointer_to;
use c_conversions::versions::{is_function, is_pointer};
use c_core::{By, CoreExpr, CoreNode, TypeFault};
use c_types::{TypeId, TypeTable};
use critical_table::Pos;
use std::alloc::AllocError;

/// What a pointer designates, once its target's size and alignment are reached.
#[tactic(auto, using(c_scopes::proofs::Keeps::keeps_own))]
pub(crate) fn reached(
    types: &TypeTable,
    pos: Pos,
    how: By,
    pointer: CoreExpr,
) -> Result<CoreExpr, AllocError>
    requires { CoreIn types.now pointer }
    ensures { IfOk result (Makes core_of CoreIn (rule.reached (structures_of types.now) how pos
        (core_of types.now pointer)) types.now types.now) }
{
    let of = target(types, pointer.of);
    let layout = types.layout(of);
    let pointer = Box::new(types.alloc(), pointer)?;
    let node = CoreNode::Reach(how, size(layout), align(layout), pointer);
    Ok(CoreExpr { of, pos, node })
}

fn has_address(category: Category) -> bool
    ensures { result ≡ rule.has_address category }
{
    match category {
        Category::Lvalue(register) => !register,
        Category::Designator => true,
        Category::Temporary => false,
        Category::Value => false,
    }
}

// A place that `*` or `[ ]` made.
fn is_reached(node: &CoreNode) -> bool
    ensures { (types : Types) → result ≡ rule.is_reached (node_of types node.now) }
{
    match node {
        CoreNode::Reach(By::Star, _, _, _) => true,
        _ => false,
    }
}

// The pointer below such a place; another expression stays as it is.
fn pointer_below(core: CoreExpr) -> CoreExpr
    ensures is { (types : Types) → core_of types result
        ≡ rule.pointer_below (node_of types core.node) (core_of types core) }
    ensures is_in { (types : Types) → CoreIn types core → CoreIn types result }
{
    let CoreExpr { of, pos, node } = core;
    match node {
        CoreNode::Reach(By::Star, _, _, pointer) => Box::into_inner(pointer),
        node => CoreExpr { of, pos, node },
    }
}

// A pointer to a place, as that type.
#[tactic(auto, using(c_scopes::proofs::Keeps::keeps_own))]
fn address_at(
    types: &TypeTable,
    of: TypeId,
    pos: Pos,
    core: CoreExpr,
) -> Result<CoreExpr, AllocError>
    requires of { IdIn types.now of }
    requires core { CoreIn types.now core }
    ensures { IfOk result (Makes core_of CoreIn (At (type_of types.now of) pos
        (tree.AddressOf (core_of types.now core))) types.now types.now) }
{
    let node = CoreNode::AddressOf(Box::new(types.alloc(), core)?);
    Ok(CoreExpr { of, pos, node })
}

// A pointer to a place.
fn place_address(types: &mut TypeTable, pos: Pos, core: CoreExpr) -> Result<CoreExpr, AllocError>
    requires { CoreIn types.old core }
    ensures { IfOk result (Makes core_of CoreIn (rule.place_address pos (core_of types.old core))
        types.old types.new) }
{
    let of = pointer_to(types, core.of)?;
    let made = address_at(types, of, pos, core)?;
    Ok(made)
}

// Of `&*E` only `E` is evaluated, and of `&E[F]` only the addition.
#[tactic(auto, using(c_scopes::proofs::Keeps::keeps_own))]
fn address_core(types: &mut TypeTable, pos: Pos, core: CoreExpr) -> Result<CoreExpr, AllocError>
    requires { CoreIn types.old core }
    ensures { IfOk result (Makes core_of CoreIn (rule.address_core pos (core_of types.old core))
        types.old types.new) }
{
    if is_reached(&core.node) {
        return Ok(pointer_below(core));
    }
    let made = place_address(types, pos, core)?;
    Ok(made)
}

/// `&E` of an expression that is not converted.
///
/// Constraint 23 breaks exactly where it is no lvalue and no function, or an object declared with `register`.
#[tactic(auto, using(c_scopes::proofs::Keeps::keeps_own))]
pub fn address(types: &mut TypeTable, pos: Pos, operand: Operand) -> Result<Operand, TypeFault>
    requires { PartIn types.old operand }
    ensures { Rules part_of PartIn (rule.address_rule pos (part_of types.old operand)) pos types.old types.new result }
{
    if !has_address(operand.category) {
        return Err(TypeFault::Constraint(23, pos));
    }
    if is_designator(operand.category) {
        return Ok(value(operand.core));
    }
    let core = address_core(types, pos, operand.core)?;
    Ok(value(core))
}

// The operand is a pointer to a function or to a complete object type.
fn may_deref(types: &TypeTable, operand: &Operand) -> bool
    requires { PartIn types.now operand.now }
    ensures { result ≡ rule.may_deref (structures_of types.now) (part_of types.now operand.now) }
{
    let target = target(types, operand.core.of);
    is_pointer(types, operand.core.of) && (is_function(types, target) || is_complete(types, target))
}

/// `*E` of a value.
///
/// Constraint 24 breaks exactly where it is no pointer to a complete object type or function.
#[tactic(auto, using(c_scopes::proofs::Keeps::keeps_own))]
pub fn deref(types: &TypeTable, pos: Pos, operand: Operand) -> Result<Operand, TypeFault>
    requires { PartIn types.now operand }
    ensures { Rules part_of PartIn (rule.deref_rule (structures_of types.now) pos (part_of types.now operand)) pos
        types.now types.now result }
{
    if !may_deref(types, &operand) {
        return Err(TypeFault::Constraint(24, pos));
    }
    if is_function(types, target(types, operand.core.of)) {
        return Ok(Operand {
            category: Category::Designator,
            null: false,
            core: operand.core,
        });
    }
    let core = reached(types, pos, By::Star, operand.core)?;
    Ok(lvalue(core))
}

fn may_index(types: &TypeTable, pointer: TypeId, number: TypeId) -> bool
    requires pointer { IdIn types.now pointer }
    requires number { IdIn types.now number }
    ensures { result ≡ rule.may_index (structures_of types.now) (type_of types.now pointer) (type_of types.now number) }
{
    is_pointer(types, pointer)
        && is_complete(types, target(types, pointer))
        && is_integer(types, number)
}

/// A pointer, and the number by which it moves.
#[derive(Drop)]
pub struct Movement {
    pub pointer: CoreExpr,
    pub number: CoreExpr,
    /// The number is taken off.
    pub back: bool,
    pub number_first: bool,
}

/// A pointer that has moved by a number of elements.
#[tactic(auto, using(c_scopes::proofs::Keeps::keeps_own))]
pub fn moved(types: &TypeTable, pos: Pos, movement: Movement) -> Result<CoreExpr, AllocError>
    requires pointer { CoreIn types.now movement.pointer }
    requires number { CoreIn types.now movement.number }
    ensures { IfOk result (Makes core_of CoreIn (rule.moved (structures_of types.now) pos movement.back
        movement.number_first (core_of types.now movement.pointer) (core_of types.now movement.number))
        types.now types.now) }
{
    let of = movement.pointer.of;
    let stride = stride(types, of, movement.back);
    let pointer = Box::new(types.alloc(), movement.pointer)?;
    let number = Box::new(types.alloc(), movement.number)?;
    let node = CoreNode::Step(stride, movement.number_first, pointer, number);
    Ok(CoreExpr { of, pos, node })
}

// The element that a moved pointer designates.
fn element(types: &TypeTable, pos: Pos, movement: Movement) -> Result<Operand, AllocError>
    requires pointer { CoreIn types.now movement.pointer }
    requires number { CoreIn types.now movement.number }
    ensures { IfOk result (Makes part_of PartIn (rule.element (structures_of types.now) pos movement.back
        movement.number_first (core_of types.now movement.pointer) (core_of types.now movement.number))
        types.now types.now) }
{
    let pointer = moved(types, pos, movement)?;
    let core = reached(types, pos, By::Star, pointer)?;
    Ok(lvalue(core))
}

/// `E[F]` of two values.
///
/// Constraint 35 breaks exactly where they are not one pointer to a complete type and one integer.
pub fn index(types: &TypeTable, pos: Pos, operands: Operands) -> Result<Operand, TypeFault>
    requires left { PartIn types.now operands.left }
    requires right { PartIn types.now operands.right }
    ensures { Rules part_of PartIn (rule.index_rule (structures_of types.now) pos
        (part_of types.now operands.left) (part_of types.now operands.right)) pos types.now types.now result }
{
    let (left, right) = (operands.left.core, operands.right.core);
    if !may_index(types, left.of, right.of) && !may_index(types, right.of, left.of) {
        return Err(TypeFault::Constraint(35, pos));
    }
    if is_pointer(types, left.of) {
        let made = element(
            types,
            pos,
            Movement {
                pointer: left,
                number: right,
                back: false,
                number_first: false,
            },
        )?;
        return Ok(made);
    }
    let made = element(
        types,
        pos,
        Movement {
            pointer: right,
            number: left,
            back: false,
            number_first: true,
        },
    )?;
    Ok(made)
}
