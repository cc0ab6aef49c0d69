//! Compound assignments, and `++` and `--` (6.5.2.4, 6.5.3.1, 6.5.16.2).
ghost use Rattle.std.specs.Prelude.{◌≡◌, IfOk};
ghost use Rattle.c_types.specs.CType.{type_of};
ghost use Rattle.c_types.specs.Structures.{structures_of};
ghost use Rattle.c_core.specs.Ids.{CoreIn, IdIn};
ghost use Rattle.c_core.specs.Tree.{At};
ghost use Rattle.c_core.specs.Tree as tree;
ghost use Rattle.c_core.specs.View.{core_of};
ghost use Rattle.c_scopes.specs.Clauses.{Makes, Rules};
ghost use Rattle.c_conversions.specs.Parts as part;
ghost use Rattle.c_conversions.specs.Parts.{part_of, PartIn};
ghost use Rattle.c_operator_rules.specs.Assignment as rule;

use crate::assignment::is_modifiable;
use crate::binary::{are_integers, are_pointer_and_integer, is_shift};
use crate::joint::{Joint, join};
use c_expr_rules::operand::{Operands, value};
use c_expr_rules::targets::{basic, may_move, stride};
use c_conversions::converting::{number_as, promoted_value};
use c_conversions::kind::{common, int_kind, promoted};
use c_conversions::operand::Operand;
use c_conversions::value::unqualified;
use c_conversions::versions::{is_pointer, is_scalar};
use c_core::{Change, CoreExpr, CoreNode, Operator, TypeFault};
use c_types::{Basic, TypeId, TypeTable};
use critical_table::Pos;
use std::alloc::AllocError;

fn moves_pointer(operator: Operator) -> bool
    ensures { result ≡ rule.moves_pointer operator }
{
    match operator {
        Operator::Add | Operator::Subtract => true,
        _ => false,
    }
}

fn takes_off(operator: Operator) -> bool
    ensures { result ≡ rule.takes_off operator }
{
    match operator {
        Operator::Subtract => true,
        _ => false,
    }
}

// The types are right for the operator.
fn may_change(types: &TypeTable, operator: Operator, operands: &Operands) -> bool
    requires left { PartIn types.now operands.now.left }
    requires right { PartIn types.now operands.now.right }
    ensures { result ≡ rule.may_change operator (part_of types.now operands.now.left)
        (part_of types.now operands.now.right) }
{
    are_integers(types, operands)
        || (moves_pointer(operator)
            && are_pointer_and_integer(types, &operands.left, &operands.right))
}

// The type in which the operator works.
fn working_type(operator: Operator, left: Basic, right: Basic) -> Basic
    ensures { result ≡ rule.working_type operator left right }
{
    if is_shift(operator) {
        return promoted(left);
    }
    common(left, right)
}

// The right operand in that type; the count of a shift keeps its own.
fn operand_in(
    types: &TypeTable,
    operator: Operator,
    basic: Basic,
    core: CoreExpr,
) -> Result<CoreExpr, AllocError>
    requires { CoreIn types.now core }
    ensures { IfOk result (Makes core_of CoreIn (rule.operand_in operator basic (core_of types.now core))
        types.now types.now) }
{
    if is_shift(operator) {
        return promoted_value(types, core);
    }
    number_as(types, basic, core)
}

// How an object of the type of the left operand is changed by the right one.
fn change(types: &TypeTable, operator: Operator, left: TypeId, right: TypeId) -> Change
    requires left { IdIn types.now left }
    requires right { IdIn types.now right }
    ensures { result ≡ rule.change_by (structures_of types.now) operator (type_of types.now left)
        (type_of types.now right) }
{
    if is_pointer(types, left) {
        return Change::Pointer(stride(types, left, takes_off(operator)));
    }
    let (left, right) = (basic(types, left), basic(types, right));
    let working = working_type(operator, left, right);
    Change::Number(operator, int_kind(left), int_kind(working))
}

// The right operand as the change takes it.
#[tactic(auto, using(c_scopes::proofs::Keeps::keeps_own))]
fn changing(
    types: &TypeTable,
    operator: Operator,
    left: TypeId,
    core: CoreExpr,
) -> Result<CoreExpr, AllocError>
    requires left { IdIn types.now left }
    requires core { CoreIn types.now core }
    ensures { IfOk result (Makes core_of CoreIn (rule.changing operator (type_of types.now left)
        (core_of types.now core)) types.now types.now) }
{
    if is_pointer(types, left) {
        return Ok(core);
    }
    let working = working_type(operator, basic(types, left), basic(types, core.of));
    operand_in(types, operator, working, core)
}

// The update, in the unqualified version of the type of the place.
fn update(
    types: &mut TypeTable,
    pos: Pos,
    change: Change,
    cores: (CoreExpr, CoreExpr),
) -> Result<Operand, AllocError>
    requires place { CoreIn types.old cores.0 }
    requires core { CoreIn types.old cores.1 }
    ensures { IfOk result (Makes part_of PartIn (rule.update pos change (core_of types.old cores.0)
        (core_of types.old cores.1)) types.old types.new) }
{
    let of = unqualified(types, cores.0.of)?;
    let made = join(types, (of, pos), Joint::Update(change), cores)?;
    Ok(made)
}

/// `E op= F` of an expression that is not converted, and of a value.
///
/// Constraint 22 breaks where the left operand is no modifiable lvalue, else 26 where the types are wrong for the
/// operator, else 27 where a pointer would move over an incomplete or function type.
pub fn compound(
    types: &mut TypeTable,
    pos: Pos,
    operator: Operator,
    operands: Operands,
) -> Result<Operand, TypeFault>
    requires left { PartIn types.old operands.left }
    requires right { PartIn types.old operands.right }
    ensures { Rules part_of PartIn (rule.compound_rule (structures_of types.old) pos operator
        (part_of types.old operands.left) (part_of types.old operands.right)) pos types.old types.new result }
{
    if !is_modifiable(types, &operands.left) {
        return Err(TypeFault::Constraint(22, pos));
    }
    if !may_change(types, operator, &operands) {
        return Err(TypeFault::Constraint(26, pos));
    }
    if !may_move(types, operands.left.core.of) {
        return Err(TypeFault::Constraint(27, pos));
    }
    let (left, right) = (operands.left.core, operands.right.core);
    let how = change(types, operator, left.of, right.of);
    let right = changing(types, operator, left.of, right)?;
    let made = update(types, pos, how, (left, right))?;
    Ok(made)
}

fn step_operator(back: bool) -> Operator
    ensures { result ≡ rule.step_operator back }
{
    if back {
        Operator::Subtract
    } else {
        Operator::Add
    }
}

// How an object of that type changes by 1.
fn step_change(types: &TypeTable, back: bool, of: TypeId) -> Change
    requires { IdIn types.now of }
    ensures { result ≡ rule.step_change (structures_of types.now) back (type_of types.now of) }
{
    if is_pointer(types, of) {
        return Change::Pointer(stride(types, of, back));
    }
    let basic = basic(types, of);
    let working = common(basic, Basic::Int);
    Change::Number(step_operator(back), int_kind(basic), int_kind(working))
}

// 1, in the type in which a number of that type is changed by it.
#[tactic(auto, using(c_scopes::proofs::Keeps::keeps_own))]
fn one(types: &TypeTable, pos: Pos, of: TypeId) -> CoreExpr
    requires { IdIn types.now of }
    ensures { Makes core_of CoreIn (rule.one pos (type_of types.now of)) types.now types.now result }
{
    let basic = common(basic(types, of), Basic::Int);
    let of = types.basic(basic);
    let node = CoreNode::Number(int_kind(basic), 1);
    CoreExpr { of, pos, node }
}

/// `++E`, or `--E`, of an expression that is not converted.
///
/// Constraint 22 breaks where it is no modifiable lvalue, else 26 where it is no scalar, else 27 where a pointer would
/// move over an incomplete or function type.
pub fn prefix(
    types: &mut TypeTable,
    pos: Pos,
    back: bool,
    target: Operand,
) -> Result<Operand, TypeFault>
    requires { PartIn types.old target }
    ensures { Rules part_of PartIn (rule.prefix_rule (structures_of types.old) pos back (part_of types.old target))
        pos types.old types.new result }
{
    if !is_modifiable(types, &target) {
        return Err(TypeFault::Constraint(22, pos));
    }
    if !is_scalar(types, target.core.of) {
        return Err(TypeFault::Constraint(26, pos));
    }
    if !may_move(types, target.core.of) {
        return Err(TypeFault::Constraint(27, pos));
    }
    let change = step_change(types, back, target.core.of);
    let by = one(types, pos, target.core.of);
    let made = update(types, pos, change, (target.core, by))?;
    Ok(made)
}

// The step of a place whose old content is the value, as a value of that type.
#[tactic(auto, using(c_scopes::proofs::Keeps::keeps_own))]
fn stepped(
    types: &TypeTable,
    at: (TypeId, Pos),
    change: Change,
    place: CoreExpr,
) -> Result<Operand, AllocError>
    requires of { IdIn types.now at.0 }
    requires place { CoreIn types.now place }
    ensures { IfOk result (Makes part_of PartIn (part.value (At (type_of types.now at.0) at.1
        (tree.Postfix change (core_of types.now place)))) types.now types.now) }
{
    let (of, pos) = at;
    let node = CoreNode::Postfix(change, Box::new(types.alloc(), place)?);
    Ok(value(CoreExpr { of, pos, node }))
}

// The step, in the unqualified version of the type of the place.
fn step(
    types: &mut TypeTable,
    pos: Pos,
    change: Change,
    place: CoreExpr,
) -> Result<Operand, AllocError>
    requires { CoreIn types.old place }
    ensures { IfOk result (Makes part_of PartIn (rule.step pos change (core_of types.old place))
        types.old types.new) }
{
    let of = unqualified(types, place.of)?;
    let made = stepped(types, (of, pos), change, place)?;
    Ok(made)
}

/// `E++`, or `E--`, of an expression that is not converted.
///
/// Constraint 22 breaks where it is no modifiable lvalue, else 26 where it is no scalar, else 27 where a pointer would
/// move over an incomplete or function type.
pub fn postfix(
    types: &mut TypeTable,
    pos: Pos,
    back: bool,
    target: Operand,
) -> Result<Operand, TypeFault>
    requires { PartIn types.old target }
    ensures { Rules part_of PartIn (rule.postfix_rule (structures_of types.old) pos back (part_of types.old target))
        pos types.old types.new result }
{
    if !is_modifiable(types, &target) {
        return Err(TypeFault::Constraint(22, pos));
    }
    if !is_scalar(types, target.core.of) {
        return Err(TypeFault::Constraint(26, pos));
    }
    if !may_move(types, target.core.of) {
        return Err(TypeFault::Constraint(27, pos));
    }
    let change = step_change(types, back, target.core.of);
    let made = step(types, pos, change, target.core)?;
    Ok(made)
}
