//! Constants, names and string literals (6.4.4, 6.4.5, 6.5.1).
ghost use Rattle.std.specs.Prelude.{◌≡◌, ◌≤◌, ◌<◌, ◌^◌, IfOk, IfSome, option_map};
ghost use Rattle.std.specs.Prelude.{Some};
ghost use Rattle.c_types.specs.CType.{type_of};
ghost use Rattle.c_types.specs.Layouts.{largest};
ghost use Rattle.c_types.specs.Types.{count_of};
ghost use Rattle.c_scopes.specs.Clauses.{Makes, Rules};
ghost use Rattle.c_scopes.specs.Env.{BindingIn};
ghost use Rattle.c_scopes.specs.Named.{named_of};
ghost use Rattle.c_conversions.specs.Parts.{part_of, PartIn};
ghost use Rattle.c_expr_rules.specs.Primary as rule;

use crate::operand::{lvalue, value};
use crate::targets::basic;
use acc_num::greatest;
use acc_num::kind::bytes;
use c_conversions::kind::{int_kind, is_unsigned, rank};
use c_conversions::operand::{Category, Operand};
use c_conversions::value::pointer_to;
use c_core::{CoreExpr, CoreNode, ObjectName, TypeFault};
use c_lexer::Number;
use c_scopes::{Binding, DeclaredFunction};
use c_types::layout::LARGEST;
use c_types::{Basic, BuildFault, LayoutFault, TypeId, TypeTable};
use critical_table::Pos;
use std::alloc::AllocError;

// The type stands in the list of the constant's suffix and base (6.4.4.1p5).
fn is_listed(number: Number, basic: Basic) -> bool
    ensures { result ≡ rule.is_listed number basic }
{
    let has_longs = number.longs < rank(basic);
    if is_unsigned(basic) {
        return has_longs && (number.unsigned || !number.decimal);
    }
    has_longs && !number.unsigned
}

fn holds(basic: Basic, value: u64) -> bool
    ensures { result ≡ rule.holds basic value }
{
    i128::from(value) <= greatest(int_kind(basic))
}

// The type stands in the list of the constant, and has its value.
fn may_have(number: Number, basic: Basic) -> bool
    ensures { result ≡ rule.may_have number basic }
{
    is_listed(number, basic) && holds(basic, number.value)
}

// The first of the types that the constant may have and that has its value.
fn number_type(number: Number) -> Option<Basic>
    ensures { result ≡ rule.first_type number rule.number_types }
{
    if may_have(number, Basic::Int) {
        return Some(Basic::Int);
    }
    if may_have(number, Basic::UInt) {
        return Some(Basic::UInt);
    }
    if may_have(number, Basic::Long) {
        return Some(Basic::Long);
    }
    if may_have(number, Basic::ULong) {
        return Some(Basic::ULong);
    }
    if may_have(number, Basic::LongLong) {
        return Some(Basic::LongLong);
    }
    if may_have(number, Basic::ULongLong) {
        return Some(Basic::ULongLong);
    }
    None
}

/// An integer constant (6.4.4.1).
///
/// Constraint 48 breaks exactly where no type in its list has the value.
#[tactic(auto, using(c_scopes::proofs::Keeps::keeps_own))]
pub fn number(types: &TypeTable, pos: Pos, number: Number) -> Result<Operand, TypeFault>
    ensures { Rules part_of PartIn (rule.number_rule pos number) pos types.now types.now result }
{
    let Some(basic) = number_type(number) else {
        return Err(TypeFault::Constraint(48, pos));
    };
    let of = types.basic(basic);
    let node = CoreNode::Number(int_kind(basic), i128::from(number.value));
    Ok(value(CoreExpr { of, pos, node }))
}

/// A character constant with that value (6.4.4.4p10, p11); a wide one is an `int` too.
#[tactic(auto, using(c_scopes::proofs::Keeps::keeps_own))]
pub fn character(types: &TypeTable, pos: Pos, n: i32) -> Operand
    ensures { Makes part_of PartIn (rule.character_part pos n) types.now types.now result }
{
    let of = types.basic(Basic::Int);
    let node = CoreNode::Number(int_kind(Basic::Int), i128::from(n));
    value(CoreExpr { of, pos, node })
}

fn unit_type(wide: bool) -> Basic
    ensures { result ≡ rule.unit_type wide }
{
    if wide { Basic::Int } else { Basic::Char }
}

/// A string literal of so many units (6.4.5p6), with its first token at that place: an object of its own.
///
/// Constraint 8 breaks exactly where it would have more than 16,777,216 bytes with its null.
pub fn literal(
    types: &mut TypeTable,
    pos: Pos,
    wide: bool,
    units: u32,
) -> Result<Operand, TypeFault>
    ensures { Rules part_of PartIn (rule.literal_rule pos wide units) pos types.old types.new result }
{
    let unit = unit_type(wide);
    let size = (u64::from(units) + 1) * u64::from(bytes(int_kind(unit)));
    if size > u64::from(LARGEST) {
        return Err(TypeFault::Constraint(8, pos));
    }
    let made = literal_object(types, pos, unit, u64::from(units) + 1)?;
    Ok(made)
}

// An array of that length, which is no larger than the largest object.
fn literal_object(
    types: &mut TypeTable,
    pos: Pos,
    unit: Basic,
    length: u64,
) -> Result<Operand, AllocError>
    requires some { 0 < length }
    ensures { IfOk result (Makes part_of PartIn (rule.literal_object pos unit length) types.old types.new) }
{
    let unit = types.basic(unit);
    let of = match types.array(unit, Some(length)) {
        Ok(of) => of,
        Err(_) => return Err(AllocError),
    };
    let node = CoreNode::Object(ObjectName::Static(pos));
    Ok(lvalue(CoreExpr { of, pos, node }))
}

// A function designator, whose core is the pointer to the function.
fn designator(
    types: &mut TypeTable,
    pos: Pos,
    of: TypeId,
    function: DeclaredFunction,
) -> Result<Operand, AllocError>
    requires { of.0 < count_of types.old }
    ensures { IfOk result (Makes part_of PartIn (rule.function_part pos (type_of types.old of) function)
        types.old types.new) }
{
    let of = pointer_to(types, of)?;
    let node = CoreNode::Function(function.name);
    Ok(Operand {
        category: Category::Designator,
        null: false,
        core: CoreExpr { of, pos, node },
    })
}

/// A name by what it stands for (6.5.1p2).
///
/// Constraint 1 breaks exactly where it stands for nothing, or for a type.
#[tactic(auto, using(c_scopes::proofs::Keeps::keeps_own))]
pub fn name(types: &mut TypeTable, pos: Pos, binding: Option<Binding>) -> Result<Operand, TypeFault>
    requires { IfSome binding (BindingIn types.old) }
    ensures { Rules part_of PartIn (rule.name_rule pos (option_map (named_of types.old) binding)) pos
        types.old types.new result }
{
    match binding {
        None => Err(TypeFault::Constraint(1, pos)),
        Some(binding) => bound(types, pos, binding),
    }
}

#[tactic(auto, using(c_scopes::proofs::Keeps::keeps_own))]
fn bound(types: &mut TypeTable, pos: Pos, binding: Binding) -> Result<Operand, TypeFault>
    requires { BindingIn types.old binding }
    ensures { Rules part_of PartIn (rule.name_rule pos (Some (named_of types.old binding))) pos
        types.old types.new result }
{
    match binding {
        Binding::Object(of, object) => Ok(Operand {
            category: Category::Lvalue(object.register),
            null: false,
            core: CoreExpr {
                of,
                pos,
                node: CoreNode::Object(object.name),
            },
        }),
        Binding::Function(of, function) => {
            let made = designator(types, pos, of, function)?;
            Ok(made)
        }
        Binding::Constant(of, n) => {
            let node = CoreNode::Number(int_kind(basic(types, of)), n);
            Ok(value(CoreExpr { of, pos, node }))
        }
        Binding::NullPointer(of) => Ok(Operand {
            category: Category::Value,
            null: true,
            core: CoreExpr {
                of,
                pos,
                node: CoreNode::Null,
            },
        }),
        Binding::Typedef(_) => Err(TypeFault::Constraint(1, pos)),
        Binding::Tag(_, _) => Err(TypeFault::Constraint(1, pos)),
    }
}
