//! The constants that initialize static objects.

ghost use Rattle.std.specs.Prelude.{◌≡◌};
ghost use Rattle.c_types.specs.CType.{type_of};
ghost use Rattle.c_types.specs.Structures.{structures_of};
ghost use Rattle.c_core.specs.Ids.{IdIn};
ghost use Rattle.c_core.specs.ViewUnit.{value_of};
ghost use Rattle.c_conversions.specs.Parts.{PartIn, part_of};
ghost use Rattle.c_initial_rules.specs.Constants as spec;

use crate::addresses::{PointerConstant, pointer_constant};
use acc_num::convert;
use c_conversions::kind::{int_kind, integer, is_integer};
use c_conversions::operand::Operand;
use c_conversions::versions::is_pointer;
use c_core::{ConstFault, StaticValue, constant};
use c_types::{Basic, TypeId, TypeTable};

/// What an expression is as a constant, before it is converted (6.6p7).
#[derive(Clone, Copy, Debug)]
pub enum Constancy {
    /// No constant.
    Variable,
    /// An integer constant expression in which an operation is undefined.
    Undefined,
    Number(i128),
    Pointer(PointerConstant),
}

fn number_constancy(constant: Result<i128, ConstFault>) -> Constancy
    ensures { result ≡ spec.number_constancy constant }
{
    match constant {
        Ok(number) => Constancy::Number(number),
        Err(ConstFault::NotConstant) => Constancy::Variable,
        Err(ConstFault::Value) => Constancy::Undefined,
    }
}

fn pointer_constancy(pointer: Option<PointerConstant>) -> Constancy
    ensures { result ≡ spec.pointer_constancy pointer }
{
    match pointer {
        None => Constancy::Variable,
        Some(pointer) => Constancy::Pointer(pointer),
    }
}

/// An integer constant expression, an address constant, or none of both (6.6p7).
pub fn as_constant(types: &TypeTable, operand: &Operand) -> Constancy
    requires { PartIn types.now operand.now }
    ensures { result ≡ spec.as_constant (structures_of types.now) (part_of types.now operand.now) }
{
    let core = &operand.core;
    if is_integer(types, core.of) {
        return number_constancy(constant(types, core));
    }
    if is_pointer(types, core.of) {
        return pointer_constancy(pointer_constant(types, core));
    }
    Constancy::Variable
}

/// The expression is a constant.
pub fn is_constant(constancy: Constancy) -> bool
    ensures { result ≡ spec.is_constant constancy }
{
    match constancy {
        Constancy::Variable => false,
        Constancy::Undefined | Constancy::Number(_) | Constancy::Pointer(_) => true,
    }
}

/// No operation in the expression is undefined (6.6p4).
pub fn is_defined(constancy: Constancy) -> bool
    ensures { result ≡ spec.is_defined constancy }
{
    match constancy {
        Constancy::Undefined => false,
        Constancy::Variable | Constancy::Number(_) | Constancy::Pointer(_) => true,
    }
}

fn pointer_value(pointer: PointerConstant) -> StaticValue
    ensures { value_of result ≡ spec.pointer_value pointer }
{
    match pointer {
        PointerConstant::Null => StaticValue::Null,
        PointerConstant::Address(address) => StaticValue::Address(address),
        PointerConstant::Function(name) => StaticValue::Function(name),
    }
}

fn pointer_truth(pointer: PointerConstant) -> i128
    ensures { result ≡ spec.pointer_truth pointer }
{
    match pointer {
        PointerConstant::Null => 0,
        PointerConstant::Address(_) | PointerConstant::Function(_) => 1,
    }
}

fn number_value(basic: Basic, constancy: Constancy) -> StaticValue
    ensures { value_of result ≡ spec.number_value basic constancy }
{
    let kind = int_kind(basic);
    match constancy {
        Constancy::Number(number) => StaticValue::Number(kind, convert(kind, number)),
        Constancy::Pointer(pointer) => StaticValue::Number(kind, pointer_truth(pointer)),
        Constancy::Variable | Constancy::Undefined => StaticValue::Number(kind, 0),
    }
}

fn pointer_or_null(constancy: Constancy) -> StaticValue
    ensures { value_of result ≡ spec.pointer_or_null constancy }
{
    match constancy {
        Constancy::Pointer(pointer) => pointer_value(pointer),
        Constancy::Variable | Constancy::Undefined | Constancy::Number(_) => StaticValue::Null,
    }
}

/// A constant as an object of that type holds it (6.7.9p11).
pub fn static_value(types: &TypeTable, to: TypeId, constancy: Constancy) -> StaticValue
    requires { IdIn types.now to }
    ensures { value_of result ≡ spec.static_value (type_of types.now to) constancy }
{
    match integer(types, to) {
        Some(basic) => number_value(basic, constancy),
        None => pointer_or_null(constancy),
    }
}
