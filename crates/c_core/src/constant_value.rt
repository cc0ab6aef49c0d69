//! Integer constant expressions (6.6).
ghost use Rattle.std.specs.Prelude.{◌≡◌};
ghost use Rattle.c_core.specs.View.{core_of};
ghost use Rattle.c_core.specs.Constant.{is_constant, outcome_in, constant_value, constant_of};

use crate::expression::{CoreExpr, CoreNode};
use crate::fault::ConstFault;
use crate::number::{compare, flip, is_shift, negate, operate, truth};
use crate::operator::Operator;
use acc_num::{IntKind, NumFault, convert};
use c_types::TypeTable;

// The expression is an integer constant expression.
fn is_constant(types: &TypeTable, expr: &CoreExpr) -> bool
    ensures { result ≡ is_constant (core_of types.now expr.now) }
{
    match &expr.node {
        CoreNode::Number(_, _) => true,
        CoreNode::Convert(_, value)
        | CoreNode::Negate(_, value)
        | CoreNode::Flip(_, value)
        | CoreNode::Not(value) => is_constant(types, value),
        CoreNode::Arithmetic(_, _, left, right)
        | CoreNode::Compare(_, left, right)
        | CoreNode::AndAlso(left, right)
        | CoreNode::OrElse(left, right) => is_constant(types, left) && is_constant(types, right),
        CoreNode::Cond(test, first, second) => {
            is_constant(types, test) && is_constant(types, first) && is_constant(types, second)
        }
        _ => false,
    }
}

// The outcome of an operator on two numbers, each taken in the kind of the operation, but for the count of a shift.
fn operate_in(operator: Operator, kind: IntKind, a: i128, b: i128) -> Result<i128, NumFault>
    ensures { result ≡ outcome_in operator kind a b }
{
    let left = convert(kind, a);
    if is_shift(operator) {
        return operate(operator, kind, left, b);
    }
    operate(operator, kind, left, convert(kind, b))
}

// The value of a constant expression, or why an operation in an evaluated part has none.
fn value(types: &TypeTable, expr: &CoreExpr) -> Result<i128, NumFault>
    ensures { result ≡ constant_value (core_of types.now expr.now) }
{
    match &expr.node {
        CoreNode::Number(_, value) => Ok(*value),
        CoreNode::Convert(kind, operand) => Ok(convert(*kind, value(types, operand)?)),
        CoreNode::Negate(kind, operand) => negate(*kind, convert(*kind, value(types, operand)?)),
        CoreNode::Flip(kind, operand) => Ok(flip(*kind, value(types, operand)?)),
        CoreNode::Not(operand) => Ok(truth(value(types, operand)? == 0)),
        CoreNode::Arithmetic(operator, kind, left, right) => {
            let a = value(types, left)?;
            operate_in(*operator, *kind, a, value(types, right)?)
        }
        CoreNode::Compare(comparison, left, right) => {
            let a = value(types, left)?;
            Ok(truth(compare(*comparison, a, value(types, right)?)))
        }
        CoreNode::AndAlso(left, right) => {
            if value(types, left)? == 0 {
                return Ok(0);
            }
            Ok(truth(value(types, right)? != 0))
        }
        CoreNode::OrElse(left, right) => {
            if value(types, left)? == 0 {
                return Ok(truth(value(types, right)? != 0));
            }
            Ok(1)
        }
        CoreNode::Cond(test, first, second) => {
            if value(types, test)? == 0 {
                return value(types, second);
            }
            value(types, first)
        }
        _ => Ok(0),
    }
}

/// The value of an integer constant expression (6.6).
///
/// `NotConstant` comes exactly where the expression is none, and else `Value` exactly where an operation in an
/// evaluated part of it is undefined.
pub fn constant(types: &TypeTable, expr: &CoreExpr) -> Result<i128, ConstFault>
    ensures { result ≡ constant_of (core_of types.now expr.now) }
{
    if !is_constant(types, expr) {
        return Err(ConstFault::NotConstant);
    }
    match value(types, expr) {
        Ok(value) => Ok(value),
        Err(_) => Err(ConstFault::Value),
    }
}
