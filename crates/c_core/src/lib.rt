//! The core tree of a unit: what the checker makes of its syntax, and what its meaning and its code are made of.
#![tactic(auto)]

pub mod constant_value;
pub mod core_unit;
pub mod expression;
pub mod fault;
pub mod form;
pub mod function;
pub mod named;
pub mod number;
pub mod operator;
pub mod statement;
pub mod static_object;

pub use constant_value::constant;
pub use core_unit::Core;
pub use expression::{CoreExpr, CoreNode};
pub use fault::{ConstFault, TypeFault};
pub use form::{Content, Form, Scalar};
pub use function::{CoreFunction, Parameter, Range};
pub use named::{FunctionName, LIBRARY_FUNCTIONS, ObjectName};
pub use operator::{By, Change, Comparison, Operator, Relation, Stride};
pub use statement::{Case, CoreAction, CoreStatement, Local};
pub use static_object::{Address, Bounds, CoreStatic, Mark, Seal, StaticItem, StaticValue};

#[cfg(test)]
mod tests;
