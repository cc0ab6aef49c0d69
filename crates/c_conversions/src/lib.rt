//! The conversions of expressions: integer types and their common type, operands as values, and values as other types.
#![tactic(auto)]

pub mod content;
pub mod converting;
pub mod kind;
pub mod operand;
#[cfg(test)]
mod tests;
pub mod value;
pub mod versions;
