//! The code of a unit, and the machine that runs it.
//!
//! Code is a list of instructions over a stack of operands, with the functions, static objects, texts and called types
//! that they name. Contracts see it as plain lists.
#![tactic(auto)]

pub mod code;
pub mod code_listing;
pub mod instr;
mod instr_text;
mod law;
mod line_parts;
pub mod parts;
pub mod reading;
pub mod sequence;
pub mod valid_code;

pub use c_core::Form;
pub use code::Code;
pub use code_listing::listing;
pub use instr::Instr;
pub use law::{blame_law, bound_law, end_law, progress_law};
pub use parts::{CodeCalled, CodeFunction, CodeObject, Parameter};
pub use run_defs::Seal;
pub use sequence::Sequence;
pub use valid_code::ValidCode;

#[cfg(test)]
mod tests;
