//! Integer arithmetic of C: the kinds of integers, their ranges, and what each operation gives.
//!
//! A value of a kind is an `i128` in the kind's range. An operation is done on exact integers, and its kind then
//! takes the result: as it stands where it is in range, modulo 2^N where the kind is unsigned, and not at all
//! where a signed result is out of range.
#![tactic(auto)]

pub mod arithmetic;
pub mod conversion;
pub mod fault;
pub mod kind;
mod power;
mod represent;
pub mod shift;
#[cfg(test)]
mod tests;

pub use arithmetic::{add, div, mul, rem, sub};
pub use conversion::convert;
pub use fault::NumFault;
pub use kind::{IntKind, bytes, greatest, least};
pub use shift::{shl, shr};
