//! The objects of a run (3.15) and the accesses to them.
//!
//! A pointer has a number of an object and bounds in it. An access is reached first, which answers the critical case of
//! Annex L that it is, if it is one; only a range that was reached is viewed or stored to. Integers and pointers stand
//! in bytes as 6.2.6 says. Contracts see a `Store` as the list of all objects that were ever made.
#![tactic(auto)]

pub mod by;
pub mod cell;
mod cells;
pub mod class;
pub mod fault;
mod integers;
mod law;
pub mod mark;
mod messages;
mod numbers;
pub mod pointer;
mod pointers;
mod ranges;
mod reach;
mod slot;
pub mod store;
pub mod view;
pub mod writes;

pub use by::By;
pub use cell::Cell;
pub use class::Class;
pub use fault::{MakeFault, OverBytes};
pub use integers::write_integer;
pub use law::{store_law, subrange_law};
pub use mark::Mark;
pub use pointer::Pointer;
pub use store::Store;
pub use view::View;
pub use writes::{Write, Writes};

#[cfg(test)]
mod load_tests;
#[cfg(test)]
mod tests;
