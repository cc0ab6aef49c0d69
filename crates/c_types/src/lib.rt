//! The types of C11 in a table: how each is built, how large it is, and which are compatible.
#![tactic(auto)]

pub mod basic;
mod compatible;
mod composite;
mod compounds;
pub mod fault;
mod functions;
mod growth;
pub mod layout;
pub mod member;
mod part_count;
pub mod parts;
mod placing;
mod qualified;
pub mod shape;
pub mod table;

pub use basic::Basic;
pub use compatible::compatibility_law;
pub use composite::composite_law;
pub use fault::{BuildFault, LayoutFault};
pub use growth::growth_law;
pub use layout::Layout;
pub use member::Member;
pub use part_count::part_law;
pub use parts::MOST_PARTS;
pub use shape::{Quals, Shape, TypeId};
pub use table::TypeTable;

#[cfg(test)]
mod tests;
