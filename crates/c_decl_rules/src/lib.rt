//! What a declaration makes of a name, by its typed parts (6.2.2, 6.7).
#![tactic(auto)]

pub mod declaring;
pub mod functions;
pub mod law;
pub mod linkage;
pub mod names;
pub mod objects;
pub mod same_type;
#[cfg(test)]
mod tests;

pub use declaring::{Declaring, Manner, Visible};
pub use law::order_law;
pub use names::declare_name;
