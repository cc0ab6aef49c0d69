//! The names in scope, each with what it stands for (6.2.1 to 6.2.3), and the words of the typing rules.
#![tactic(auto)]

pub mod binding;
pub mod law;
pub mod scopes;

pub use binding::{Binding, DeclaredFunction, DeclaredObject, Linkage, Standing, TagState};
pub use law::{growth_law, rule_law, view_law};
pub use scopes::Scopes;

#[cfg(test)]
mod tests;
