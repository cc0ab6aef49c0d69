//! The names of the library in the scope around the file scope: types, constants and functions (7.1.2).
#![tactic(auto)]

pub mod binding;
pub mod functions;
pub mod law;
pub mod names;
pub mod predeclared_scope;
pub mod prototypes;
#[cfg(test)]
mod tests;

pub use law::number_law;
pub use predeclared_scope::predeclared;
