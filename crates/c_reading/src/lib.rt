//! How the tokens of a unit are read: a parser for each class of nodes, as a definition, and the laws that make its
//! answer the one that the syntax asks for.
#![tactic(auto)]

pub mod declarator_form;
pub mod law;
pub mod type_seen;

pub use declarator_form::DeclaratorForm;
pub use law::{answer_law, one_tree_law};
pub use type_seen::TypeSeen;
