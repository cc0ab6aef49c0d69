//! Stacks of the kinds of operands, each with a number: equal stacks have one number.
#![tactic(auto)]

mod operands;
mod stacks;

pub use stacks::{Node, Stacks};
