//! The parser: the syntax tree of a unit's tokens, or where and why they have none.
#![tactic(auto)]

mod begins;
mod body;
mod declared;
mod declares;
mod fault;
mod level;
mod make;
mod next;
mod parse_unit;
mod part;
mod read;
mod scope;

pub use fault::SyntaxFault;
pub use parse_unit::parse;
