//! What a call of a library function means, as plain data (clause 7 and Annex K).
//!
//! A row of the table of Annex K is the list of its runtime-constraints in order, its action, its failure value and its
//! success; narrow and wide rows differ in the width of their units alone. The answer of a row is plain data, which the
//! meaning of a unit and the machine both read.
#![tactic(auto)]

pub mod args;
pub mod constraints;
pub mod handler;
pub mod laws;
pub mod reading;
pub mod row;
pub mod row_name;
pub mod rows;
pub mod shown;
pub mod step;
pub mod unit;
pub mod value;
pub mod violation;

pub use args::Args;
pub use constraints::message;
pub use handler::{Handler, set_handler};
pub use reading::Reading;
pub use row::{Row, name_of, row_of};
pub use row_name::RowName;
pub use rows::Rows;
pub use shown::{NAME_ROOM, Shown, ShownName};
pub use step::{LibStep, Rest};
pub use unit::{Byte, Unit, Wide};
pub use value::{Arg, ArgKind, Value};
pub use violation::Violation;

#[cfg(test)]
mod tests;
