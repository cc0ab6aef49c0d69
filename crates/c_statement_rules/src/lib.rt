//! Which statements, function definitions and units there may be, by their typed parts (6.8, 6.9).
#![tactic(auto)]

pub mod assertions;
pub mod definitions;
pub mod jumps;
pub mod labels;
pub mod law;
pub mod names;
#[cfg(test)]
mod tests;
pub mod units;

pub use assertions::assertion;
pub use definitions::{Defining, defined_function, defined_parameter, parameter_name};
pub use jumps::{jump, returned, returning};
pub use labels::LabelList;
pub use law::order_law;
pub use names::NameList;
pub use units::{DefinedNames, main_function};
