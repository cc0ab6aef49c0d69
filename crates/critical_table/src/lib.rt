//! The critical undefined behaviours of C's Annex L as numbered cases, the other undefined behaviours as codes,
//! the ends of a command, and the status and the line by which each end is reported.
#![tactic(auto)]

pub mod case;
pub mod code;
pub mod ended;
pub mod line;
pub mod name;
mod number;
pub mod pos;
pub mod refusal;
pub mod report;
pub mod table;

pub use case::Case;
pub use code::Code;
pub use ended::Ended;
pub use line::Line;
pub use name::Name;
pub use pos::Pos;
pub use refusal::Refusal;
pub use report::{report_line, status_of};
pub use table::table_line;

#[cfg(test)]
mod tests;
