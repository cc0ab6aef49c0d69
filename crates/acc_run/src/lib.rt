//! The commands of `acc`, and the top call `acc_main`.
#![tactic(auto)]

pub mod case_table;
pub mod job;
pub mod load;
pub mod meaning;
pub mod program;
pub mod read_program;
pub mod reporting;
pub mod running;
pub mod top;
pub mod words;

pub use case_table::table;
pub use top::acc_main;
pub use words::Words;

#[cfg(test)]
mod tests;
