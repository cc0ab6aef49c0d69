//! The types of the library functions (clause 7, Annex K).
#![tactic(auto)]

pub mod laws;
