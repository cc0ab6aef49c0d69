//! The input and the output of a guest, over a source and two sinks: the functions of clause 7 and Annex K that read
//! and write, with their buffers.
//!
//! Each function answers what its row in the library means. It answers a fault only where the count of the object that
//! failed rose. Nothing here takes memory.
#![tactic(auto)]

pub mod guest_io;
mod held_input;
mod held_output;
mod input;
mod output;
mod text;

pub use guest_io::GuestIo;

#[cfg(test)]
mod tests;
