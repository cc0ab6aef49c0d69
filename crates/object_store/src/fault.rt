//! Why no object was made, or no call was entered.
use std::alloc::AllocError;
use thiserror::Error;

/// The live bytes would pass the budget.
#[derive(Clone, Copy, Debug, PartialEq, Eq, Error)]
#[error("out of bytes")]
pub struct OverBytes;

/// Why no object was made.
#[derive(Clone, Copy, Debug, PartialEq, Eq, Error)]
pub enum MakeFault {
    /// The live bytes and the size would pass the budget.
    #[error("out of bytes")]
    OverBytes,
    /// There was no memory.
    #[error("out of memory")]
    Memory(AllocError),
}
