//! Accesses that are attempted.
use object_store::{By, Pointer};

/// An access, before it is known whether it reaches its range (L.2.1).
#[derive(Clone, Copy, Debug, PartialEq, Eq)]
pub struct Attempt {
    /// Where the range begins.
    pub place: Pointer,
    /// How many bytes it has.
    pub len: u32,
    /// What its offset has to be a multiple of.
    pub align: u32,
    /// The kind of the access.
    pub by: By,
}
