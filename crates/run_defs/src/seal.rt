//! Marks that an object gets.
use object_store::Mark;

/// A range of an object whose bytes get a mark.
#[derive(Clone, Copy, Debug, PartialEq, Eq)]
pub struct Seal {
    /// The first byte of the range.
    pub at: u32,
    /// How many bytes it has.
    pub len: u32,
    /// Why they may not be stored to.
    pub mark: Mark,
}
