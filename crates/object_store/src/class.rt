//! How long an object lives.

/// How an object is stored (6.2.4).
#[derive(Clone, Copy, Debug, PartialEq, Eq)]
pub enum Class {
    /// For the whole run.
    Static,
    /// Until its block, call or full expression ends.
    Automatic,
    /// Until it is released (7.22.3).
    Allocated,
}
