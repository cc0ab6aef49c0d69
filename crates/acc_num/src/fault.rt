//! Why an operation on integers has no value.
use thiserror::Error;

/// Why an operation has no value: the behaviour of C is undefined there.
#[derive(Clone, Copy, Debug, PartialEq, Eq, Error)]
pub enum NumFault {
    /// A signed result is out of range (6.5p5).
    #[error("signed result out of range")]
    Overflow,
    /// A division or a remainder by zero (6.5.5p5).
    #[error("division by zero")]
    ZeroDivisor,
    /// A shift by a count below 0 or not below the width, a left shift of a negative number, or one whose signed
    /// result is out of range (6.5.7p3 and p4).
    #[error("shift out of range")]
    Shift,
}
