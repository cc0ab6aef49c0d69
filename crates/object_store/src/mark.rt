//! Why a byte may not be stored to.

/// Whether a byte of an object may be stored to, and if not, why.
#[derive(Clone, Copy, Debug, PartialEq, Eq)]
pub enum Mark {
    /// It may.
    Plain,
    /// It is a string literal's (6.4.5p7).
    Literal,
    /// It is a const object's (6.7.3p6).
    Const,
    /// It is an object's with two incompatible declarations (6.2.7p2).
    Clash,
}
