//! What names a type, what it is built of, and its qualifiers.

use crate::basic::Basic;

/// A type that a table has made. Ids of different tables have nothing to do with each other.
#[derive(Clone, Copy, Debug, PartialEq, Eq)]
pub struct TypeId(pub u64);

/// What a type is built of, without its qualifiers.
///
/// A compound or enumerated type is known by its number alone: two of them are the same type exactly where their
/// numbers are equal. The number of a function type names where the table keeps its result and parameters.
#[derive(Clone, Copy, Debug, PartialEq, Eq)]
pub enum Shape {
    Basic(Basic),
    Pointer(TypeId),
    Array(TypeId, Option<u64>),
    Function(u64),
    Compound(u64),
    Enumerated(u64),
}

/// The qualifiers `const`, `volatile` and `restrict` (6.7.3).
#[derive(Clone, Copy, Debug, PartialEq, Eq)]
pub struct Quals {
    pub constant: bool,
    pub volatile: bool,
    pub restricted: bool,
}

impl Quals {
    /// No qualifier.
    pub const NONE: Quals = Quals {
        constant: false,
        volatile: false,
        restricted: false,
    };
}
