//! The basic types.

/// The basic types and `void` (6.2.5p2 to p7, p14 and p19).
#[derive(Clone, Copy, Debug, PartialEq, Eq)]
pub enum Basic {
    Void,
    Bool,
    Char,
    SChar,
    UChar,
    Short,
    UShort,
    Int,
    UInt,
    Long,
    ULong,
    LongLong,
    ULongLong,
}
