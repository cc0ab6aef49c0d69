//! Values and arguments of a library call.
use object_store::Pointer;

/// The value of a call, or of an argument.
#[derive(Clone, Copy, Debug, PartialEq, Eq)]
pub enum Value {
    /// A number.
    Num(i128),
    /// A pointer.
    Ptr(Pointer),
    /// No value: that of a function that returns `void`.
    Nothing,
}

/// The kind of an argument's type, once it is promoted (6.5.2.2p6).
#[derive(Clone, Copy, Debug, PartialEq, Eq)]
pub enum ArgKind {
    /// `int`
    Int,
    /// `unsigned int`
    UInt,
    /// `long`
    Long,
    /// `unsigned long`
    ULong,
    /// `long long`
    LongLong,
    /// `unsigned long long`
    ULongLong,
    /// A pointer to a character type or to `void`.
    CharPointer,
    /// Any other pointer.
    OtherPointer,
}

/// An argument of a call.
#[derive(Clone, Copy, Debug, PartialEq, Eq)]
pub struct Arg {
    /// Its value: a number in the range of its kind, or a pointer.
    pub value: Value,
    /// The kind of its type.
    pub kind: ArgKind,
}
