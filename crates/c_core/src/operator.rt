//! The operators of the core tree, and how a pointer moves or is reached.
use acc_num::IntKind;

/// The operators on two numbers that give one (6.5.5 to 6.5.7, 6.5.10 to 6.5.12).
#[derive(Clone, Copy, Debug, PartialEq, Eq)]
pub enum Operator {
    Add,
    Subtract,
    Multiply,
    Divide,
    Remainder,
    ShiftLeft,
    ShiftRight,
    BitAnd,
    BitOr,
    BitXor,
}

/// The comparisons of two numbers (6.5.8, 6.5.9).
#[derive(Clone, Copy, Debug, PartialEq, Eq)]
pub enum Comparison {
    Less,
    LessEqual,
    Equal,
    NotEqual,
    GreaterEqual,
    Greater,
}

/// The order of two pointers into one object (6.5.8p5).
#[derive(Clone, Copy, Debug, PartialEq, Eq)]
pub enum Relation {
    Less,
    LessEqual,
    GreaterEqual,
    Greater,
}

/// How a pointer is reached: by `*` and `[ ]`, or by `->`.
#[derive(Clone, Copy, Debug, PartialEq, Eq)]
pub enum By {
    Star,
    Arrow,
}

/// How a pointer moves by a number: over elements of that many bytes, forwards, or back where the number is taken off
/// (6.5.6p8).
#[derive(Clone, Copy, Debug, PartialEq, Eq)]
pub struct Stride {
    pub size: u32,
    pub back: bool,
}

/// How a compound assignment or a step changes an object (6.5.2.4, 6.5.3.1, 6.5.16.2).
#[derive(Clone, Copy, Debug, PartialEq, Eq)]
pub enum Change {
    /// The number that the object holds, in the first kind, is converted to the second, changed there, and converted back.
    Number(Operator, IntKind, IntKind),
    /// The pointer that it holds moves.
    Pointer(Stride),
}
