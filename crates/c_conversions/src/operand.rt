//! Expressions before they are used.
use c_core::CoreExpr;

/// What an expression designates (6.3.2.1).
#[derive(Clone, Copy, Debug, PartialEq, Eq)]
pub enum Category {
    /// An object, by an lvalue (6.3.2.1p1); the flag tells that it is one declared with `register`, or a part of one.
    Lvalue(bool),
    /// An object without an lvalue: a member of a structure that is a value (6.2.4p8, 6.5.2.3p3).
    Temporary,
    /// No object.
    Value,
    /// A function (6.3.2.1p4).
    Designator,
}

/// A checked expression before it is used as a value, as an operand or otherwise.
#[derive(Drop)]
pub struct Operand {
    pub category: Category,
    /// It is a null pointer constant of type `void *` (6.3.2.3p3).
    pub null: bool,
    /// The place that an object stands at; the value; the pointer to a function that is designated.
    pub core: CoreExpr,
}
