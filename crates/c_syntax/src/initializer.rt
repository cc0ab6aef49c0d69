//! Initializers (6.7.9).

use crate::expression::Expr;
use critical_table::{Name, Pos};

/// An initializer (6.7.9).
#[cycle(list)]
#[derive(Drop)]
pub enum Initializer {
    Expression(Expr),
    /// `{ items }`, the place of the brace, and whether a comma stands behind the last item.
    Braces(Pos, Vec<Item>, bool),
}

/// An initializer in braces, with its designator, whose place is that of its first token (6.7.9).
#[cycle(list)]
#[derive(Drop)]
pub enum Item {
    Plain(Initializer),
    /// `.name = initializer`
    Member(Pos, Name, Initializer),
    /// `[ expression ] = initializer`
    Index(Pos, Expr, Initializer),
}
