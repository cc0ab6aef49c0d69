//! Statements and what stands in their blocks (6.8).

use crate::declaration::{Assert, Declaration};
use crate::expression::Expr;
use critical_table::Pos;

/// A statement (6.8), with the place of its word where it has one.
#[cycle(body)]
#[derive(Drop)]
pub enum Statement {
    /// `{ items }` (6.8.2)
    Block(Vec<BlockItem>),
    /// `expression ;` (6.8.3)
    ExprStmt(Option<Expr>),
    /// `if (a) b else c` (6.8.4.1)
    If(Pos, Expr, Box<Statement>, Option<Box<Statement>>),
    /// `switch (a) { items }` (6.8.4.2)
    Switch(Pos, Expr, Vec<SwitchItem>),
    /// `while (a) b` (6.8.5.1)
    While(Pos, Expr, Box<Statement>),
    /// `do a while (b);` (6.8.5.2)
    Do(Pos, Box<Statement>, Expr),
    /// `for (a; b; c) d` (6.8.5.3)
    For(Pos, ForInit, Option<Expr>, Option<Expr>, Box<Statement>),
    /// 6.8.6.3
    Break(Pos),
    /// 6.8.6.2
    Continue(Pos),
    /// 6.8.6.4
    Return(Pos, Option<Expr>),
}

/// What stands in a block (6.8.2).
#[cycle(body)]
#[derive(Drop)]
pub enum BlockItem {
    Declaration(Declaration),
    Assert(Assert),
    Statement(Statement),
}

/// What stands in the block of a `switch` (6.8.1, 6.8.4.2), with the place of a label's word.
#[cycle(body)]
#[derive(Drop)]
pub enum SwitchItem {
    Case(Pos, Expr),
    Default(Pos),
    Item(BlockItem),
}

/// How a `for` begins (6.8.5.3).
#[derive(Drop)]
pub enum ForInit {
    Declaration(Declaration),
    Expression(Option<Expr>),
}
