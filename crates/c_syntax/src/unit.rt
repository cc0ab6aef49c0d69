//! Functions and whole units (6.9).

use crate::declaration::{Assert, Declaration};
use crate::declarator::Declarator;
use crate::specifier::Specifier;
use crate::statement::BlockItem;
use critical_table::Pos;

/// A function definition (6.9.1).
#[derive(Drop)]
pub struct Function {
    pub specifiers: Vec<Specifier>,
    pub declarator: Declarator,
    pub body: Vec<BlockItem>,
}

/// An external declaration (6.9).
#[derive(Drop)]
pub enum External {
    Function(Function),
    Declaration(Declaration),
    Assert(Assert),
}

/// The syntax tree of a unit (6.9), and the place behind its last byte.
#[derive(Drop)]
pub struct Tree {
    pub externals: Vec<External>,
    pub end: Pos,
}
