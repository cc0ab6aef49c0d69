//! Declarations and static assertions (6.7, 6.7.10).

use crate::declarator::Declarator;
use crate::expression::{Expr, Literals};
use crate::initializer::Initializer;
use crate::specifier::Specifier;
use critical_table::Pos;

/// A declaration (6.7).
#[derive(Drop)]
pub struct Declaration {
    pub specifiers: Vec<Specifier>,
    pub declarators: Vec<InitDeclarator>,
}

/// A declarator with its initializer (6.7).
#[derive(Drop)]
pub struct InitDeclarator {
    pub declarator: Declarator,
    pub initializer: Option<Initializer>,
}

/// A static assertion, with the place of its first token (6.7.10).
#[derive(Drop)]
pub struct Assert {
    pub pos: Pos,
    pub condition: Expr,
    pub message: Literals,
}
