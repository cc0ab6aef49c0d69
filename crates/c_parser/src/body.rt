//! What is made of expressions, specifiers and declarators: initializers, declarations, statements and the unit.

pub(crate) mod assertion;
mod block;
pub(crate) mod declaration;
mod expression;
pub(crate) mod initializer;
mod iteration;
mod selection;
pub(crate) mod statement;
pub(crate) mod unit;
