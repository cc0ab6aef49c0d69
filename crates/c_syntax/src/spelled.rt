//! A token as the printer gives it.

use c_lexer::Body;
use critical_table::Pos;

/// A token of a spelling: what it is, and its place where that is the place of a node.
#[derive(Debug, Drop)]
pub struct Spelled {
    pub body: Body,
    pub place: Option<Pos>,
}
