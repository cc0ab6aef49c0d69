//! Checked function definitions.
use crate::form::Content;
use crate::statement::CoreStatement;
use c_types::TypeId;
use critical_table::{Name, Pos};

/// So many bytes of an object, from a byte on.
#[derive(Clone, Copy, Debug, PartialEq, Eq)]
pub struct Range {
    pub at: u32,
    pub len: u32,
}

/// A parameter (6.9.1p9): what its object holds, and which bytes of it are const. Its slot is its number, from 0.
#[derive(Drop)]
pub struct Parameter {
    pub content: Content,
    pub seals: Vec<Range>,
}

/// A checked function definition (6.9.1).
#[derive(Drop)]
pub struct CoreFunction {
    /// The place of its name where the unit first declares it.
    pub token: Pos,
    pub name: Name,
    /// Its type.
    pub of: TypeId,
    pub parameters: Vec<Parameter>,
    /// What a call of it gives.
    pub gives: Option<Content>,
    /// All slots of its objects lie below this number.
    pub slots: u32,
    /// Its block.
    pub body: CoreStatement,
}
