//! Checked statements.
use crate::expression::CoreExpr;
use crate::form::Content;
use critical_table::Pos;

/// An object of a block: its slot, which no object around it has, and its size in bytes.
#[derive(Clone, Copy, Debug, PartialEq, Eq)]
pub struct Local {
    pub slot: u32,
    pub size: u32,
}

/// A label of a `switch` (6.8.4.2): the value, and how many items of the block stand before it.
#[derive(Clone, Copy, Debug, PartialEq, Eq)]
pub struct Case {
    pub value: i128,
    pub at: u32,
}

/// A checked statement (6.8) or a part of a declaration (6.7.9), with its place.
#[cycle(body)]
#[derive(Drop)]
pub struct CoreStatement {
    pub pos: Pos,
    pub action: CoreAction,
}

/// What a checked statement does. Each expression in it is a full expression (6.8p4).
#[cycle(body)]
#[derive(Drop)]
pub enum CoreAction {
    /// The objects are made in order, the items run, and the objects die, the last made first (6.2.4p6, 6.8.2).
    Block(Vec<Local>, Vec<CoreStatement>),
    /// The object in a slot is filled with that many zero bytes, before the items of its initializer (6.7.9p21).
    Zero(u32, u32),
    /// A value is stored in the object of a slot, at that byte (6.7.9p11, p13, p17).
    Initialize(u32, u32, Content, CoreExpr),
    /// The bytes of a string literal are stored in the object of a slot, at that byte (6.7.9p14, p15).
    InitializeBytes(u32, u32, Vec<u8>),
    /// So many bytes of the object in a slot, from that byte on, are const from now on (6.7.3p6).
    Seal(u32, u32, u32),
    /// An expression without a value (6.8.3).
    Evaluate(CoreExpr),
    /// 6.8.4.1
    If(CoreExpr, Box<CoreStatement>, Box<CoreStatement>),
    /// `while`, and a `for` without its third part (6.8.5.1).
    While(CoreExpr, Box<CoreStatement>),
    /// 6.8.5.2
    Do(Box<CoreStatement>, CoreExpr),
    /// A `for` behind its first part: the condition, the step and the body (6.8.5.3).
    For(CoreExpr, CoreExpr, Box<CoreStatement>),
    /// A block that is entered at the first label with the value, or else at the default, or not at all (6.8.4.2).
    Switch(CoreExpr, Vec<Local>, Vec<CoreStatement>, Vec<Case>, Option<u32>),
    /// 6.8.6.3
    Break,
    /// 6.8.6.2
    Continue,
    /// `return` without a value (6.8.6.4).
    Return,
    /// A scalar is returned (6.8.6.4p3).
    ReturnValue(CoreExpr),
    /// A structure of that many bytes is copied to the caller's value object (6.8.6.4p3).
    ReturnWhole(u32, CoreExpr),
}
