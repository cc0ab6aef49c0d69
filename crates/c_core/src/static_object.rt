//! Static objects and string literals, with their contents.
use crate::named::FunctionName;
use acc_num::IntKind;
use critical_table::Pos;

/// Why bytes of an object may not be stored to: they belong to a string literal (6.4.5p7) or are const (6.7.3p6).
#[derive(Clone, Copy, Debug, PartialEq, Eq)]
pub enum Mark {
    Literal,
    Const,
}

/// So many bytes of an object, from a byte on, with their mark.
#[derive(Clone, Copy, Debug, PartialEq, Eq)]
pub struct Seal {
    pub at: u32,
    pub len: u32,
    pub mark: Mark,
}

/// The bytes of an object that a pointer may designate: from the first on, up to the second.
#[derive(Clone, Copy, Debug, PartialEq, Eq)]
pub struct Bounds {
    pub low: u32,
    pub high: u32,
}

/// An address constant (6.6p9): a static object, by its token, and the byte in it. Without bounds it has those of the
/// object.
#[derive(Clone, Copy, Debug, PartialEq, Eq)]
pub struct Address {
    pub object: Pos,
    pub offset: u32,
    pub bounds: Option<Bounds>,
}

/// What an item of a static object's initializer stores.
#[derive(Drop)]
pub enum StaticValue {
    Number(IntKind, i128),
    Null,
    Address(Address),
    Function(FunctionName),
    /// The bytes of a string literal.
    Bytes(Vec<u8>),
}

/// An item of a static object's initializer, and the byte of the object where its value begins.
#[derive(Drop)]
pub struct StaticItem {
    pub at: u32,
    pub value: StaticValue,
}

/// A static object (6.2.4p3), a string literal among them. Its bytes are zero but for the items, of which a later one
/// overrides an earlier one (6.7.9p10, p19, p21).
#[derive(Drop)]
pub struct CoreStatic {
    /// The place of its name where the unit first declares it; of a string literal that of its first token.
    pub token: Pos,
    pub size: u32,
    pub items: Vec<StaticItem>,
    pub seals: Vec<Seal>,
}
