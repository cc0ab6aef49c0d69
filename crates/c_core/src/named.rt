//! How objects and functions are named in the core tree.
use critical_table::Pos;

/// The number of library functions: the names of Annex K that a unit may call, then those of clause 7.
pub const LIBRARY_FUNCTIONS: u16 = 53;

/// An object that a name or a string literal designates.
#[derive(Clone, Copy, Debug, PartialEq, Eq)]
pub enum ObjectName {
    /// An automatic object, by its slot in the function's frame: a parameter by its number, from 0; a local object by
    /// the slot that its block gives it.
    Slot(u32),
    /// A static object, by the place of its name where the unit first declares it; a string literal by the place of its
    /// first token.
    Static(Pos),
}

/// A function that a name designates.
#[derive(Clone, Copy, Debug, PartialEq, Eq)]
pub enum FunctionName {
    /// A function of the unit, by the place of its name where the unit first declares it.
    Unit(Pos),
    /// A library function, by its number from 0.
    Library(u16),
}
