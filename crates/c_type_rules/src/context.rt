//! Where declaration specifiers stand.

/// What specifiers belong to (6.7, 6.7.2.1, 6.7.6.3, 6.7.7, 6.8.5.3, 6.9).
#[derive(Clone, Copy, Debug, PartialEq, Eq)]
pub enum Setting {
    /// A declaration outside of functions.
    File,
    /// The definition of a function.
    Definition,
    /// A declaration in a block.
    Block,
    /// A declaration in the first part of a `for`.
    For,
    Parameter,
    Member,
    TypeName,
}

/// What is to be known around specifiers before they are looked at.
#[derive(Clone, Copy, Debug, PartialEq, Eq)]
pub struct Context {
    pub setting: Setting,
    /// Each declarator behind them declares a function.
    pub functions: bool,
    /// No declarator stands behind them: `struct s;` declares a tag of this scope (6.7.2.3p7).
    pub alone: bool,
}
