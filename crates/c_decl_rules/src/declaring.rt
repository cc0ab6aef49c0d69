//! How a name is declared, and what it stands for so far.

ghost use Rattle.std.specs.Prelude.{◌≡◌, IfSome};

use c_scopes::Binding;
use c_syntax::Storage;
use c_type_rules::Setting;
use c_types::TypeId;
use critical_table::Pos;

/// The words around a declared name (6.7, 6.9.1).
#[derive(Clone, Copy, Debug, PartialEq, Eq)]
pub struct Manner {
    pub setting: Setting,
    /// The storage word among the specifiers.
    pub storage: Option<Storage>,
    /// An initializer follows.
    pub initialized: bool,
}

/// How a name is declared.
#[derive(Clone, Copy, Debug)]
pub struct Declaring {
    pub manner: Manner,
    /// The type that its declarator gives it.
    pub of: TypeId,
    /// The place of the name.
    pub at: Pos,
    /// The slot that an automatic object gets.
    pub slot: u32,
}

/// What a name stands for where it is declared.
#[derive(Clone, Copy, Debug)]
pub struct Visible {
    pub binding: Option<Binding>,
    /// By a declaration of the same scope.
    pub here: bool,
}
