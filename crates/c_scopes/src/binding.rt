//! What a name stands for.

ghost use Rattle.std.specs.Prelude.{◌≡◌};
ghost use Rattle.c_scopes.specs.Scopes.{is_tag};

use c_core::{FunctionName, ObjectName};
use c_types::TypeId;

/// Whether other declarations of a name stand for the same object or function (6.2.2).
#[derive(Clone, Copy, Debug, PartialEq, Eq)]
pub enum Linkage {
    None,
    Internal,
    External,
}

/// How far the declarations so far define an object (6.7p5, 6.9.2).
#[derive(Clone, Copy, Debug, PartialEq, Eq)]
pub enum Standing {
    Declared,
    /// By tentative definitions alone (6.9.2p2).
    Tentative,
    Defined,
}

/// A declared object, without its type.
#[derive(Clone, Copy, Debug, PartialEq, Eq)]
pub struct DeclaredObject {
    /// The name of the object in the core tree.
    pub name: ObjectName,
    /// It was declared with `register`, so it has no address (6.7.1p6).
    pub register: bool,
    pub linkage: Linkage,
    pub standing: Standing,
}

/// A declared function, without its type.
#[derive(Clone, Copy, Debug, PartialEq, Eq)]
pub struct DeclaredFunction {
    /// The name of the function in the core tree.
    pub name: FunctionName,
    pub linkage: Linkage,
    /// A definition of it has begun (6.9.1).
    pub is_defined: bool,
}

/// How far the type of a tag is defined by the specifiers so far (6.7.2.3).
#[derive(Clone, Copy, Debug, PartialEq, Eq)]
pub enum TagState {
    /// No specifier has had a body.
    Declared,
    /// A body has begun and not ended: the type is incomplete, and may have no second body (6.7.2.3p1).
    Begun,
    /// The body has ended.
    Complete,
}

/// What a name stands for (6.2.1p1).
#[derive(Clone, Copy, Debug)]
pub enum Binding {
    Object(TypeId, DeclaredObject),
    Function(TypeId, DeclaredFunction),
    /// 6.7.8
    Typedef(TypeId),
    /// An enumerator, or another name of a constant of an integer type, with its value (6.7.2.2p3, 7.1).
    Constant(TypeId, i128),
    /// A name of a null pointer constant of pointer type (6.3.2.3p3, 7.19p3).
    NullPointer(TypeId),
    /// The tag of a structure, union or enumeration (6.7.2.3).
    Tag(TypeId, TagState),
}

impl Binding {
    /// The binding is of a tag, and of no other name (6.2.3).
    pub fn is_tag(&self) -> bool
        ensures { result ≡ is_tag self.now }
    {
        match self {
            Binding::Tag(_, _) => true,
            _ => false,
        }
    }
}
