//! Functions, static objects and called types of code.
use crate::sequence::Sequence;
use c_core::Form;
use critical_table::Name;
use lib_defs::ArgKind;
use run_defs::Seal;

/// A parameter of a function: the size of its object, and what is passed for it. A structure is passed by its place.
#[derive(Clone, Copy, Debug, PartialEq, Eq)]
pub struct Parameter {
    /// From 1 to 16,777,216 bytes; that of a number or pointer is its own.
    pub size: u32,
    /// A number, a pointer or a place.
    pub form: Form,
}

/// A function of the unit.
#[derive(Drop)]
pub struct CodeFunction {
    pub name: Name,
    /// The place of its first instruction.
    pub start: usize,
    pub parameters: Sequence<Parameter>,
    /// What a call of it gives.
    pub form: Form,
    /// The bytes of a structure that it gives.
    pub room: u32,
}

/// A static object.
#[derive(Drop)]
pub struct CodeObject {
    /// Its contents, from 1 to 16,777,216 bytes.
    pub bytes: Sequence<u8>,
    /// Its marks, which are set in this order.
    pub seals: Sequence<Seal>,
}

/// The type that a function is called through.
#[derive(Drop)]
pub struct CodeCalled {
    /// The numbers of the functions with a compatible type, of the unit and of the library, from 1.
    pub functions: Sequence<u32>,
    /// The forms of the arguments.
    pub arguments: Sequence<Form>,
    /// The kinds of the arguments, where the functions have one of the library.
    pub kinds: Sequence<ArgKind>,
    /// What a call gives.
    pub form: Form,
}
