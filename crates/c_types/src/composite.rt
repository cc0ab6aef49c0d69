//! The composite of compatible types, and its laws.

ghost use Rattle.std.specs.Prelude.{◌≡◌, ◌<◌, true, false, IfOk, OnErr};
ghost use Rattle.c_types.specs.Types.{count_of};
ghost use Rattle.c_types.specs.CType.{CType, type_of};
ghost use Rattle.c_types.specs.Functions.{IsFunction, parameters_of};
ghost use Rattle.c_types.specs.Making.{MakesType};
ghost use Rattle.c_types.specs.Compatible.{compatible, agree, all_agree};
ghost use Rattle.c_types.specs.Composite.{composite_of, all_composites, AddsTypes, MakesTypes};

use crate::shape::{Shape, TypeId};
use crate::table::TypeTable;
use std::alloc::AllocError;

impl TypeTable {
    /// The composite type of two compatible types (6.2.7p3).
    ///
    /// An array has the length that either gives. A parameter has the unqualified version of its type (6.7.6.3p15).
    pub fn composite(&mut self, a: TypeId, b: TypeId) -> Result<TypeId, AllocError>
        requires a { a.0 < count_of self.old }
        requires b { b.0 < count_of self.old }
        requires compatible { compatible (type_of self.old a) (type_of self.old b) ≡ true }
        ensures made { IfOk result (λ id. MakesType self.old self.new id
            (composite_of (type_of self.old a) (type_of self.old b))) }
        ensures err { OnErr result (self.new ≡ self.old) }
    {
        let (made, functions) = (self.made.len(), self.functions.len());
        let composite = self.compose(a, b);
        if composite.is_err() {
            self.made.truncate(made);
            self.functions.truncate(functions);
        }
        composite
    }

    // The same for types that may differ in their outermost qualifiers, where types of parts may be left over for want
    // of memory.
    #[cycle(compose)]
    #[tactic(auto, unfolding(crate::specs::Compatible::agree, crate::specs::Compatible::bare_agree, crate::specs::Composite::composite_of, crate::specs::Composite::bare_composite))]
    fn compose(&mut self, a: TypeId, b: TypeId) -> Result<TypeId, AllocError>
        requires a { a.0 < count_of self.old }
        requires b { b.0 < count_of self.old }
        requires compatible { agree (type_of self.old a) (type_of self.old b) false ≡ true }
        ensures made { IfOk result (λ id. MakesType self.old self.new id
            (composite_of (type_of self.old a) (type_of self.old b))) }
        ensures more { AddsTypes self.old self.new }
    {
        let (left, right) = (self.entry(a), self.entry(b));
        match left.shape {
            Shape::Pointer(to) => match right.shape {
                Shape::Pointer(other) => {
                    let to = self.compose(to, other)?;
                    self.push_pointer(to, left.quals)
                }
                _ => Ok(a),
            },
            Shape::Array(of, length) => match right.shape {
                Shape::Array(other, other_length) => {
                    let of = self.compose(of, other)?;
                    match length {
                        Some(_) => self.push_array(of, length, left.layout),
                        None => self.push_array(of, other_length, right.layout),
                    }
                }
                _ => Ok(a),
            },
            Shape::Function(_) => match right.shape {
                Shape::Function(_) => self.compose_functions(a, b),
                _ => Ok(a),
            },
            Shape::Basic(_) | Shape::Compound(_) | Shape::Enumerated(_) => Ok(a),
        }
    }

    // The composite of function types.
    #[cycle(compose)]
    #[tactic(auto, unfolding(crate::specs::Composite::composite_of, crate::specs::Composite::bare_composite))]
    fn compose_functions(&mut self, a: TypeId, b: TypeId) -> Result<TypeId, AllocError>
        requires a { a.0 < count_of self.old }
        requires b { b.0 < count_of self.old }
        requires a_function { IsFunction (type_of self.old a) }
        requires b_function { IsFunction (type_of self.old b) }
        requires compatible { agree (type_of self.old a) (type_of self.old b) false ≡ true }
        ensures made { IfOk result (λ id. MakesType self.old self.new id
            (composite_of (type_of self.old a) (type_of self.old b))) }
        ensures more { AddsTypes self.old self.new }
    {
        let quals = self.quals(a);
        let variadic = self.is_variadic(a);
        let (given, other) = (self.gives(a), self.gives(b));
        let parameters = self.compose_parameters(a, b)?;
        let gives = self.compose(given, other)?;
        let bare = self.function(gives, &parameters, variadic)?;
        self.qualify(bare, quals)
    }

    // The composites of the parameters of function types, in order.
    #[cycle(compose)]
    fn compose_parameters(&mut self, a: TypeId, b: TypeId) -> Result<Vec<TypeId>, AllocError>
        requires a { a.0 < count_of self.old }
        requires b { b.0 < count_of self.old }
        requires a_function { IsFunction (type_of self.old a) }
        requires b_function { IsFunction (type_of self.old b) }
        requires compatible { all_agree (parameters_of (type_of self.old a)) (parameters_of (type_of self.old b))
            ≡ true }
        ensures made { IfOk result (λ ids. MakesTypes self.old self.new ids.items
            (all_composites (parameters_of (type_of self.old a)) (parameters_of (type_of self.old b)))) }
        ensures more { AddsTypes self.old self.new }
    {
        let left = Vec::from_slice(self.alloc, self.parameters(a))?;
        let right = Vec::from_slice(self.alloc, self.parameters(b))?;
        let mut made = Vec::new(self.alloc);
        for i in 0..left.len() {
            let id = self.compose(left[i], right[i])?;
            let bare = self.unqualified(id)?;
            made.push(bare)?;
        }
        Ok(made)
    }
}

/// A law of composite types: the composite of two compatible types is compatible with each of them (6.2.7p3).
pub fn composite_law()
    ensures first { (a b : CType) → compatible a b ≡ true → compatible (composite_of a b) a ≡ true }
    ensures second { (a b : CType) → compatible a b ≡ true → compatible (composite_of a b) b ≡ true }
{}
