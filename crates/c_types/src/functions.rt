//! Function types: how they are made, and their parts.

ghost use Rattle.std.specs.Prelude.{◌≡◌, ◌<◌, ◌≤◌, All, IfOk, OnErr, MatchOption};
ghost use Rattle.c_types.specs.declared.shape.TypeId.{TypeId};
ghost use Rattle.c_types.specs.Types.{count_of};
ghost use Rattle.c_types.specs.CType.{Plain, Function, type_of, types_at, all_types, no_quals, bare_of};
ghost use Rattle.c_types.specs.PartCount.{function_count, most_parts};
ghost use Rattle.c_types.specs.Functions.{IsFunction, gives_of, parameters_of, variadic_of};
ghost use Rattle.c_types.specs.Making.{MakesType};
ghost use Rattle.c_types.specs.Composite.{AddsTypes};

use crate::parts::{MOST_PARTS, Made, Signature};
use crate::shape::{Quals, Shape, TypeId};
use crate::table::TypeTable;
use std::alloc::AllocError;

impl TypeTable {
    /// A function type (6.2.5p20, 6.7.6.3), unqualified.
    pub fn function(
        &mut self,
        gives: TypeId,
        parameters: &[TypeId],
        variadic: bool,
    ) -> Result<TypeId, AllocError>
        requires gives { gives.0 < count_of self.old }
        requires parameters { All (λ (p : TypeId). p.0 < count_of self.old) parameters.now }
        ensures made { IfOk result (λ id. MakesType self.old self.new id (Plain (Function
            (type_of self.old gives) (types_at (all_types self.old) parameters.now) variadic) no_quals)) }
        ensures more { IfOk result (λ _. AddsTypes self.old self.new) }
        ensures err { OnErr result (self.new ≡ self.old) }
    {
        let Some(parts) = self.function_parts(gives, parameters) else {
            return Err(AllocError);
        };
        let parameters = Vec::from_slice(self.alloc, parameters)?;
        let signature = Signature {
            gives,
            parameters,
            variadic,
        };
        self.push_function(signature, parts)
    }

    // How many parts a function type has; none where it would have too many.
    fn function_parts(&self, gives: TypeId, parameters: &[TypeId]) -> Option<u32>
        requires gives { gives.0 < count_of self.now }
        requires parameters { All (λ (p : TypeId). p.0 < count_of self.now) parameters.now }
        ensures { MatchOption result
            (most_parts < function_count (type_of self.now gives) (types_at (all_types self.now) parameters.now))
            (λ parts. (parts ≤ most_parts)
            × (parts ≡ function_count (type_of self.now gives) (types_at (all_types self.now) parameters.now))) }
    {
        let mut parts = self.parts(gives) + 1;
        for parameter in parameters {
            if parts > MOST_PARTS {
                return None;
            }
            parts += self.parts(*parameter);
        }
        if parts > MOST_PARTS {
            return None;
        }
        Some(parts)
    }

    // One more function type, which has so many parts.
    fn push_function(&mut self, signature: Signature, parts: u32) -> Result<TypeId, AllocError>
        requires gives { signature.gives.0 < count_of self.old }
        requires parameters { All (λ (p : TypeId). p.0 < count_of self.old) signature.parameters.items }
        requires count { parts ≡ function_count (type_of self.old signature.gives)
            (types_at (all_types self.old) signature.parameters.items) }
        requires bound { parts ≤ most_parts }
        ensures made { IfOk result (λ id. MakesType self.old self.new id (Plain (Function
            (type_of self.old signature.gives) (types_at (all_types self.old) signature.parameters.items)
            signature.variadic) no_quals)) }
        ensures more { IfOk result (λ _. AddsTypes self.old self.new) }
        ensures err { OnErr result (self.new ≡ self.old) }
    {
        let number = self.functions.len() as u64;
        let id = TypeId(self.made.len() as u64);
        self.made.push(Made::plain(Shape::Function(number), parts))?;
        if self.functions.push(signature).is_err() {
            self.made.pop();
            return Err(AllocError);
        }
        Ok(id)
    }

    // The parts of a function type.
    pub(crate) fn signature(&self, id: TypeId) -> &Signature
        requires is_there { id.0 < count_of self.now }
        requires function { IsFunction (type_of self.now id) }
        ensures parts { bare_of (type_of self.now id) ≡ Function (type_of self.now result.now.gives)
            (types_at (all_types self.now) result.now.parameters.items) result.now.variadic }
        ensures gives { result.now.gives.0 < id.0 }
        ensures parameters { All (λ (p : TypeId). p.0 < id.0) result.now.parameters.items }
    {
        match self.shape(id) {
            Shape::Function(number) => &self.functions[number as usize],
            _ => unreachable!(),
        }
    }

    /// The type of what a function gives.
    pub fn gives(&self, id: TypeId) -> TypeId
        requires is_there { id.0 < count_of self.now }
        requires function { IsFunction (type_of self.now id) }
        ensures stands_for { type_of self.now result ≡ gives_of (type_of self.now id) }
        ensures below { result.0 < id.0 }
    {
        self.signature(id).gives
    }

    /// The types of the parameters of a function, in order.
    pub fn parameters(&self, id: TypeId) -> &[TypeId]
        requires is_there { id.0 < count_of self.now }
        requires function { IsFunction (type_of self.now id) }
        ensures types { types_at (all_types self.now) result.now ≡ parameters_of (type_of self.now id) }
        ensures below { All (λ (p : TypeId). p.0 < id.0) result.now }
    {
        self.signature(id).parameters.as_slice()
    }

    /// The function takes more arguments than it has parameters.
    pub fn is_variadic(&self, id: TypeId) -> bool
        requires is_there { id.0 < count_of self.now }
        requires function { IsFunction (type_of self.now id) }
        ensures { result ≡ variadic_of (type_of self.now id) }
    {
        self.signature(id).variadic
    }
}
