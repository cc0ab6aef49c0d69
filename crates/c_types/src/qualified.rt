//! Types with more qualifiers, and without any.

ghost use Rattle.std.specs.Prelude.{◌≡◌, ◌<◌, IfOk, OnErr};
ghost use Rattle.c_types.specs.Types.{count_of};
ghost use Rattle.c_types.specs.CType.{type_of};
ghost use Rattle.c_types.specs.Making.{MakesType};
ghost use Rattle.c_types.specs.Qualified.{both_quals, with_quals, without_quals, MakesMore};
ghost use Rattle.c_types.specs.Composite.{AddsTypes};

use crate::compatible::same_quals;
use crate::parts::Made;
use crate::shape::{Quals, Shape, TypeId};
use crate::table::TypeTable;
use std::alloc::AllocError;

impl TypeTable {
    /// The type with these qualifiers beside those that it has; those of an array go to its elements (6.7.3p9).
    pub fn qualified(&mut self, id: TypeId, quals: Quals) -> Result<TypeId, AllocError>
        requires { id.0 < count_of self.old }
        ensures made { IfOk result
            (λ new. MakesType self.old self.new new (with_quals quals (type_of self.old id))) }
        ensures err { OnErr result (self.new ≡ self.old) }
    {
        let count = self.made.len();
        let made = self.qualify(id, quals);
        if made.is_err() {
            self.made.truncate(count);
        }
        made
    }

    // The same, where types of elements may be left over for want of memory.
    pub(crate) fn qualify(&mut self, id: TypeId, quals: Quals) -> Result<TypeId, AllocError>
        requires { id.0 < count_of self.old }
        ensures made { IfOk result
            (λ new. MakesType self.old self.new new (with_quals quals (type_of self.old id))) }
        ensures more { MakesMore self.old self.new }
    {
        let entry = self.entry(id);
        match entry.shape {
            Shape::Array(of, length) => {
                let of = self.qualify(of, quals)?;
                self.push_array(of, length, entry.layout)
            }
            _ => self.push(Made {
                quals: both_quals(entry.quals, quals),
                ..entry
            }),
        }
    }

    /// The unqualified version of the type (6.2.5p26), as a value has it (6.3.2.1p2).
    ///
    /// That of an array has the unqualified elements. A type without qualifiers is its own.
    pub fn unqualified(&mut self, id: TypeId) -> Result<TypeId, AllocError>
        requires { id.0 < count_of self.old }
        ensures made { IfOk result
            (λ new. MakesType self.old self.new new (without_quals (type_of self.old id))) }
        ensures more { IfOk result (λ _. AddsTypes self.old self.new) }
        ensures err { OnErr result (self.new ≡ self.old) }
    {
        if same_quals(self.quals(id), Quals::NONE) {
            return Ok(id);
        }
        let count = self.made.len();
        let made = self.strip(id);
        if made.is_err() {
            self.made.truncate(count);
        }
        made
    }

    // The same, where types of elements may be left over for want of memory.
    fn strip(&mut self, id: TypeId) -> Result<TypeId, AllocError>
        requires { id.0 < count_of self.old }
        ensures made { IfOk result
            (λ new. MakesType self.old self.new new (without_quals (type_of self.old id))) }
        ensures more { MakesMore self.old self.new }
    {
        let entry = self.entry(id);
        match entry.shape {
            Shape::Array(of, length) => {
                let of = self.strip(of)?;
                self.push_array(of, length, entry.layout)
            }
            _ => self.push(Made {
                quals: Quals::NONE,
                ..entry
            }),
        }
    }
}

// The qualifiers of both.
fn both_quals(left: Quals, right: Quals) -> Quals
    ensures { result ≡ both_quals left right }
{
    Quals {
        constant: left.constant || right.constant,
        volatile: left.volatile || right.volatile,
        restricted: left.restricted || right.restricted,
    }
}
