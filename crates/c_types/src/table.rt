//! The table of types: how pointers, arrays and enumerated types are made, and what an id stands for.

ghost use Rattle.std.specs.Prelude.{◌≡◌, ◌<◌, ◌≤◌, [], length, IfOk, IfSome, OnErr, MatchOption, option_map};
ghost use Rattle.c_types.specs.declared.layout.Layout.{Layout};
ghost use Rattle.c_types.specs.declared.shape.Shape.{Shape};
ghost use Rattle.c_types.specs.declared.parts.Made.{Made};
ghost use Rattle.c_types.specs.Types.{count_of};
ghost use Rattle.c_types.specs.CType.{Plain, Array, BasicType, Pointer, Enumerated, quals_of, type_of, type_with};
ghost use Rattle.c_types.specs.CType.{all_types, no_quals};
ghost use Rattle.c_types.specs.Shapes.{RefersBelow, ShowsType, entry_at};
ghost use Rattle.c_types.specs.PartCount.{part_count, most_parts};
ghost use Rattle.c_types.specs.Structures.{structure_at, structures_of, body_has_const, has_const};
ghost use Rattle.c_types.specs.Layouts.{layout_of, structure_layout, array_fault, IsBuilt};
ghost use Rattle.c_types.specs.Inner.{KeepsLayout, basics};
ghost use Rattle.c_types.specs.Making.{MakesType, MakesEnumerated};
ghost use Rattle.c_types.specs.Qualified.{MakesMore};

use crate::basic::Basic;
use crate::fault::BuildFault;
use crate::layout::{Layout, array_layout};
use crate::parts::{CompoundType, MOST_PARTS, Made, Signature};
use crate::shape::{Quals, Shape, TypeId};
use std::alloc::{AllocError, Global};
use std::marker::Model;

/// The types of a unit. Contracts see what it has made, in order, and by `structures_of` its structures and unions.
///
/// No type has more than 4,096 parts, each counted as often as it stands in it: a call that would make one answers want
/// of memory. So a walk through the parts of a type is no deeper and no longer than that.
#[derive(Drop)]
pub struct TypeTable {
    pub(crate) alloc: Global,
    pub(crate) made: Vec<Made>,
    pub(crate) functions: Vec<Signature>,
    pub(crate) compounds: Vec<CompoundType>,
    pub(crate) enumerations: u64,
}

impl Model for TypeTable {
    ghost use Rattle.c_types.specs.Types.{Types};

    ghost Value = { Types };

    ghost use Rattle.c_types.specs.Inner.{types_of};

    ghost view = { types_of };

    ghost use Rattle.c_types.specs.Inner.{IsSoundInside};

    ghost invariant = { IsSoundInside };
}

impl TypeTable {
    /// A table of the basic types alone.
    pub fn new(alloc: Global) -> Result<TypeTable, AllocError>
        ensures { IfOk result (λ table. table
            ≡ record { made = basics; functions = []; compounds = []; enumerations = 0 }) }
    {
        let made = Vec::from_slice(alloc, &Made::basics())?;
        Ok(TypeTable {
            alloc,
            made,
            functions: Vec::new(alloc),
            compounds: Vec::new(alloc),
            enumerations: 0,
        })
    }

    /// The allocator by which the table grows.
    pub fn alloc(&self) -> Global {
        self.alloc
    }

    // One more type, unless it has too many parts.
    pub(crate) fn push(&mut self, next: Made) -> Result<TypeId, AllocError>
        requires refers { RefersBelow self.old (count_of self.old) next.shape }
        requires layout { KeepsLayout next.shape next.layout
            (type_with self.old.functions (all_types self.old) next.shape next.quals) (structures_of self.old) }
        requires parts { next.parts
            ≡ part_count (type_with self.old.functions (all_types self.old) next.shape next.quals) }
        ensures made { IfOk result (λ id. MakesType self.old self.new id
            (type_with self.old.functions (all_types self.old) next.shape next.quals)) }
        ensures more { MakesMore self.old self.new }
        ensures err { OnErr result (self.new ≡ self.old) }
    {
        if next.parts > MOST_PARTS {
            return Err(AllocError);
        }
        let id = TypeId(self.made.len() as u64);
        self.made.push(next)?;
        Ok(id)
    }

    /// A pointer to that type (6.2.5p20), unqualified.
    pub fn pointer(&mut self, to: TypeId) -> Result<TypeId, AllocError>
        requires { to.0 < count_of self.old }
        ensures made { IfOk result
            (λ id. MakesType self.old self.new id (Plain (Pointer (type_of self.old to)) no_quals)) }
        ensures err { OnErr result (self.new ≡ self.old) }
    {
        self.push_pointer(to, Quals::NONE)
    }

    // A pointer with these qualifiers.
    pub(crate) fn push_pointer(&mut self, to: TypeId, quals: Quals) -> Result<TypeId, AllocError>
        requires { to.0 < count_of self.old }
        ensures made { IfOk result
            (λ id. MakesType self.old self.new id (Plain (Pointer (type_of self.old to)) quals)) }
        ensures more { MakesMore self.old self.new }
        ensures err { OnErr result (self.new ≡ self.old) }
    {
        let parts = self.parts(to) + 1;
        self.push(Made {
            shape: Shape::Pointer(to),
            quals,
            layout: Some(Layout::POINTER),
            parts,
        })
    }

    /// An enumerated type (6.7.2.2), which is none of those that are there.
    pub fn enumerated(&mut self) -> Result<TypeId, AllocError>
        ensures made { IfOk result (λ id. MakesEnumerated self.old self.new id) }
        ensures err { OnErr result (self.new ≡ self.old) }
    {
        let number = self.enumerations;
        let Some(enumerations) = number.checked_add(1) else {
            return Err(AllocError);
        };
        let id = TypeId(self.made.len() as u64);
        self.made.push(Made {
            shape: Shape::Enumerated(number),
            quals: Quals::NONE,
            layout: Some(Layout::INT),
            parts: 1,
        })?;
        self.enumerations = enumerations;
        Ok(id)
    }

    /// An array of that length, or of none (6.2.5p20, 6.7.6.2).
    ///
    /// `Incomplete` comes exactly where the type of an element has no size, and else `TooLarge` where the array would
    /// have more than 16,777,216 bytes.
    pub fn array(&mut self, of: TypeId, length: Option<u64>) -> Result<TypeId, BuildFault>
        requires of { of.0 < count_of self.old }
        requires length { IfSome length (λ n. 0 < n) }
        ensures made { IfOk result (λ id. MakesType self.old self.new id (Array (type_of self.old of) length)) }
        ensures fault { IsBuilt (array_fault (layout_of (type_of self.old of) (structures_of self.old)) length) result }
        ensures err { OnErr result (self.new ≡ self.old) }
    {
        let layout = array_layout(self.layout(of), length)?;
        Ok(self.push_array(of, length, layout)?)
    }

    // An array of that length, which has this layout.
    pub(crate) fn push_array(
        &mut self,
        of: TypeId,
        length: Option<u64>,
        layout: Option<Layout>,
    ) -> Result<TypeId, AllocError>
        requires of { of.0 < count_of self.old }
        requires layout { KeepsLayout (Shape.Array of length) layout
            (Array (type_of self.old of) length) (structures_of self.old) }
        ensures made { IfOk result (λ id. MakesType self.old self.new id (Array (type_of self.old of) length)) }
        ensures more { MakesMore self.old self.new }
        ensures err { OnErr result (self.new ≡ self.old) }
    {
        let parts = self.parts(of) + 1;
        self.push(Made {
            shape: Shape::Array(of, length),
            quals: Quals::NONE,
            layout,
            parts,
        })
    }

    /// A basic type or `void`, unqualified.
    pub fn basic(&self, basic: Basic) -> TypeId
        ensures is_there { result.0 < count_of self.now }
        ensures stands_for { type_of self.now result ≡ Plain (BasicType basic) no_quals }
    {
        let _begins = &self.made;
        TypeId(Made::place(basic))
    }

    // What is kept for the type.
    pub(crate) fn entry(&self, id: TypeId) -> Made
        requires { id.0 < count_of self.now }
        ensures entry { result ≡ entry_at self.now id.0 }
        ensures shows { ShowsType self.now id result.shape }
        ensures layout { KeepsLayout result.shape result.layout (type_of self.now id) (structures_of self.now) }
        ensures parts { result.parts ≡ part_count (type_of self.now id) }
        ensures bound { result.parts ≤ most_parts }
    {
        self.made[id.0 as usize]
    }

    /// What the type is built of.
    pub fn shape(&self, id: TypeId) -> Shape
        requires { id.0 < count_of self.now }
        ensures { ShowsType self.now id result }
    {
        self.entry(id).shape
    }

    /// How many parts the type has, each counted as often as it stands in it.
    ///
    /// A structure, union or enumerated type is one part. There are at most 4,096.
    pub fn parts(&self, id: TypeId) -> u32
        requires { id.0 < count_of self.now }
        ensures count { result ≡ part_count (type_of self.now id) }
        ensures bound { result ≤ most_parts }
    {
        self.entry(id).parts
    }

    /// The qualifiers of the type; of an array those of its elements (6.7.3p9).
    pub fn quals(&self, id: TypeId) -> Quals
        requires { id.0 < count_of self.now }
        ensures { result ≡ quals_of (type_of self.now id) }
    {
        let mut at = id;
        while let Some(of) = self.element(at) {
            at = of;
        }
        self.entry(at).quals
    }

    // The type of an array's elements; of another type none, and its qualifiers are its own.
    fn element(&self, id: TypeId) -> Option<TypeId>
        requires { id.0 < count_of self.now }
        ensures { MatchOption result (quals_of (type_of self.now id) ≡ (entry_at self.now id.0).quals)
            (λ of. (of.0 < id.0) × (quals_of (type_of self.now id) ≡ quals_of (type_of self.now of))) }
    {
        match self.shape(id) {
            Shape::Array(of, _) => Some(of),
            Shape::Basic(_) => None,
            Shape::Pointer(_) => None,
            Shape::Function(_) => None,
            Shape::Compound(_) => None,
            Shape::Enumerated(_) => None,
        }
    }

    /// The size and the alignment of the type.
    ///
    /// None for `void`, a function type, an incomplete compound type and an array without a length.
    pub fn layout(&self, id: TypeId) -> Option<Layout>
        requires { id.0 < count_of self.now }
        ensures { result ≡ layout_of (type_of self.now id) (structures_of self.now) }
    {
        let entry = self.entry(id);
        match entry.shape {
            Shape::Compound(number) => self.compound_layout(number),
            _ => entry.layout,
        }
    }

    fn compound_layout(&self, number: u64) -> Option<Layout>
        requires { number < length self.now.compounds }
        ensures { result ≡ structure_layout (structure_at (structures_of self.now) number) }
    {
        match &self.compounds[number as usize].body {
            Some(body) => Some(body.layout),
            None => None,
        }
    }

    /// The size in bytes (6.5.3.4p2).
    ///
    /// None where the type has no layout.
    pub fn size_of(&self, id: TypeId) -> Option<u32>
        requires { id.0 < count_of self.now }
        ensures { result ≡ option_map (λ (l : Layout). l.size)
            (layout_of (type_of self.now id) (structures_of self.now)) }
    {
        Some(self.layout(id)?.size)
    }

    /// The alignment in bytes (6.2.8p1, 6.5.3.4p3).
    ///
    /// None where the type has no layout.
    pub fn align_of(&self, id: TypeId) -> Option<u32>
        requires { id.0 < count_of self.now }
        ensures { result ≡ option_map (λ (l : Layout). l.align)
            (layout_of (type_of self.now id) (structures_of self.now)) }
    {
        Some(self.layout(id)?.align)
    }

    /// An object of the type is const, or has a const member at any depth (6.3.2.1p1); of an array its elements.
    pub fn has_const(&self, id: TypeId) -> bool
        requires { id.0 < count_of self.now }
        ensures { result ≡ has_const (type_of self.now id) (structures_of self.now) }
    {
        let entry = self.entry(id);
        match entry.shape {
            Shape::Array(of, _) => self.has_const(of),
            Shape::Compound(number) => entry.quals.constant || self.has_const_member(number),
            Shape::Basic(_) | Shape::Pointer(_) | Shape::Function(_) | Shape::Enumerated(_) => {
                entry.quals.constant
            }
        }
    }

    // The structure or union of that number has a const member at any depth.
    fn has_const_member(&self, number: u64) -> bool
        requires { number < length self.now.compounds }
        ensures { result ≡ body_has_const (structure_at (structures_of self.now) number).body }
    {
        match &self.compounds[number as usize].body {
            Some(body) => body.has_const,
            None => false,
        }
    }
}
