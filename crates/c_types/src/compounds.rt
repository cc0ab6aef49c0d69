//! Structures and unions: how they are made and completed, and their members.

ghost use Rattle.std.specs.Prelude.{◌≡◌, ℕ, ◌<◌, Some, None, All, length, map, IfOk, IfErr, IfSome, OnOk, OnErr};
ghost use Rattle.std.specs.Prelude.{option_map};
ghost use Rattle.c_types.specs.declared.member.Member.{Member};
ghost use Rattle.c_types.specs.declared.shape.TypeId.{TypeId};
ghost use Rattle.c_types.specs.Types.{CompoundBody, count_of};
ghost use Rattle.c_types.specs.CType.{type_of, all_types};
ghost use Rattle.c_types.specs.Structures.{IsIncomplete, structures_of, any_const, members_of, typed_member};
ghost use Rattle.c_types.specs.Structures.{typed_member_named};
ghost use Rattle.c_types.specs.Compounds.{IsCompound, IsBodyOf, Completes, with_body, number_in, parts_at};
ghost use Rattle.c_types.specs.Compounds.{MakesCompound, compound_at, members_at, member_named};
ghost use Rattle.c_types.specs.Layouts.{layouts_of, compound_fault, IsForWant, IsBuilt};
ghost use Rattle.c_types.specs.Making.{Grows};
ghost use Rattle.c_types.specs.Inner.{compound_of, body_of, HasMembersIn};

use crate::fault::{BuildFault, LayoutFault};
use crate::layout::Layout;
use crate::member::Member;
use crate::parts::{Body, CompoundType, Made};
use crate::placing::{members_with, places_with, size_with, strictest};
use crate::shape::{Shape, TypeId};
use crate::table::TypeTable;
use critical_table::Name;
use std::alloc::AllocError;

impl TypeTable {
    /// An incomplete structure or union (6.7.2.3p5), which is none of those that are there.
    pub fn compound(&mut self, is_union: bool) -> Result<TypeId, AllocError>
        ensures made { IfOk result (λ id. MakesCompound self.old self.new id is_union) }
        ensures err { OnErr result (self.new ≡ self.old) }
    {
        let number = self.compounds.len() as u64;
        let id = TypeId(self.made.len() as u64);
        self.made.push(Made::plain(Shape::Compound(number), 1))?;
        let parts = CompoundType {
            is_union,
            body: None,
        };
        if self.compounds.push(parts).is_err() {
            self.made.pop();
            return Err(AllocError);
        }
        Ok(id)
    }

    /// Gives an incomplete structure or union its members, which have these names and types (6.7.2.1p15 to p17).
    ///
    /// `Incomplete` comes exactly where the type of a member has no size, and else `TooLarge` where the type would
    /// have more than 16,777,216 bytes.
    pub fn complete(
        &mut self,
        id: TypeId,
        names: &[Name],
        types: &[TypeId],
    ) -> Result<(), BuildFault>
        requires is_there { id.0 < count_of self.old }
        requires incomplete { IsIncomplete (type_of self.old id) (structures_of self.old) }
        requires types { All (λ (id : TypeId). id.0 < count_of self.old) types.now }
        requires pairs { length types.now ≡ length names.now }
        requires some { 0 < length names.now }

        ensures ok { OnOk result (Completes self.old self.new id names.now types.now) }
        ensures fault { IsBuilt (compound_fault (compound_at self.old (type_of self.old id)).is_union
            (layouts_of self.old types.now)) result }
        ensures err { OnErr result (self.new ≡ self.old) }
    {
        let number = self.incomplete_number(id);
        let body = self.body(self.is_union(id), names, types)?;
        self.set_body(number, body);
        Ok(())
    }

    // The members in order, and the layout of a type that has them.
    #[tactic(auto, using(crate::proofs::Members::all_members_with))]
    fn body(&self, is_union: bool, names: &[Name], types: &[TypeId]) -> Result<Body, BuildFault>
        requires types { All (λ (id : TypeId). id.0 < count_of self.now) types.now }
        requires pairs { length types.now ≡ length names.now }
        ensures body { IfOk result (λ body. IsBodyOf self.now is_union names.now types.now (body_of body)) }
        ensures members { IfOk result (λ body. All (λ (m : Member). m.of.0 < count_of self.now) body.members.items) }
        ensures fault { IsBuilt (compound_fault is_union (layouts_of self.now types.now)) result }
    {
        let layouts = self.layouts(types)?;
        let size = size_with(is_union, &layouts)?;
        let places = places_with(self.alloc, is_union, &layouts)?;
        let members = members_with(self.alloc, names, types, &places)?;
        let align = strictest(&layouts);
        let has_const = self.any_const(types);
        Ok(Body {
            members,
            layout: Layout { size, align },
            has_const,
        })
    }

    // One of the types is const, or has a const member at any depth.
    fn any_const(&self, types: &[TypeId]) -> bool
        requires { All (λ (id : TypeId). id.0 < count_of self.now) types.now }
        ensures { result ≡ any_const (map (type_of self.now) types.now) (structures_of self.now) }
    {
        for id in types {
            if self.has_const(*id) {
                return true;
            }
        }
        false
    }

    // The number of a structure or union that has no members yet.
    fn incomplete_number(&self, id: TypeId) -> u64
        requires is_there { id.0 < count_of self.now }
        requires incomplete { IsIncomplete (type_of self.now id) (structures_of self.now) }
        ensures compound { IsCompound (type_of self.now id) }
        ensures number { result ≡ number_in (type_of self.now id) }
        ensures below { result < length self.now.compounds }
        ensures parts { compound_at self.now (type_of self.now id) ≡ parts_at self.now result }
        ensures none { (parts_at self.now result).body ≡ None }
    {
        match self.shape(id) {
            Shape::Compound(number) => number,
            _ => unreachable!(),
        }
    }

    // Gives an incomplete structure or union its body.
    fn set_body(&mut self, number: u64, body: Body)
        requires is_there { number < length self.old.compounds }
        requires incomplete { (parts_at self.old number).body ≡ None }
        requires members { All (λ (m : Member). m.of.0 < count_of self.old) body.members.items }
        ensures changed { self.new ≡ with_body self.old number (record {
          is_union = (parts_at self.old number).is_union;
          body = Some (body_of body);
        }) }
        ensures grows { Grows self.old self.new }
    {
        self.compounds[number as usize].body = Some(body);
    }

    // The layouts of some types.
    //
    // `Incomplete` comes exactly where one has none.
    fn layouts(&self, types: &[TypeId]) -> Result<Vec<Layout>, BuildFault>
        requires { All (λ (id : TypeId). id.0 < count_of self.now) types.now }
        ensures found { IfOk result (λ layouts. layouts_of self.now types.now ≡ Some layouts.items) }
        ensures count { IfOk result (λ layouts. length layouts.items ≡ length types.now) }
        ensures fault { IfErr result (IsForWant (layouts_of self.now types.now)) }
    {
        let mut layouts = Vec::new(self.alloc);
        for id in types {
            match self.layout(*id) {
                Some(layout) => layouts.push(layout)?,
                None => return Err(BuildFault::Layout(LayoutFault::Incomplete)),
            }
        }
        Ok(layouts)
    }

    // The parts of a structure or union. Its members are types of the table.
    fn compound_parts(&self, id: TypeId) -> &CompoundType
        requires is_there { id.0 < count_of self.now }
        requires compound { IsCompound (type_of self.now id) }
        ensures parts { compound_of result.now ≡ compound_at self.now (type_of self.now id) }
        ensures members { HasMembersIn self.now (compound_of result.now) }
    {
        match self.shape(id) {
            Shape::Compound(number) => &self.compounds[number as usize],
            _ => unreachable!(),
        }
    }

    /// The type is a union and no structure.
    pub fn is_union(&self, id: TypeId) -> bool
        requires is_there { id.0 < count_of self.now }
        requires compound { IsCompound (type_of self.now id) }
        ensures { result ≡ (compound_at self.now (type_of self.now id)).is_union }
    {
        self.compound_parts(id).is_union
    }

    /// The members of a structure or union, in order; none while it is incomplete.
    pub fn members(&self, id: TypeId) -> Option<&[Member]>
        requires is_there { id.0 < count_of self.now }
        requires compound { IsCompound (type_of self.now id) }
        ensures are_there { IfSome result
            (λ members. All (λ (m : Member). m.of.0 < count_of self.now) members.now) }
        ensures typed { IfSome result (λ members. map (typed_member (all_types self.now)) members.now
            ≡ members_of (type_of self.now id) (structures_of self.now)) }
        ensures members { option_map (λ members. members.now) result
            ≡ option_map (λ (body : CompoundBody). body.members) (compound_at self.now (type_of self.now id)).body }
    {
        match &self.compound_parts(id).body {
            Some(body) => Some(body.members.as_slice()),
            None => None,
        }
    }

    /// The type of the member of that name, and the byte at which it begins (6.5.2.3p3).
    ///
    /// None exactly where the type has no such member.
    pub fn member(&self, id: TypeId, name: &Name) -> Option<(TypeId, u32)>
        requires { id.0 < count_of self.now }
        ensures is_there { IfSome result (λ member. member.0.0 < count_of self.now) }
        ensures typed { option_map (λ (member : TypeId × ℕ). (type_of self.now member.0, member.1)) result
            ≡ typed_member_named (members_of (type_of self.now id) (structures_of self.now)) name.now }
        ensures member { result ≡ member_named (members_at self.now (type_of self.now id)) name.now }
    {
        match self.shape(id) {
            Shape::Compound(_) => find_member(self.members(id)?, name),
            Shape::Basic(_) => None,
            Shape::Pointer(_) => None,
            Shape::Array(_, _) => None,
            Shape::Function(_) => None,
            Shape::Enumerated(_) => None,
        }
    }
}

// The first member of that name.
fn find_member(members: &[Member], name: &Name) -> Option<(TypeId, u32)>
    ensures { result ≡ member_named members.now name.now }
{
    for member in members {
        if member.name == *name {
            return Some((member.of, member.at));
        }
    }
    None
}
