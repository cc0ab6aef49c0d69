//! Members, and structures and unions that get them.

ghost use Rattle.std.specs.Prelude.{◌≡◌, ◌<◌, ◌++◌, ◌∷◌, [], All, length, not, OnOk};
ghost use Rattle.c_types.specs.declared.shape.TypeId.{TypeId};
ghost use Rattle.c_types.specs.CType.{type_of};
ghost use Rattle.c_types.specs.Structures.{IsIncomplete, structures_of};
ghost use Rattle.c_types.specs.Types.{count_of};
ghost use Rattle.c_scopes.specs.Clauses.{Settles};
ghost use Rattle.c_type_rules.specs.Members as spec;
ghost use Rattle.c_type_rules.specs.Completing.{RulesBody};

use crate::arrays::is_without_length;
use crate::tags::is_compound;
use c_conversions::versions::is_function;
use c_core::TypeFault;
use c_types::{BuildFault, LayoutFault, TypeId, TypeTable};
use critical_table::{Name, Pos};
use std::alloc::{AllocError, Global};
use std::collections::BTreeSet;
use std::marker::Model;

/// A member's name and type.
#[derive(Drop)]
pub struct NamedType {
    pub name: Name,
    pub of: TypeId,
}

/// The members of a structure or union so far. Contracts see their names and their types, in order. Beside them stands
/// an ordered set of the names, since to go through them for each member would take long where there are many.
#[derive(Drop)]
pub struct MemberList {
    alloc: Global,
    names: Vec<Name>,
    types: Vec<TypeId>,
    given: BTreeSet<Name>,
}

impl Model for MemberList {
    ghost use Rattle.c_type_rules.specs.Completing.{MembersSoFar};

    ghost Value = { MembersSoFar };

    ghost view = { λ list. record { names = list.names.items; types = list.types.items } };

    ghost use Rattle.c_type_rules.specs.Completing.{IsKept};

    ghost invariant = { λ list. IsKept list.names.items list.types.items list.given };
}

impl MemberList {
    /// No members.
    pub fn new(alloc: Global) -> MemberList
        ensures { result ≡ record { names = []; types = [] } }
    {
        MemberList {
            alloc,
            names: Vec::new(alloc),
            types: Vec::new(alloc),
            given: BTreeSet::new(alloc),
        }
    }

    fn is_empty(&self) -> bool
        ensures { result ≡ not (spec.has_some self.now.names) }
    {
        self.names.is_empty()
    }

    // The name is that of a member.
    fn is_given(&self, name: &Name) -> bool
        ensures { result ≡ spec.is_among name.now self.now.names }
    {
        self.given.contains(name)
    }

    // One more member, whose name is new.
    fn add(&mut self, member: NamedType) -> Result<(), AllocError>
        ensures { OnOk result (self.new ≡ record {
          names = self.old.names ++ member.name ∷ [];
          types = self.old.types ++ member.of ∷ [];
        }) }
    {
        let key = Name::new(self.alloc, member.name.bytes())?;
        self.names.push(member.name)?;
        if self.types.push(member.of).is_err() {
            self.names.pop();
            return Err(AllocError);
        }
        if self.given.insert(key).is_err() {
            self.types.pop();
            self.names.pop();
            return Err(AllocError);
        }
        Ok(())
    }

    /// One more member (6.7.2.1p3, 6.2.3).
    ///
    /// Constraint 7 where its type is incomplete, 9 where it is an array whose length was left out, 11 where it is a
    /// function, or where the name was given before.
    pub fn push(&mut self, types: &TypeTable, pos: Pos, member: NamedType) -> Result<(), TypeFault>
        requires { member.of.0 < count_of types.now }
        ensures rule { Settles (spec.member_rule (structures_of types.now) self.old.names member.name
            (type_of types.now member.of)) pos result }
        ensures pushed { OnOk result (self.new ≡ record {
          names = self.old.names ++ member.name ∷ [];
          types = self.old.types ++ member.of ∷ [];
        }) }
    {
        member_type(types, pos, member.of, self.is_given(&member.name))?;
        self.add(member)?;
        Ok(())
    }
}

// The type of a member; `is_given` tells that its name was given before.
fn member_type(types: &TypeTable, pos: Pos, of: TypeId, is_given: bool) -> Result<(), TypeFault>
    requires { of.0 < count_of types.now }
    ensures { Settles (spec.member_type_rule (structures_of types.now) is_given (type_of types.now of)) pos result }
{
    if is_function(types, of) {
        return Err(TypeFault::Constraint(11, pos));
    }
    if is_without_length(types, of) {
        return Err(TypeFault::Constraint(9, pos));
    }
    if types.layout(of).is_none() {
        return Err(TypeFault::Constraint(7, pos));
    }
    if is_given {
        return Err(TypeFault::Constraint(11, pos));
    }
    Ok(())
}

/// A declaration of members without a declarator; `declares` tells that it declares a tag or enumerators (6.7.2.1p2).
///
/// Constraint 3 where it declares nothing, else 11.
pub fn no_member(pos: Pos, declares: bool) -> Result<(), TypeFault>
    ensures { Settles (spec.no_member_rule declares) pos result }
{
    if declares {
        return Err(TypeFault::Constraint(11, pos));
    }
    Err(TypeFault::Constraint(3, pos))
}

/// A structure or union whose body ends.
#[derive(Clone, Copy, Debug, PartialEq, Eq)]
pub struct EndedBody {
    /// Where its constraints are told.
    pub at: Pos,
    pub is_union: bool,
    pub of: TypeId,
}

/// The body of a structure or union may end (6.7.2.1p1, 6.7.2.3p1).
///
/// Constraint 1 where it has no member, 6 where the type is of another kind or has got its members before.
pub fn content(types: &TypeTable, body: EndedBody, members: &MemberList) -> Result<(), TypeFault>
    requires { body.of.0 < count_of types.now }
    ensures { Settles (spec.content_rule body.is_union members.now.names (type_of types.now body.of)
        (structures_of types.now)) body.at result }
{
    if members.is_empty() {
        return Err(TypeFault::Constraint(1, body.at));
    }
    if is_compound(types, body.is_union, body.of) && types.layout(body.of).is_none() {
        return Ok(());
    }
    Err(TypeFault::Constraint(6, body.at))
}

/// A structure or union gets its members (6.7.2.1p15 to p17).
///
/// Constraint 8 where it is too large, 7 where the type of a member is incomplete.
pub fn complete(
    types: &mut TypeTable,
    pos: Pos,
    id: TypeId,
    members: &MemberList,
) -> Result<(), TypeFault>
    requires is_there { id.0 < count_of types.old }
    requires incomplete { IsIncomplete (type_of types.old id) (structures_of types.old) }
    requires members { All (λ (m : TypeId). m.0 < count_of types.old) members.now.types }
    requires some { 0 < length members.now.names }
    ensures { RulesBody (type_of types.old id) members.now pos types.old types.new result }
{
    match types.complete(id, members.names.as_slice(), members.types.as_slice()) {
        Ok(()) => Ok(()),
        Err(BuildFault::Layout(LayoutFault::Incomplete)) => Err(TypeFault::Constraint(7, pos)),
        Err(BuildFault::Layout(LayoutFault::TooLarge)) => Err(TypeFault::Constraint(8, pos)),
        Err(BuildFault::Memory(cause)) => Err(TypeFault::Memory(cause)),
    }
}
