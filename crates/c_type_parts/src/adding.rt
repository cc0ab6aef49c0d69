//! Members join those of their structure or union.

ghost use Rattle.std.specs.Prelude.{◌≡◌, IfOk};
ghost use Rattle.c_types.specs.CType.{type_of};
ghost use Rattle.c_core.specs.Ids.{IdIn};
ghost use Rattle.c_scopes.specs.Env.{ScopesIn, env_of};
ghost use Rattle.c_syntax.specs.View.{declarator_of};
ghost use Rattle.c_type_parts.specs.Declaring as spec;
ghost use Rattle.c_type_parts.specs.Seen.{AnswersMore, MembersIn, members_of};
ghost use Rattle.c_type_parts.specs.Shapes as shape;

use crate::parameters::name_in;
use c_core::TypeFault;
use c_scopes::Scopes;
use c_syntax::Declarator;
use c_type_rules::{MemberList, NamedType};
use c_types::{TypeId, TypeTable};
use critical_table::{Name, Pos};
use std::alloc::{AllocError, Global};

/// A declarator of a member, with the type of its specifiers, or with the type that it makes of that one.
#[derive(Clone, Copy)]
pub struct MemberSite<'a> {
    pub declarator: &'a Declarator,
    pub of: TypeId,
}

// The place of the declared name; the first one where it is omitted.
fn member_place(declarator: &Declarator) -> Pos
    ensures { result ≡ shape.own_place (declarator_of declarator.now) shape.start }
{
    match name_in(declarator) {
        Some(named) => named.pos,
        None => Pos { line: 1, column: 1 },
    }
}

// The declared name; empty where it is omitted.
fn member_name(alloc: Global, declarator: &Declarator) -> Result<Name, AllocError>
    ensures { IfOk result (λ name. name ≡ spec.name_or_none (shape.name_in (declarator_of declarator.now))) }
{
    match name_in(declarator) {
        Some(named) => Name::new(alloc, named.name.bytes()),
        None => Name::new(alloc, b""),
    }
}

/// One more member, of this type (6.7.2.1p3, 6.2.3).
///
/// Constraint 7 where the type is incomplete, 9 where it is an array whose length was left out, 11 where it is a
/// function, or where the name was given before.
pub fn add_member(
    scopes: &Scopes,
    types: &TypeTable,
    all: &mut MemberList,
    member: MemberSite<'_>,
) -> Result<(), TypeFault>
    requires here { ScopesIn types.now scopes.now }
    requires all { MembersIn types.now all.old }
    requires of { IdIn types.now member.of }
    ensures { AnswersMore (spec.member_added (shape.own_place (declarator_of member.entry.declarator.now) shape.start)
        (spec.name_or_none (shape.name_in (declarator_of member.entry.declarator.now)))
        (type_of types.now member.entry.of) (members_of types.now all.old) (env_of scopes.now types.now)) all.new
        types.now scopes.now types.now result }
{
    let name = match member_name(scopes.alloc(), member.declarator) {
        Ok(name) => name,
        Err(cause) => return Err(TypeFault::Memory(cause)),
    };
    let named = NamedType {
        name,
        of: member.of,
    };
    all.push(types, member_place(member.declarator), named)
}
