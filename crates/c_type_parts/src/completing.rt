//! Structures and unions, and their tags, where a body ends.

ghost use Rattle.std.specs.Prelude.{◌≡◌, OnOk};
ghost use Rattle.c_types.specs.CType.{type_of};
ghost use Rattle.c_core.specs.Ids.{IdIn};
ghost use Rattle.c_scopes.specs.Env.{ScopesIn, env_of};
ghost use Rattle.c_type_parts.specs.Clauses.{AnswersUnit, Becomes};
ghost use Rattle.c_type_parts.specs.Seen.{MembersIn, members_of};
ghost use Rattle.c_type_parts.specs.Tagging as spec;

use crate::naming::bind_name;
use c_core::TypeFault;
use c_scopes::{Binding, Scopes, TagState};
use c_syntax::Tag;
use c_type_rules::{EndedBody, MemberList, complete, content};
use c_types::{TypeId, TypeTable};
use critical_table::Pos;
use std::alloc::AllocError;

/// A structure or union gets the members of its body (6.7.2.1p1, 6.7.2.3p1, p4).
///
/// Constraint 1 where it has no member, 6 where its type is of another kind or has got its members before, 8 where it
/// is too large, 7 where the type of a member is incomplete.
pub fn end_body(
    scopes: &Scopes,
    types: &mut TypeTable,
    body: EndedBody,
    members: &MemberList,
) -> Result<(), TypeFault>
    requires here { ScopesIn types.old scopes.now }
    requires is_in { IdIn types.old body.of }
    requires members { MembersIn types.old members.now }
    ensures { AnswersUnit (spec.body_ended body.is_union body.at (type_of types.old body.of)
        (members_of types.old members.now) (env_of scopes.now types.old)) types.old scopes.now types.new result }
{
    let _scopes = scopes;
    match content(types, body, members) {
        Err(fault) => Err(fault),
        Ok(()) => complete(types, body.at, body.of, members),
    }
}

/// The tag, if there is one, stands for a type whose body has ended (6.7.2.3p4).
#[tactic(auto, using(crate::proofs::Becoming::becomes_own))]
pub fn end_tag(
    scopes: &mut Scopes,
    types: &TypeTable,
    tag: &Option<Tag>,
    of: TypeId,
) -> Result<(), AllocError>
    requires here { ScopesIn types.now scopes.old }
    requires is_in { IdIn types.now of }
    ensures { OnOk result (Becomes (spec.tag_completed tag.now (type_of types.now of) (env_of scopes.old types.now))
        types.now scopes.new types.now) }
{
    match tag {
        None => Ok(()),
        Some(tag) => {
            bind_name(
                scopes,
                types,
                &tag.name,
                Binding::Tag(of, TagState::Complete),
            )
        }
    }
}

/// The place of a structure or union: that of its tag, or of its word where it has none.
pub fn compound_place(pos: Pos, tag: &Option<Tag>) -> Pos
    ensures { result ≡ spec.compound_place pos tag.now }
{
    match tag {
        None => pos,
        Some(tag) => tag.pos,
    }
}
