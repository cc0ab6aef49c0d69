//! Members of structures and unions (6.7.2.1).

ghost use Rattle.std.specs.Prelude.{map};
ghost use Rattle.c_types.specs.CType.{type_of};
ghost use Rattle.c_core.specs.Ids.{IdIn};
ghost use Rattle.c_scopes.specs.Env.{ScopesIn, env_of};
ghost use Rattle.c_syntax.specs.View as view;
ghost use Rattle.c_type_parts.specs.Declaring.{no_members};
ghost use Rattle.c_type_parts.specs.Seen.{AnswersMembers, AnswersMore, MembersIn, members_of};
ghost use Rattle.c_expr.specs.Typing as spec;

use crate::around::{bare_context, no_ellipsis};
use crate::declarators::{Base, declared_type};
use crate::specifiers::specified;
use c_core::TypeFault;
use c_scopes::Scopes;
use c_syntax::{Declarator, MemberDeclaration};
use c_type_parts::adding::{MemberSite, add_member};
use c_type_parts::outlines::{first_place, names_something};
use c_type_rules::{MemberList, Setting, no_member};
use c_types::{TypeId, TypeTable};
use critical_table::Pos;

/// The members of a body (6.7.2.1).
#[cycle(typing)]
pub(crate) fn members_typed(
    scopes: &mut Scopes,
    types: &mut TypeTable,
    list: &[MemberDeclaration],
) -> Result<MemberList, TypeFault>
    requires { ScopesIn types.old scopes.old }
    ensures { AnswersMembers (spec.members_typed (view.members (map view.member_of list.now)) no_members
        (env_of scopes.old types.old)) types.old scopes.new types.new result }
{
    let mut all = MemberList::new(scopes.alloc());
    for each in list {
        match member_typed(scopes, types, &mut all, each) {
            Ok(()) => {}
            Err(fault) => return Err(fault),
        }
    }
    Ok(all)
}

// The members of one declaration behind others.
#[cycle(typing)]
fn member_typed(
    scopes: &mut Scopes,
    types: &mut TypeTable,
    all: &mut MemberList,
    each: &MemberDeclaration,
) -> Result<(), TypeFault>
    requires here { ScopesIn types.old scopes.old }
    requires all { MembersIn types.old all.old }
    ensures { AnswersMore (spec.member_typed (view.member_of each.now) (members_of types.old all.old)
        (env_of scopes.old types.old)) all.new types.old scopes.new types.new result }
{
    let specifiers = each.specifiers.as_slice();
    let declarators = each.declarators.as_slice();
    if declarators.is_empty() {
        return no_member(first_place(specifiers), names_something(specifiers));
    }
    match specified(scopes, types, bare_context(Setting::Member), specifiers) {
        Ok(base) => {
            let list = DeclaratorList { base, declarators };
            members_declared(scopes, types, all, list)
        }
        Err(fault) => Err(fault),
    }
}

/// Declarators behind the type of their specifiers.
#[derive(Clone, Copy)]
pub(crate) struct DeclaratorList<'a> {
    pub(crate) base: TypeId,
    pub(crate) declarators: &'a [Declarator],
}

// The members of declarators behind others.
#[cycle(typing)]
fn members_declared(
    scopes: &mut Scopes,
    types: &mut TypeTable,
    all: &mut MemberList,
    list: DeclaratorList<'_>,
) -> Result<(), TypeFault>
    requires here { ScopesIn types.old scopes.old }
    requires all { MembersIn types.old all.old }
    requires base { IdIn types.old list.base }
    ensures { AnswersMore (spec.each_member (view.declarators (map view.declarator_of list.entry.declarators.now))
        (type_of types.old list.entry.base) (members_of types.old all.old) (env_of scopes.old types.old)) all.new
        types.old scopes.new types.new result }
{
    for declarator in list.declarators {
        let member = MemberSite {
            declarator,
            of: list.base,
        };
        match member_declared(scopes, types, all, member) {
            Ok(()) => {}
            Err(fault) => return Err(fault),
        }
    }
    Ok(())
}

// One member behind others; the type is that of its specifiers.
#[cycle(typing)]
fn member_declared(
    scopes: &mut Scopes,
    types: &mut TypeTable,
    all: &mut MemberList,
    member: MemberSite<'_>,
) -> Result<(), TypeFault>
    requires here { ScopesIn types.old scopes.old }
    requires all { MembersIn types.old all.old }
    requires of { IdIn types.old member.of }
    ensures { AnswersMore (spec.one_member (view.declarator_of member.entry.declarator.now)
        (type_of types.old member.entry.of) (members_of types.old all.old) (env_of scopes.old types.old)) all.new
        types.old scopes.new types.new result }
{
    let base = Base {
        of: member.of,
        around: no_ellipsis(Pos { line: 1, column: 1 }),
    };
    match declared_type(scopes, types, base, member.declarator) {
        Ok(of) => add_member(scopes, types, all, MemberSite { of, ..member }),
        Err(fault) => Err(fault),
    }
}
