//! Specifiers: the type that they stand for (6.7.2, 6.7.3).

ghost use Rattle.std.specs.Prelude.{◌≡◌, map};
ghost use Rattle.c_core.specs.Ids.{IdIn};
ghost use Rattle.c_scopes.specs.Clauses.{OptionIn};
ghost use Rattle.c_scopes.specs.Env.{ScopesIn, env_of};
ghost use Rattle.c_syntax.specs.View as view;
ghost use Rattle.c_type_parts.specs.Clauses.{AnswersType};
ghost use Rattle.c_type_parts.specs.Seen.{AnswersBefore, before_of, outline_of};
ghost use Rattle.c_type_parts.specs.Declaring.{no_members};
ghost use Rattle.c_type_parts.specs.Tagging as tags;
ghost use Rattle.c_type_parts.specs.Tagging.{compound_with, enumeration_with};
ghost use Rattle.c_type_rules.specs.Enumerators.{first_value};
ghost use Rattle.c_expr.specs.Typing as spec;

use crate::enumerators::enumerated;
use crate::members::members_typed;
use c_core::TypeFault;
use c_scopes::Scopes;
use c_syntax::{CompoundWord, Enumerator, MemberDeclaration, Specifier, Tag};
use c_type_parts::completing::{compound_place, end_body, end_tag};
use c_type_parts::outlines::{Before, outline_of};
use c_type_parts::tagging::{begun_compound, begun_enumeration};
use c_type_parts::words::{
    SpecifierSite, basic_seen, inline_seen, qualified_type, qualifier_seen, storage_seen,
    type_seen, typedef_used,
};
use c_type_parts::{TagUse, tagged_compound, tagged_enumeration};
use c_type_rules::{Context, EndedBody};
use c_types::{Basic, TypeId, TypeTable};
use critical_table::Pos;

/// The type that specifiers stand for, storage words and `inline` aside (6.7.2, 6.7.3).
///
/// Each constraint on a specifier comes at its place, the first in the order of their tokens.
#[cycle(typing)]
pub fn specified(
    scopes: &mut Scopes,
    types: &mut TypeTable,
    context: Context,
    specifiers: &[Specifier],
) -> Result<TypeId, TypeFault>
    requires { ScopesIn types.old scopes.old }
    ensures { AnswersType (spec.specified context (view.specifiers_of specifiers.now) (env_of scopes.old types.old))
        types.old scopes.new types.new result }
{
    let outline = match outline_of(scopes, types, specifiers) {
        Ok(outline) => outline,
        Err(cause) => return Err(TypeFault::Memory(cause)),
    };
    let mut before = Before {
        storage: false,
        basic: false,
        of: types.basic(Basic::Void),
    };
    for specifier in specifiers {
        let site = SpecifierSite {
            context,
            outline: &outline,
            before,
        };
        match one_specified(scopes, types, site, specifier) {
            Ok(next) => before = next,
            Err(fault) => return Err(fault),
        }
    }
    match qualified_type(scopes, types, before.of, specifiers) {
        Ok(of) => Ok(of),
        Err(cause) => Err(TypeFault::Memory(cause)),
    }
}

// What one specifier says behind those before it.
#[cycle(typing)]
fn one_specified(
    scopes: &mut Scopes,
    types: &mut TypeTable,
    site: SpecifierSite<'_>,
    specifier: &Specifier,
) -> Result<Before, TypeFault>
    requires here { ScopesIn types.old scopes.old }
    requires typedef { OptionIn types.old site.outline.now.typedef }
    requires before { IdIn types.old site.before.of }
    ensures { AnswersBefore (spec.one_specified site.entry.context (outline_of types.old site.entry.outline.now)
        (view.specifier_of specifier.now) (before_of types.old site.entry.before) (env_of scopes.old types.old))
        types.old scopes.new types.new result }
{
    let before = site.before;
    match specifier {
        Specifier::Storage(pos, word) => storage_seen(site.context.setting, before, *pos, *word),
        Specifier::Qualifier(pos, word) => qualifier_seen(types, site, *pos, *word),
        Specifier::Inline(pos) => inline_seen(site, *pos),
        Specifier::BasicWord(pos, _) => basic_seen(types, site, *pos),
        Specifier::TypedefName(pos, _) => {
            type_seen(before, typedef_used(types, site.outline, *pos))
        }
        Specifier::CompoundTag(_, word, tag) => {
            let kind = TagUse {
                is_union: is_union(*word),
                alone: site.context.alone,
            };
            type_seen(before, tagged_compound(scopes, types, kind, tag))
        }
        Specifier::EnumTag(_, tag) => type_seen(before, tagged_enumeration(scopes, types, tag)),
        Specifier::Compound(pos, word, tag, list) => {
            let head = CompoundHead {
                pos: *pos,
                is_union: is_union(*word),
                tag,
            };
            type_seen(before, compound(scopes, types, head, list.as_slice()))
        }
        Specifier::Enum(_, tag, list, _) => {
            type_seen(before, enumeration(scopes, types, tag, list.as_slice()))
        }
    }
}

fn is_union(word: CompoundWord) -> bool
    ensures { result ≡ tags.is_union word }
{
    match word {
        CompoundWord::Struct => false,
        CompoundWord::Union => true,
    }
}

/// What stands before the body of a structure or union (6.7.2.1).
#[derive(Clone, Copy)]
pub(crate) struct CompoundHead<'a> {
    pub(crate) pos: Pos,
    pub(crate) is_union: bool,
    pub(crate) tag: &'a Option<Tag>,
}

// A structure or union with its body (6.7.2.1).
#[cycle(typing)]
fn compound(
    scopes: &mut Scopes,
    types: &mut TypeTable,
    head: CompoundHead<'_>,
    list: &[MemberDeclaration],
) -> Result<TypeId, TypeFault>
    requires { ScopesIn types.old scopes.old }
    ensures { AnswersType (compound_with head.entry.is_union head.entry.pos head.entry.tag.now
        (λ env. spec.members_typed (view.members (map view.member_of list.now)) no_members env)
        (env_of scopes.old types.old)) types.old scopes.new types.new result }
{
    let of = match begun_compound(scopes, types, head.is_union, head.tag) {
        Ok(of) => of,
        Err(fault) => return Err(fault),
    };
    let all = match members_typed(scopes, types, list) {
        Ok(all) => all,
        Err(fault) => return Err(fault),
    };
    let body = EndedBody {
        at: compound_place(head.pos, head.tag),
        is_union: head.is_union,
        of,
    };
    match end_body(scopes, types, body, &all) {
        Err(fault) => Err(fault),
        Ok(()) => match end_tag(scopes, types, head.tag, of) {
            Ok(()) => Ok(of),
            Err(cause) => Err(TypeFault::Memory(cause)),
        },
    }
}

// An enumeration with its enumerators (6.7.2.2).
#[cycle(typing)]
fn enumeration(
    scopes: &mut Scopes,
    types: &mut TypeTable,
    tag: &Option<Tag>,
    list: &[Enumerator],
) -> Result<TypeId, TypeFault>
    requires { ScopesIn types.old scopes.old }
    ensures { AnswersType (enumeration_with tag.now
        (λ env. spec.enumerated (view.enumerators (map view.enumerator_of list.now)) first_value env)
        (env_of scopes.old types.old)) types.old scopes.new types.new result }
{
    let of = match begun_enumeration(scopes, types, tag) {
        Ok(of) => of,
        Err(fault) => return Err(fault),
    };
    match enumerated(scopes, types, list) {
        Err(fault) => Err(fault),
        Ok(()) => match end_tag(scopes, types, tag, of) {
            Ok(()) => Ok(of),
            Err(cause) => Err(TypeFault::Memory(cause)),
        },
    }
}
