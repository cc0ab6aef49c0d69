//! Tags: those that are in scope, and those that come into scope.

ghost use Rattle.std.specs.Prelude.{◌≡◌, IfOk, cond, true};
ghost use Rattle.c_types.specs.Structures.{structures_of};
ghost use Rattle.c_scopes.specs.declared.binding.TagState.TheVariants as state;
ghost use Rattle.c_scopes.specs.Env.{ScopesIn, env_of};
ghost use Rattle.c_scopes.specs.Named.{TagOf};
ghost use Rattle.c_type_rules.specs.Tags.{next_compound, next_enumerated};
ghost use Rattle.c_scopes.specs.Scopes.{found, found_here};
ghost use Rattle.c_type_parts.specs.Clauses.{AnswersOption, AnswersType, BecomesWith};
ghost use Rattle.c_type_parts.specs.Environments.{with_name, with_compound, with_enumeration};
ghost use Rattle.c_type_parts.specs.Tagging as spec;

use crate::naming::{bind_name, new_compound, new_enumeration};
use c_core::TypeFault;
use c_scopes::{Binding, Scopes, TagState};
use c_syntax::Tag;
use c_type_rules::{compound_body, compound_tag, enumerated_body, enumerated_tag};
use c_types::{TypeId, TypeTable};
use critical_table::Name;
use std::alloc::AllocError;

/// `enum tag`: the tag of an enumeration that is in scope (6.7.2.3p3).
///
/// Constraint 6 for the tag of another kind, 7 where no body of it has ended.
pub fn tagged_enumeration(
    scopes: &Scopes,
    types: &TypeTable,
    tag: &Tag,
) -> Result<TypeId, TypeFault>
    requires { ScopesIn types.now scopes.now }
    ensures { AnswersType (spec.tagged_enumeration tag.now (env_of scopes.now types.now)) types.now scopes.now types.now
        result }
{
    let found = scopes.find(&tag.name, true).copied();
    enumerated_tag(types, tag.pos, found)
}

/// What a specifier of a structure or union says beside its tag.
#[derive(Clone, Copy, Debug, PartialEq, Eq)]
pub struct TagUse {
    pub is_union: bool,
    /// No declarator stands behind the specifiers: the tag is that of this scope (6.7.2.3p7).
    pub alone: bool,
}

// What the tag stands for.
fn tag_seen(scopes: &Scopes, alone: bool, name: &Name) -> Option<Binding>
    ensures { result ≡ cond alone (found_here scopes.now true name.now) (found scopes.now true name.now) }
{
    if alone {
        scopes.here(name, true).copied()
    } else {
        scopes.find(name, true).copied()
    }
}

// The structure or union that the tag stands for; none where it is to be declared.
fn known_compound(
    scopes: &Scopes,
    types: &TypeTable,
    kind: TagUse,
    tag: &Tag,
) -> Result<Option<TypeId>, TypeFault>
    requires { ScopesIn types.now scopes.now }
    ensures { AnswersOption (spec.known_compound kind.is_union tag.now kind.alone (env_of scopes.now types.now))
        types.now scopes.now types.now result }
{
    let seen = tag_seen(scopes, kind.alone, &tag.name);
    compound_tag(types, tag.pos, kind.is_union, seen)
}

/// `struct tag` or `union tag` without a body: a tag that is in scope, or a new one (6.7.2.3p7, p8).
///
/// Constraint 6 for the tag of another kind.
pub fn tagged_compound(
    scopes: &mut Scopes,
    types: &mut TypeTable,
    kind: TagUse,
    tag: &Tag,
) -> Result<TypeId, TypeFault>
    requires { ScopesIn types.old scopes.old }
    ensures { AnswersType (spec.tagged_compound kind.is_union tag.now kind.alone (env_of scopes.old types.old))
        types.old scopes.new types.new result }
{
    match known_compound(scopes, types, kind, tag) {
        Err(fault) => Err(fault),
        Ok(Some(of)) => Ok(of),
        Ok(None) => match declare_compound(scopes, types, kind.is_union, &tag.name) {
            Ok(of) => Ok(of),
            Err(cause) => Err(TypeFault::Memory(cause)),
        },
    }
}

/// `struct tag` or `union tag` that is not in scope: an incomplete type of that tag (6.7.2.3p8).
pub fn declare_compound(
    scopes: &mut Scopes,
    types: &mut TypeTable,
    is_union: bool,
    name: &Name,
) -> Result<TypeId, AllocError>
    requires { ScopesIn types.old scopes.old }
    ensures { IfOk result (λ id. BecomesWith (next_compound (structures_of types.old))
        (with_name name.now (TagOf (next_compound (structures_of types.old)) state.Declared)
        (with_compound is_union (env_of scopes.old types.old))) types.old scopes.new types.new id) }
{
    let id = new_compound(scopes, types, is_union)?;
    bind_name(scopes, types, name, Binding::Tag(id, TagState::Declared))?;
    Ok(id)
}

/// A structure or union with a tag whose body begins (6.2.1p7).
pub fn begin_compound(
    scopes: &mut Scopes,
    types: &mut TypeTable,
    is_union: bool,
    name: &Name,
) -> Result<TypeId, AllocError>
    requires { ScopesIn types.old scopes.old }
    ensures { IfOk result (λ id. BecomesWith (next_compound (structures_of types.old))
        (with_name name.now (TagOf (next_compound (structures_of types.old)) state.Begun)
        (with_compound is_union (env_of scopes.old types.old))) types.old scopes.new types.new id) }
{
    let id = new_compound(scopes, types, is_union)?;
    bind_name(scopes, types, name, Binding::Tag(id, TagState::Begun))?;
    Ok(id)
}

/// An enumeration with a tag whose body begins (6.2.1p7).
pub fn begin_enumeration(
    scopes: &mut Scopes,
    types: &mut TypeTable,
    name: &Name,
) -> Result<TypeId, AllocError>
    requires { ScopesIn types.old scopes.old }
    ensures { IfOk result (λ id. BecomesWith (next_enumerated types.old.enumerations)
        (with_name name.now (TagOf (next_enumerated types.old.enumerations) state.Begun)
        (with_enumeration (env_of scopes.old types.old))) types.old scopes.new types.new id) }
{
    let id = new_enumeration(scopes, types)?;
    bind_name(scopes, types, name, Binding::Tag(id, TagState::Begun))?;
    Ok(id)
}

// The structure or union that a body completes; none where its tag is to be declared.
fn known_body(
    scopes: &Scopes,
    types: &TypeTable,
    is_union: bool,
    tag: &Tag,
) -> Result<Option<TypeId>, TypeFault>
    requires { ScopesIn types.now scopes.now }
    ensures { AnswersOption (spec.known_body is_union tag.now (env_of scopes.now types.now)) types.now scopes.now
        types.now result }
{
    let here = tag_seen(scopes, true, &tag.name);
    compound_body(types, tag.pos, is_union, here)
}

/// A structure or union with a tag, where its body begins (6.2.1p7, 6.7.2.3p1).
///
/// Constraint 6 for the tag of another kind, and for a second body.
pub fn tagged_body(
    scopes: &mut Scopes,
    types: &mut TypeTable,
    is_union: bool,
    tag: &Tag,
) -> Result<TypeId, TypeFault>
    requires { ScopesIn types.old scopes.old }
    ensures { AnswersType (spec.compound_begun is_union (Some tag.now) (env_of scopes.old types.old))
        types.old scopes.new types.new result }
{
    match known_body(scopes, types, is_union, tag) {
        Err(fault) => Err(fault),
        Ok(Some(of)) => {
            match bind_name(scopes, types, &tag.name, Binding::Tag(of, TagState::Begun)) {
                Ok(()) => Ok(of),
                Err(cause) => Err(TypeFault::Memory(cause)),
            }
        }
        Ok(None) => match begin_compound(scopes, types, is_union, &tag.name) {
            Ok(of) => Ok(of),
            Err(cause) => Err(TypeFault::Memory(cause)),
        },
    }
}

/// An enumeration with a tag, where its body begins (6.2.1p7, 6.7.2.3p1).
///
/// Constraint 6 where the tag stands for something in the innermost scope.
pub fn tagged_enumerators(
    scopes: &mut Scopes,
    types: &mut TypeTable,
    tag: &Tag,
) -> Result<TypeId, TypeFault>
    requires { ScopesIn types.old scopes.old }
    ensures { AnswersType (spec.enumeration_begun (Some tag.now) (env_of scopes.old types.old))
        types.old scopes.new types.new result }
{
    match enumerated_body(tag.pos, tag_seen(scopes, true, &tag.name)) {
        Err(fault) => Err(fault),
        Ok(()) => match begin_enumeration(scopes, types, &tag.name) {
            Ok(of) => Ok(of),
            Err(cause) => Err(TypeFault::Memory(cause)),
        },
    }
}

/// A structure or union where its body begins, with its tag or without one (6.2.1p7, 6.7.2.3p1).
///
/// Constraint 6 for the tag of another kind, and for a second body.
pub fn begun_compound(
    scopes: &mut Scopes,
    types: &mut TypeTable,
    is_union: bool,
    tag: &Option<Tag>,
) -> Result<TypeId, TypeFault>
    requires { ScopesIn types.old scopes.old }
    ensures { AnswersType (spec.compound_begun is_union tag.now (env_of scopes.old types.old)) types.old scopes.new
        types.new result }
{
    match tag {
        Some(tag) => tagged_body(scopes, types, is_union, tag),
        None => match new_compound(scopes, types, is_union) {
            Ok(of) => Ok(of),
            Err(cause) => Err(TypeFault::Memory(cause)),
        },
    }
}

/// An enumeration where its body begins, with its tag or without one (6.2.1p7, 6.7.2.3p1).
///
/// Constraint 6 where the tag stands for something in the innermost scope.
pub fn begun_enumeration(
    scopes: &mut Scopes,
    types: &mut TypeTable,
    tag: &Option<Tag>,
) -> Result<TypeId, TypeFault>
    requires { ScopesIn types.old scopes.old }
    ensures { AnswersType (spec.enumeration_begun tag.now (env_of scopes.old types.old)) types.old scopes.new types.new
        result }
{
    match tag {
        Some(tag) => tagged_enumerators(scopes, types, tag),
        None => match new_enumeration(scopes, types) {
            Ok(of) => Ok(of),
            Err(cause) => Err(TypeFault::Memory(cause)),
        },
    }
}
