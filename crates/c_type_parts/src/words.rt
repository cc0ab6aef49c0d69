//! Specifiers that are words: storage, qualifiers, `inline`, basic types and typedef names (6.7.1 to 6.7.4, 6.7.8).

ghost use Rattle.std.specs.Prelude.{◌≡◌, IfOk, List};
ghost use Rattle.c_types.specs.CType.{type_of};
ghost use Rattle.c_types.specs.Qualified.{with_quals};
ghost use Rattle.c_types.specs.Types.{Types};
ghost use Rattle.c_syntax.specs.View.{specifiers_of};
ghost use Rattle.c_type_rules.specs.Qualified.{quals_of_words};
ghost use Rattle.c_type_parts.specs.Shapes.{qualifier_words};
ghost use Rattle.c_core.specs.Ids.{IdIn};
ghost use Rattle.c_scopes.specs.Clauses.{Makes, OptionIn};
ghost use Rattle.c_scopes.specs.Env.{ScopesIn, env_of};
ghost use Rattle.c_scopes.specs.Scopes.{Scope};
ghost use Rattle.c_type_parts.specs.Answers.{Answer, settle};
ghost use Rattle.c_types.specs.CType.{CType};
ghost use Rattle.c_type_parts.specs.Clauses.{AnswersType};
ghost use Rattle.c_type_parts.specs.Outlines as spec;
ghost use Rattle.c_type_parts.specs.Seen.{AnswersBefore, before_of, outline_of};

use crate::outlines::{Before, Outline, qualifier_words};
use c_core::TypeFault;
use c_scopes::Scopes;
use c_syntax::{Qualifier, Specifier, Storage};
use c_type_rules::{Context, Setting, basic_type, inline_word, qualifiers, restrict, storage_word};
use c_types::{TypeId, TypeTable};
use critical_table::Pos;
use std::alloc::AllocError;

/// What is known around a specifier.
#[derive(Clone, Copy)]
pub struct SpecifierSite<'a> {
    pub context: Context,
    /// What is seen of the whole list.
    pub outline: &'a Outline,
    /// What the specifiers before it have said.
    pub before: Before,
}

/// A storage word behind other specifiers (6.7.1).
///
/// Constraint 5 or 46 as its rule has it.
pub fn storage_seen(
    setting: Setting,
    before: Before,
    pos: Pos,
    word: Storage,
) -> Result<Before, TypeFault>
    ensures { (scopes : List Scope) (types : Types) → ScopesIn types scopes → IdIn types before.of
        → AnswersBefore (spec.storage_on setting (before_of types before) pos word (env_of scopes types)) types
        scopes types
        result }
{
    match storage_word(setting, before.storage, word, pos) {
        Err(fault) => Err(fault),
        Ok(()) => Ok(Before {
            storage: true,
            ..before
        }),
    }
}

/// A qualifier behind other specifiers (6.7.3).
///
/// Constraint 12 as its rule has it.
pub fn qualifier_seen(
    types: &TypeTable,
    site: SpecifierSite<'_>,
    pos: Pos,
    word: Qualifier,
) -> Result<Before, TypeFault>
    requires typedef { OptionIn types.now site.outline.now.typedef }
    requires before { IdIn types.now site.before.of }
    ensures { (scopes : List Scope) → ScopesIn types.now scopes
        → AnswersBefore (spec.qualifier_on (outline_of types.now site.entry.outline.now)
        (before_of types.now site.entry.before) pos
        word (env_of scopes types.now)) types.now scopes types.now result }
{
    match restrict(types, pos, site.outline.typedef, word) {
        Err(fault) => Err(fault),
        Ok(()) => Ok(site.before),
    }
}

/// `inline` behind other specifiers (6.7.4).
///
/// Constraint 13 as its rule has it.
pub fn inline_seen(site: SpecifierSite<'_>, pos: Pos) -> Result<Before, TypeFault>
    ensures { (scopes : List Scope) (types : Types) → ScopesIn types scopes → IdIn types site.entry.before.of
        → AnswersBefore (spec.inline_on site.entry.context (outline_of types site.entry.outline.now)
        (before_of types site.entry.before) pos
        (env_of scopes types)) types scopes types result }
{
    match inline_word(site.context, site.outline.is_static, pos) {
        Err(fault) => Err(fault),
        Ok(()) => Ok(site.before),
    }
}

/// A word of a basic type behind other specifiers: all are told at the first of them (6.7.2p2).
///
/// Constraint 4 as its rule has it.
pub fn basic_seen(types: &TypeTable, site: SpecifierSite<'_>, pos: Pos) -> Result<Before, TypeFault>
    requires before { IdIn types.now site.before.of }
    ensures { (scopes : List Scope) → ScopesIn types.now scopes
        → AnswersBefore (spec.basic_on pos (outline_of types.now site.entry.outline.now) site.entry.before.basic
        (before_of types.now site.entry.before) (env_of scopes types.now)) types.now scopes types.now result }
{
    if site.before.basic {
        return Ok(site.before);
    }
    first_basic(types, site, pos)
}

fn first_basic(types: &TypeTable, site: SpecifierSite<'_>, pos: Pos) -> Result<Before, TypeFault>
    ensures { (scopes : List Scope) → ScopesIn types.now scopes
        → AnswersBefore (spec.first_basic pos (outline_of types.now site.entry.outline.now)
        (before_of types.now site.entry.before) (env_of scopes types.now)) types.now scopes types.now result }
{
    match basic_type(types, pos, site.outline.words.as_slice()) {
        Err(fault) => Err(fault),
        Ok(of) => Ok(Before {
            storage: site.before.storage,
            basic: true,
            of,
        }),
    }
}

/// The type of a typedef name (6.7.8).
///
/// Constraint 1 where none is in scope.
pub fn typedef_used(types: &TypeTable, outline: &Outline, pos: Pos) -> Result<TypeId, TypeFault>
    requires typedef { OptionIn types.now outline.now.typedef }
    ensures { (scopes : List Scope) → ScopesIn types.now scopes
        → AnswersType (settle pos (env_of scopes types.now) (spec.typedef_rule
        (outline_of types.now outline.now).typedef))
        types.now scopes types.now result }
{
    let _types = types;
    match outline.typedef {
        None => Err(TypeFault::Constraint(1, pos)),
        Some(of) => Ok(of),
    }
}

/// A specifier that is a type, behind others (6.7.2).
pub fn type_seen(before: Before, of: Result<TypeId, TypeFault>) -> Result<Before, TypeFault>
    ensures { (answer : Answer CType) (old now types : Types) (scopes : List Scope)
        → AnswersType answer old scopes types of
        → AnswersBefore (spec.type_on (before_of now before) answer) old scopes types result }
{
    match of {
        Err(fault) => Err(fault),
        Ok(of) => Ok(Before { of, ..before }),
    }
}

/// The type of specifiers with the qualifiers among them (6.7.3).
pub fn qualified_type(
    scopes: &Scopes,
    types: &mut TypeTable,
    of: TypeId,
    specifiers: &[Specifier],
) -> Result<TypeId, AllocError>
    requires { IdIn types.old of }
    ensures { IfOk result (λ made. Makes type_of IdIn (with_quals
        (quals_of_words (qualifier_words (specifiers_of specifiers.now))) (type_of types.old of)) types.old types.new
        made) }
{
    let words = qualifier_words(scopes.alloc(), specifiers)?;
    let made = types.qualified(of, qualifiers(words.as_slice()))?;
    Ok(made)
}
