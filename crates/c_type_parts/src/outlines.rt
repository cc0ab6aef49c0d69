//! What is seen of specifiers before each is walked.

ghost use Rattle.std.specs.Prelude.{◌≡◌, IfOk, IfSome, option_copied, option_map};
ghost use Rattle.c_syntax.specs.View.{specifier_of, specifiers_of};
ghost use Rattle.c_scopes.specs.Clauses.{OptionIn, type_or_none};
ghost use Rattle.c_scopes.specs.Env.{BindingIn, ScopesIn, env_of};
ghost use Rattle.c_scopes.specs.Named.{named_of};
ghost use Rattle.c_type_parts.specs.Outlines as spec;
ghost use Rattle.c_type_parts.specs.Seen.{outline_of};
ghost use Rattle.c_type_parts.specs.Shapes as shape;

use c_scopes::{Binding, Scopes};
use c_syntax::{BasicWord, Qualifier, Specifier, Storage};
use c_types::{TypeId, TypeTable};
use critical_table::{Name, Pos};
use std::alloc::{AllocError, Global};

fn basic_word_in(specifier: &Specifier) -> Option<BasicWord>
    ensures { result ≡ shape.basic_word_in (specifier_of specifier.now) }
{
    match specifier {
        Specifier::BasicWord(_, word) => Some(*word),
        Specifier::Storage(..) => None,
        Specifier::Qualifier(..) => None,
        Specifier::Inline(..) => None,
        Specifier::CompoundTag(..) => None,
        Specifier::Compound(..) => None,
        Specifier::EnumTag(..) => None,
        Specifier::Enum(..) => None,
        Specifier::TypedefName(..) => None,
    }
}

fn qualifier_in(specifier: &Specifier) -> Option<Qualifier>
    ensures { result ≡ shape.qualifier_in (specifier_of specifier.now) }
{
    match specifier {
        Specifier::Qualifier(_, word) => Some(*word),
        Specifier::Storage(..) => None,
        Specifier::Inline(..) => None,
        Specifier::BasicWord(..) => None,
        Specifier::CompoundTag(..) => None,
        Specifier::Compound(..) => None,
        Specifier::EnumTag(..) => None,
        Specifier::Enum(..) => None,
        Specifier::TypedefName(..) => None,
    }
}

fn storage_in(specifier: &Specifier) -> Option<Storage>
    ensures { result ≡ shape.storage_in (specifier_of specifier.now) }
{
    match specifier {
        Specifier::Storage(_, word) => Some(*word),
        Specifier::Qualifier(..) => None,
        Specifier::Inline(..) => None,
        Specifier::BasicWord(..) => None,
        Specifier::CompoundTag(..) => None,
        Specifier::Compound(..) => None,
        Specifier::EnumTag(..) => None,
        Specifier::Enum(..) => None,
        Specifier::TypedefName(..) => None,
    }
}

fn is_static(specifier: &Specifier) -> bool
    ensures { result ≡ shape.is_static (specifier_of specifier.now) }
{
    match storage_in(specifier) {
        None => false,
        Some(Storage::Static) => true,
        Some(Storage::Typedef) => false,
        Some(Storage::Extern) => false,
        Some(Storage::Auto) => false,
        Some(Storage::Register) => false,
    }
}

fn is_register(specifier: &Specifier) -> bool
    ensures { result ≡ shape.is_register (specifier_of specifier.now) }
{
    match storage_in(specifier) {
        None => false,
        Some(Storage::Register) => true,
        Some(Storage::Typedef) => false,
        Some(Storage::Extern) => false,
        Some(Storage::Static) => false,
        Some(Storage::Auto) => false,
    }
}

fn is_naming(specifier: &Specifier) -> bool
    ensures { result ≡ shape.is_naming (specifier_of specifier.now) }
{
    match specifier {
        Specifier::CompoundTag(..) => true,
        Specifier::Compound(_, _, Some(_), _) => true,
        Specifier::Compound(_, _, None, _) => false,
        Specifier::EnumTag(..) => true,
        Specifier::Enum(..) => true,
        Specifier::Storage(..) => false,
        Specifier::Qualifier(..) => false,
        Specifier::Inline(..) => false,
        Specifier::BasicWord(..) => false,
        Specifier::TypedefName(..) => false,
    }
}

fn specifier_place(specifier: &Specifier) -> Pos
    ensures { result ≡ shape.specifier_place (specifier_of specifier.now) }
{
    match specifier {
        Specifier::Storage(pos, _) => *pos,
        Specifier::Qualifier(pos, _) => *pos,
        Specifier::Inline(pos) => *pos,
        Specifier::BasicWord(pos, _) => *pos,
        Specifier::CompoundTag(pos, _, _) => *pos,
        Specifier::Compound(pos, _, _, _) => *pos,
        Specifier::EnumTag(pos, _) => *pos,
        Specifier::Enum(pos, _, _, _) => *pos,
        Specifier::TypedefName(pos, _) => *pos,
    }
}

fn typedef_name(specifier: &Specifier) -> Option<&Name>
    ensures { option_copied result ≡ shape.typedef_name (specifier_of specifier.now) }
{
    match specifier {
        Specifier::TypedefName(_, name) => Some(name),
        Specifier::Storage(..) => None,
        Specifier::Qualifier(..) => None,
        Specifier::Inline(..) => None,
        Specifier::BasicWord(..) => None,
        Specifier::CompoundTag(..) => None,
        Specifier::Compound(..) => None,
        Specifier::EnumTag(..) => None,
        Specifier::Enum(..) => None,
    }
}

fn basic_words(alloc: Global, specifiers: &[Specifier]) -> Result<Vec<BasicWord>, AllocError>
    ensures { IfOk result (λ words. words.items ≡ shape.basic_words (specifiers_of specifiers.now)) }
{
    let mut words = Vec::new(alloc);
    for specifier in specifiers {
        if let Some(word) = basic_word_in(specifier) {
            words.push(word)?;
        }
    }
    Ok(words)
}

/// The qualifiers among specifiers, in order (6.7.3).
pub fn qualifier_words(
    alloc: Global,
    specifiers: &[Specifier],
) -> Result<Vec<Qualifier>, AllocError>
    ensures { IfOk result (λ words. words.items ≡ shape.qualifier_words (specifiers_of specifiers.now)) }
{
    let mut words = Vec::new(alloc);
    for specifier in specifiers {
        if let Some(word) = qualifier_in(specifier) {
            words.push(word)?;
        }
    }
    Ok(words)
}

fn holds_static(specifiers: &[Specifier]) -> bool
    ensures { result ≡ shape.holds_static (specifiers_of specifiers.now) }
{
    for specifier in specifiers {
        if is_static(specifier) {
            return true;
        }
    }
    false
}

/// `register` stands among specifiers (6.7.1).
pub fn holds_register(specifiers: &[Specifier]) -> bool
    ensures { result ≡ shape.holds_register (specifiers_of specifiers.now) }
{
    for specifier in specifiers {
        if is_register(specifier) {
            return true;
        }
    }
    false
}

/// Specifiers declare a tag or enumerators (6.7p2).
pub fn names_something(specifiers: &[Specifier]) -> bool
    ensures { result ≡ shape.names_something (specifiers_of specifiers.now) }
{
    for specifier in specifiers {
        if is_naming(specifier) {
            return true;
        }
    }
    false
}

/// The place of the first specifier.
pub fn first_place(specifiers: &[Specifier]) -> Pos
    ensures { result ≡ shape.first_place (specifiers_of specifiers.now) }
{
    match specifiers {
        [] => Pos { line: 1, column: 1 },
        [first, ..] => specifier_place(first),
    }
}

#[tactic(auto, using(crate::proofs::SpecifierLists::no_end))]
fn is_end(rest: &[Specifier]) -> bool
    ensures { result ≡ shape.is_end (specifiers_of rest.now) }
{
    match rest {
        [] => true,
        [_, ..] => false,
    }
}

/// One specifier stands alone.
pub fn is_single(specifiers: &[Specifier]) -> bool
    ensures { result ≡ shape.is_single (specifiers_of specifiers.now) }
{
    match specifiers {
        [] => false,
        [_, rest @ ..] => is_end(rest),
    }
}

fn typedef_in(specifiers: &[Specifier]) -> Option<&Name>
    ensures { option_copied result ≡ shape.typedef_in (specifiers_of specifiers.now) }
{
    for specifier in specifiers {
        if let Some(name) = typedef_name(specifier) {
            return Some(name);
        }
    }
    None
}

fn typedef_type(types: &TypeTable, found: Option<Binding>) -> Option<TypeId>
    requires { IfSome found (λ binding. BindingIn types.now binding) }
    ensures is { type_or_none types.now result ≡ spec.typedef_type (option_map (named_of types.now) found) }
    ensures is_in { OptionIn types.now result }
{
    let _types = types;
    match found {
        None => None,
        Some(Binding::Typedef(of)) => Some(of),
        Some(Binding::Object(_, _)) => None,
        Some(Binding::Function(_, _)) => None,
        Some(Binding::Constant(_, _)) => None,
        Some(Binding::NullPointer(_)) => None,
        Some(Binding::Tag(_, _)) => None,
    }
}

// What the typedef name among specifiers stands for.
fn typedef_seen(scopes: &Scopes, types: &TypeTable, specifiers: &[Specifier]) -> Option<TypeId>
    requires { ScopesIn types.now scopes.now }
    ensures is { type_or_none types.now result
        ≡ spec.typedef_seen (shape.typedef_in (specifiers_of specifiers.now)) (env_of scopes.now types.now) }
    ensures is_in { OptionIn types.now result }
{
    match typedef_in(specifiers) {
        None => None,
        Some(name) => {
            let found = scopes.find(name, false).copied();
            typedef_type(types, found)
        }
    }
}

/// What is seen of specifiers before each is walked (6.7.2p2, 6.7.3p2, 6.7.4).
#[derive(Drop)]
pub struct Outline {
    /// The words of a basic type, in order.
    pub words: Vec<BasicWord>,
    /// What the typedef name among them stands for.
    pub typedef: Option<TypeId>,
    pub is_static: bool,
}

/// What is seen of specifiers before each is walked.
pub fn outline_of(
    scopes: &Scopes,
    types: &TypeTable,
    specifiers: &[Specifier],
) -> Result<Outline, AllocError>
    requires { ScopesIn types.now scopes.now }
    ensures is { IfOk result (λ o. outline_of types.now o
        ≡ spec.outline (specifiers_of specifiers.now) (env_of scopes.now types.now)) }
    ensures is_in { IfOk result (λ o. OptionIn types.now o.typedef) }
{
    let words = basic_words(scopes.alloc(), specifiers)?;
    Ok(Outline {
        words,
        typedef: typedef_seen(scopes, types, specifiers),
        is_static: holds_static(specifiers),
    })
}

/// What specifiers have said so far.
#[derive(Clone, Copy, Debug, PartialEq, Eq)]
pub struct Before {
    /// A storage word stood among them.
    pub storage: bool,
    /// A word of a basic type stood among them.
    pub basic: bool,
    pub of: TypeId,
}
