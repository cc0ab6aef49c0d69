//! Whether declarations of a name stand for the same object or function.

ghost use Rattle.std.specs.Prelude.{◌≡◌, option_map};
ghost use Rattle.c_scopes.specs.Named.{named_of};
ghost use Rattle.c_decl_rules.specs.DeclaredNames as spec;
ghost use Rattle.c_decl_rules.specs.Linkage as words;

use c_scopes::{Binding, Linkage};
use c_syntax::Storage;
use c_type_rules::Setting;
use c_types::TypeTable;

// `extern`: the linkage of the declaration that is visible, if that has one.
fn as_before(prior: Linkage) -> Linkage
    ensures { result ≡ words.as_before prior }
{
    match prior {
        Linkage::None => Linkage::External,
        Linkage::Internal => Linkage::Internal,
        Linkage::External => Linkage::External,
    }
}

// The linkage of what is declared without a storage word, by whether it is a function.
fn without_word(at_file: bool, is_function: bool, prior: Linkage) -> Linkage
    ensures { result ≡ words.without_word at_file is_function prior }
{
    if is_function {
        as_before(prior)
    } else if at_file {
        Linkage::External
    } else {
        Linkage::None
    }
}

/// The linkage of what is declared with a storage word or none, where a visible declaration of the name has `prior`
/// (6.2.2p3 to p6).
pub fn linkage_of(
    at_file: bool,
    storage: Option<Storage>,
    is_function: bool,
    prior: Linkage,
) -> Linkage
    ensures { result ≡ words.linkage_of at_file storage is_function prior }
{
    match storage {
        Some(Storage::Static) => {
            if at_file {
                Linkage::Internal
            } else {
                Linkage::None
            }
        }
        Some(Storage::Extern) => as_before(prior),
        Some(Storage::Typedef) | Some(Storage::Auto) | Some(Storage::Register) => Linkage::None,
        None => without_word(at_file, is_function, prior),
    }
}

/// Declarations with these linkages stand for the same object or function (6.2.2p2).
pub fn denote_one(one: Linkage, other: Linkage) -> bool
    ensures { result ≡ spec.denote_one one other }
{
    match one {
        Linkage::None => false,
        Linkage::Internal => match other {
            Linkage::Internal => true,
            _ => false,
        },
        Linkage::External => match other {
            Linkage::External => true,
            _ => false,
        },
    }
}

/// The linkage of what a name stands for.
pub fn linkage_in(types: &TypeTable, binding: Option<Binding>) -> Linkage
    ensures { result ≡ spec.linkage_in (option_map (named_of types.now) binding) }
{
    let _types = types;
    match binding {
        Some(Binding::Object(_, object)) => object.linkage,
        Some(Binding::Function(_, function)) => function.linkage,
        None => Linkage::None,
        Some(Binding::Typedef(_)) => Linkage::None,
        Some(Binding::Constant(_, _)) => Linkage::None,
        Some(Binding::NullPointer(_)) => Linkage::None,
        Some(Binding::Tag(_, _)) => Linkage::None,
    }
}

/// The declaration stands outside of functions.
pub fn is_at_file(setting: Setting) -> bool
    ensures { result ≡ spec.is_at_file setting }
{
    match setting {
        Setting::File | Setting::Definition => true,
        _ => false,
    }
}
