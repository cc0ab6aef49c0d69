//! What specifiers and declarators say of a declared name.

ghost use Rattle.std.specs.Prelude.{◌≡◌, ◌++◌, option_copied, IfOk};
ghost use Rattle.c_syntax.specs.Scopes as names;
ghost use Rattle.c_syntax.specs.View.{specifiers_of, declarator_of};

use crate::scope::Scope;
use c_syntax::declarator::Declarator;
use c_syntax::specifier::{Specifier, Storage};
use critical_table::Name;
use std::alloc::{AllocError, Global};

/// Whether these specifiers declare typedef names (6.7.8).
pub(crate) fn names_types(specifiers: &[Specifier]) -> bool
    ensures { result ≡ names.names_types (specifiers_of specifiers.now) }
{
    for specifier in specifiers {
        if matches!(specifier, Specifier::Storage(_, Storage::Typedef)) {
            return true;
        }
    }
    false
}

/// The identifier that a declarator declares (6.7.6).
pub(crate) fn own_name(declarator: &Declarator) -> Option<&Name>
    ensures { option_copied result ≡ names.own_name (declarator_of declarator.now) }
{
    match declarator {
        Declarator::Omitted => None,
        Declarator::Name(_, name) => Some(name),
        Declarator::DParen(inner)
        | Declarator::PointerTo(_, inner)
        | Declarator::ArrayOf(inner, _)
        | Declarator::FunctionOf(inner, _, _) => own_name(inner),
    }
}

/// Declares the declarator's own name, if it has one.
pub(crate) fn declare_own_name(
    alloc: Global,
    scope: &mut Scope,
    names_type: bool,
    declarator: &Declarator,
) -> Result<(), AllocError>
    ensures { IfOk result (λ _. scope.new
        ≡ scope.old ++ names.declared_if names_type (names.own_name (declarator_of declarator.now))) }
{
    if let Some(name) = own_name(declarator) {
        scope.declare(alloc, name, names_type)?;
    }
    Ok(())
}
