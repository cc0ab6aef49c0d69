//! What the words of a declaration say of the names in it.

use c_syntax::{Declaration, Declarator, InitDeclarator, Specifier, Storage};
use c_type_rules::{Context, Setting};

/// The context of a declaration in a block.
pub fn context_of(declaration: &Declaration) -> Context {
    Context {
        setting: Setting::Block,
        functions: all_functions(declaration.declarators.as_slice()),
        alone: declaration.declarators.is_empty(),
    }
}

fn all_functions(declarators: &[InitDeclarator]) -> bool {
    for each in declarators {
        if !declares_function(&each.declarator) {
            return false;
        }
    }
    !declarators.is_empty()
}

// The name, parentheses aside, stands before parameters.
fn declares_function(declarator: &Declarator) -> bool {
    match declarator {
        Declarator::Omitted | Declarator::Name(..) => false,
        Declarator::DParen(inner)
        | Declarator::PointerTo(_, inner)
        | Declarator::ArrayOf(inner, _) => declares_function(inner),
        Declarator::FunctionOf(inner, _, _) => is_bare(inner) || declares_function(inner),
    }
}

fn is_bare(declarator: &Declarator) -> bool {
    match declarator {
        Declarator::Omitted | Declarator::Name(..) => true,
        Declarator::DParen(inner) => is_bare(inner),
        Declarator::PointerTo(..) | Declarator::ArrayOf(..) | Declarator::FunctionOf(..) => false,
    }
}

/// `typedef` stands among the specifiers.
pub fn is_typedef(specifiers: &[Specifier]) -> bool {
    for specifier in specifiers {
        if matches!(specifier, Specifier::Storage(_, Storage::Typedef)) {
            return true;
        }
    }
    false
}
