//! Declarators with their initializers.

ghost use Rattle.std.specs.Prelude.{◌≡◌, Some, None, IfOk};
ghost use Rattle.c_syntax.specs.View.{declarator_of};
ghost use Rattle.c_syntax.specs.ViewUnit.{initializer_of, init_declarator_of};

use c_syntax::declaration::InitDeclarator;
use c_syntax::declarator::Declarator;
use c_syntax::initializer::Initializer;
use std::alloc::{AllocError, Global};

pub(crate) fn with_initializer(
    alloc: Global,
    declarator: Box<Declarator>,
    value: Box<Initializer>,
) -> Result<Box<InitDeclarator>, AllocError>
    ensures { IfOk result (λ x. init_declarator_of x.value
        ≡ record { declarator = declarator_of declarator.value; initializer = Some (initializer_of value.value) }) }
{
    Ok(Box::new(
        alloc,
        InitDeclarator {
            declarator: Box::into_inner(declarator),
            initializer: Some(Box::into_inner(value)),
        },
    )?)
}

pub(crate) fn without_initializer(
    alloc: Global,
    declarator: Box<Declarator>,
) -> Result<Box<InitDeclarator>, AllocError>
    ensures { IfOk result (λ x. init_declarator_of x.value
        ≡ record { declarator = declarator_of declarator.value; initializer = None }) }
{
    Ok(Box::new(
        alloc,
        InitDeclarator {
            declarator: Box::into_inner(declarator),
            initializer: None,
        },
    )?)
}
