//! External declarations.

ghost use Rattle.std.specs.Prelude.{◌≡◌, map, IfOk};
ghost use Rattle.c_syntax.specs.TreeUnit as tree;
ghost use Rattle.c_syntax.specs.View.{specifiers_of, declarator_of};
ghost use Rattle.c_syntax.specs.ViewUnit.{declaration_of, assert_of, block_item_of, block_items, external_of};

use c_syntax::declaration::{Assert, Declaration};
use c_syntax::declarator::Declarator;
use c_syntax::specifier::Specifier;
use c_syntax::statement::BlockItem;
use c_syntax::unit::{External, Function};
use std::alloc::{AllocError, Global};

pub(crate) fn function(
    alloc: Global,
    specifiers: Vec<Specifier>,
    declarator: Box<Declarator>,
    body: Vec<BlockItem>,
) -> Result<Box<External>, AllocError>
    ensures { IfOk result (λ x. external_of x.value
        ≡ tree.Defines (record {
          specifiers = specifiers_of specifiers.items;
          declarator =
              declarator_of declarator.value;
          body = block_items (map block_item_of body.items);
        })) }
{
    let function = Function {
        specifiers,
        declarator: Box::into_inner(declarator),
        body,
    };
    Ok(Box::new(alloc, External::Function(function))?)
}

pub(crate) fn declaration(alloc: Global, one: Declaration) -> Result<Box<External>, AllocError>
    ensures { IfOk result (λ x. external_of x.value ≡ tree.Declaring (declaration_of one)) }
{
    Ok(Box::new(alloc, External::Declaration(one))?)
}

pub(crate) fn assertion(alloc: Global, one: Box<Assert>) -> Result<Box<External>, AllocError>
    ensures { IfOk result (λ x. external_of x.value ≡ tree.Asserting (assert_of one.value)) }
{
    Ok(Box::new(alloc, External::Assert(Box::into_inner(one)))?)
}
