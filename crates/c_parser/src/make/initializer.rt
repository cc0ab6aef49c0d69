//! Initializers of their parts.

ghost use Rattle.std.specs.Prelude.{◌≡◌, map, IfOk};
ghost use Rattle.c_syntax.specs.ViewUnit.{items};
ghost use Rattle.c_syntax.specs.TreeUnit as tree;
ghost use Rattle.c_syntax.specs.View.{expr_of};
ghost use Rattle.c_syntax.specs.ViewUnit.{initializer_of, item_of};

use c_syntax::expression::Expr;
use c_syntax::initializer::{Initializer, Item};
use critical_table::{Name, Pos};
use std::alloc::{AllocError, Global};

pub(crate) fn single(alloc: Global, expr: Box<Expr>) -> Result<Box<Initializer>, AllocError>
    ensures { IfOk result (λ x. initializer_of x.value ≡ tree.Single (expr_of expr.value)) }
{
    Ok(Box::new(alloc, Initializer::Expression(Box::into_inner(expr)))?)
}

pub(crate) fn braces(
    alloc: Global,
    pos: Pos,
    all: Vec<Item>,
    comma: bool,
) -> Result<Box<Initializer>, AllocError>
    ensures { IfOk result (λ x. initializer_of x.value ≡ tree.Braces pos (items (map item_of all.items)) comma) }
{
    Ok(Box::new(alloc, Initializer::Braces(pos, all, comma))?)
}

pub(crate) fn plain(alloc: Global, value: Box<Initializer>) -> Result<Box<Item>, AllocError>
    ensures { IfOk result (λ x. item_of x.value ≡ tree.Plain (initializer_of value.value)) }
{
    Ok(Box::new(alloc, Item::Plain(Box::into_inner(value)))?)
}

pub(crate) fn member(
    alloc: Global,
    pos: Pos,
    name: &Name,
    value: Box<Initializer>,
) -> Result<Box<Item>, AllocError>
    ensures { IfOk result (λ x. item_of x.value ≡ tree.ForMember pos name.now (initializer_of value.value)) }
{
    let name = Name::new(alloc, name.bytes())?;
    Ok(Box::new(alloc, Item::Member(pos, name, Box::into_inner(value)))?)
}

pub(crate) fn index(
    alloc: Global,
    pos: Pos,
    index: Box<Expr>,
    value: Box<Initializer>,
) -> Result<Box<Item>, AllocError>
    ensures { IfOk result (λ x. item_of x.value
        ≡ tree.ForIndex pos (expr_of index.value) (initializer_of value.value)) }
{
    let index = Box::into_inner(index);
    Ok(Box::new(alloc, Item::Index(pos, index, Box::into_inner(value)))?)
}
