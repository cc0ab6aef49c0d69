//! Statements of their parts.

ghost use Rattle.std.specs.Prelude.{◌≡◌, map, IfOk};
ghost use Rattle.std.specs.Option.{option_map};
ghost use Rattle.c_syntax.specs.ViewUnit.{switch_items};
ghost use Rattle.c_syntax.specs.TreeUnit as tree;
ghost use Rattle.c_syntax.specs.View.{expr_of};
ghost use Rattle.c_syntax.specs.ViewUnit.{statement_of, block_item_of, block_items, switch_item_of, for_init_of};

use c_syntax::expression::Expr;
use c_syntax::statement::{BlockItem, ForInit, Statement, SwitchItem};
use critical_table::Pos;
use std::alloc::{AllocError, Global};

pub(crate) fn block(alloc: Global, items: Vec<BlockItem>) -> Result<Box<Statement>, AllocError>
    ensures { IfOk result (λ x. statement_of x.value ≡ tree.Block (block_items (map block_item_of items.items))) }
{
    Ok(Box::new(alloc, Statement::Block(items))?)
}

pub(crate) fn if_alone(
    alloc: Global,
    pos: Pos,
    test: Box<Expr>,
    then: Box<Statement>,
) -> Result<Box<Statement>, AllocError>
    ensures { IfOk result (λ x. statement_of x.value ≡ tree.If pos (expr_of test.value) (statement_of then.value)) }
{
    Ok(Box::new(alloc, Statement::If(pos, Box::into_inner(test), then, None))?)
}

pub(crate) fn if_else(
    alloc: Global,
    pos: Pos,
    test: Box<Expr>,
    then: Box<Statement>,
    other: Box<Statement>,
) -> Result<Box<Statement>, AllocError>
    ensures { IfOk result (λ x. statement_of x.value
        ≡ tree.IfElse pos (expr_of test.value) (statement_of then.value) (statement_of other.value)) }
{
    Ok(Box::new(
        alloc,
        Statement::If(pos, Box::into_inner(test), then, Some(other)),
    )?)
}

pub(crate) fn switch(
    alloc: Global,
    pos: Pos,
    test: Box<Expr>,
    items: Vec<SwitchItem>,
) -> Result<Box<Statement>, AllocError>
    ensures { IfOk result (λ x. statement_of x.value
        ≡ tree.Switch pos (expr_of test.value) (switch_items (map switch_item_of items.items))) }
{
    Ok(Box::new(alloc, Statement::Switch(pos, Box::into_inner(test), items))?)
}

pub(crate) fn while_loop(
    alloc: Global,
    pos: Pos,
    test: Box<Expr>,
    body: Box<Statement>,
) -> Result<Box<Statement>, AllocError>
    ensures { IfOk result (λ x. statement_of x.value ≡ tree.While pos (expr_of test.value) (statement_of body.value)) }
{
    Ok(Box::new(alloc, Statement::While(pos, Box::into_inner(test), body))?)
}

pub(crate) fn do_loop(
    alloc: Global,
    pos: Pos,
    body: Box<Statement>,
    test: Box<Expr>,
) -> Result<Box<Statement>, AllocError>
    ensures { IfOk result (λ x. statement_of x.value ≡ tree.Do pos (statement_of body.value) (expr_of test.value)) }
{
    Ok(Box::new(alloc, Statement::Do(pos, body, Box::into_inner(test)))?)
}

pub(crate) fn for_loop(
    alloc: Global,
    pos: Pos,
    init: Box<ForInit>,
    test: Box<Option<Expr>>,
    step: Box<Option<Expr>>,
    body: Box<Statement>,
) -> Result<Box<Statement>, AllocError>
    ensures { IfOk result (λ x. statement_of x.value
        ≡ tree.For pos (for_init_of init.value) (option_map expr_of test.value) (option_map expr_of step.value)
        (statement_of body.value)) }
{
    Ok(Box::new(
        alloc,
        Statement::For(
            pos,
            Box::into_inner(init),
            Box::into_inner(test),
            Box::into_inner(step),
            body,
        ),
    )?)
}
