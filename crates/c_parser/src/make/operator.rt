//! Nodes with operators, and their heights.

ghost use Rattle.std.specs.Prelude.{◌≡◌, ◌+◌, ◌^◌, ◌<◌, max, map, IfOk};
ghost use Rattle.c_syntax.specs.Tree as tree;
ghost use Rattle.c_syntax.specs.View.{expr_of, exprs};

use crate::part::{Part, Parts};
use c_syntax::expression::Expr;
use c_syntax::operator::{Access, Infix, Postfix};
use critical_table::{Name, Pos};
use std::alloc::{AllocError, Global};

pub(crate) fn infix(
    alloc: Global,
    pos: Pos,
    operator: Infix,
    left: Part<Expr>,
    right: Part<Expr>,
) -> Result<Part<Expr>, AllocError>
    requires left { left.height + 1 < 2 ^ 64 }
    requires right { right.height + 1 < 2 ^ 64 }
    ensures tree { IfOk result (λ x. expr_of x.node.value
        ≡ tree.InfixOp pos operator (expr_of left.node.value) (expr_of right.node.value)) }
    ensures height { IfOk result (λ x. x.height ≡ max left.height right.height + 1) }
{
    Ok(Part {
        height: left.height.max(right.height) + 1,
        node: Box::new(alloc, Expr::Infix(pos, operator, left.node, right.node))?,
    })
}

pub(crate) fn index(
    alloc: Global,
    pos: Pos,
    left: Part<Expr>,
    right: Part<Expr>,
) -> Result<Part<Expr>, AllocError>
    requires left { left.height + 1 < 2 ^ 64 }
    requires right { right.height + 1 < 2 ^ 64 }
    ensures tree { IfOk result (λ x. expr_of x.node.value
        ≡ tree.Index pos (expr_of left.node.value) (expr_of right.node.value)) }
    ensures height { IfOk result (λ x. x.height ≡ max left.height right.height + 1) }
{
    Ok(Part {
        height: left.height.max(right.height) + 1,
        node: Box::new(alloc, Expr::Index(pos, left.node, right.node))?,
    })
}

pub(crate) fn call(
    alloc: Global,
    pos: Pos,
    function: Part<Expr>,
    arguments: Parts<Expr>,
) -> Result<Part<Expr>, AllocError>
    requires function { function.height + 1 < 2 ^ 64 }
    requires arguments { arguments.height + 1 < 2 ^ 64 }
    ensures tree { IfOk result (λ x. expr_of x.node.value
        ≡ tree.Call pos (expr_of function.node.value) (exprs (map expr_of arguments.nodes.items))) }
    ensures height { IfOk result (λ x. x.height ≡ max function.height arguments.height + 1) }
{
    Ok(Part {
        height: function.height.max(arguments.height) + 1,
        node: Box::new(alloc, Expr::Call(pos, function.node, arguments.nodes))?,
    })
}

pub(crate) fn member(
    alloc: Global,
    pos: Pos,
    access: Access,
    whole: Part<Expr>,
    name: Name,
) -> Result<Part<Expr>, AllocError>
    requires { whole.height + 1 < 2 ^ 64 }
    ensures tree { IfOk result (λ x. expr_of x.node.value ≡ tree.Member pos access (expr_of whole.node.value) name) }
    ensures height { IfOk result (λ x. x.height ≡ whole.height + 1) }
{
    Ok(Part {
        height: whole.height + 1,
        node: Box::new(alloc, Expr::Member(pos, access, whole.node, name))?,
    })
}

pub(crate) fn postfix(
    alloc: Global,
    pos: Pos,
    operator: Postfix,
    operand: Part<Expr>,
) -> Result<Part<Expr>, AllocError>
    requires { operand.height + 1 < 2 ^ 64 }
    ensures tree { IfOk result (λ x. expr_of x.node.value ≡ tree.PostfixOp pos operator (expr_of operand.node.value)) }
    ensures height { IfOk result (λ x. x.height ≡ operand.height + 1) }
{
    Ok(Part {
        height: operand.height + 1,
        node: Box::new(alloc, Expr::Postfix(pos, operator, operand.node))?,
    })
}

pub(crate) fn cond(
    alloc: Global,
    pos: Pos,
    test: Part<Expr>,
    first: Part<Expr>,
    second: Part<Expr>,
) -> Result<Part<Expr>, AllocError>
    requires test { test.height + 1 < 2 ^ 64 }
    requires first { first.height + 1 < 2 ^ 64 }
    requires second { second.height + 1 < 2 ^ 64 }
    ensures tree { IfOk result (λ x. expr_of x.node.value
        ≡ tree.Cond pos (expr_of test.node.value) (expr_of first.node.value) (expr_of second.node.value)) }
    ensures height { IfOk result (λ x. x.height ≡ max test.height (max first.height second.height) + 1) }
{
    Ok(Part {
        height: test.height.max(first.height.max(second.height)) + 1,
        node: Box::new(alloc, Expr::Cond(pos, test.node, first.node, second.node))?,
    })
}
