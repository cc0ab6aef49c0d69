//! Nodes of primary and unary expressions and of casts, and their heights.

ghost use Rattle.std.specs.Prelude.{◌≡◌, ◌+◌, ◌∷◌, ◌^◌, ◌<◌, max, IfOk};
ghost use Rattle.c_syntax.specs.Tree as tree;
ghost use Rattle.c_syntax.specs.View.{expr_of, type_name_of, literals_of};

use crate::part::Part;
use c_lexer::Units;
use c_syntax::expression::{Constant, Expr, Literals};
use c_syntax::operator::{Measure, Prefix};
use c_syntax::type_name::TypeName;
use critical_table::{Name, Pos};
use std::alloc::{AllocError, Global};

pub(crate) fn constant(
    alloc: Global,
    pos: Pos,
    constant: Constant,
) -> Result<Part<Expr>, AllocError>
    ensures tree { IfOk result (λ x. expr_of x.node.value ≡ tree.Const pos constant) }
    ensures height { IfOk result (λ x. x.height ≡ 1) }
{
    Ok(Part {
        height: 1,
        node: Box::new(alloc, Expr::Const(pos, constant))?,
    })
}

pub(crate) fn name(alloc: Global, pos: Pos, name: &Name) -> Result<Part<Expr>, AllocError>
    ensures tree { IfOk result (λ x. expr_of x.node.value ≡ tree.Id pos name.now) }
    ensures height { IfOk result (λ x. x.height ≡ 1) }
{
    let name = Name::new(alloc, name.bytes())?;
    Ok(Part {
        height: 1,
        node: Box::new(alloc, Expr::Id(pos, name))?,
    })
}

/// A string literal and those behind it.
pub(crate) fn literals(
    alloc: Global,
    first: &Units,
    more: Vec<Units>,
    wide: bool,
) -> Result<Literals, AllocError>
    ensures { IfOk result (λ text. literals_of text ≡ record { pieces = first.now ∷ more.items; wide = wide }) }
{
    let mut units = more;
    units.insert(0, Units::from_slice(alloc, first.as_slice())?)?;
    Ok(Literals { units, wide })
}

pub(crate) fn text(alloc: Global, pos: Pos, text: Literals) -> Result<Part<Expr>, AllocError>
    ensures tree { IfOk result (λ x. expr_of x.node.value ≡ tree.Text pos (literals_of text)) }
    ensures height { IfOk result (λ x. x.height ≡ 1) }
{
    Ok(Part {
        height: 1,
        node: Box::new(alloc, Expr::Text(pos, text))?,
    })
}

pub(crate) fn paren(alloc: Global, inner: Part<Expr>) -> Result<Part<Expr>, AllocError>
    requires { inner.height + 1 < 2 ^ 64 }
    ensures tree { IfOk result (λ x. expr_of x.node.value ≡ tree.Paren (expr_of inner.node.value)) }
    ensures height { IfOk result (λ x. x.height ≡ inner.height + 1) }
{
    Ok(Part {
        height: inner.height + 1,
        node: Box::new(alloc, Expr::Paren(inner.node))?,
    })
}

pub(crate) fn prefix(
    alloc: Global,
    pos: Pos,
    operator: Prefix,
    operand: Part<Expr>,
) -> Result<Part<Expr>, AllocError>
    requires { operand.height + 1 < 2 ^ 64 }
    ensures tree { IfOk result (λ x. expr_of x.node.value ≡ tree.PrefixOp pos operator (expr_of operand.node.value)) }
    ensures height { IfOk result (λ x. x.height ≡ operand.height + 1) }
{
    Ok(Part {
        height: operand.height + 1,
        node: Box::new(alloc, Expr::Prefix(pos, operator, operand.node))?,
    })
}

pub(crate) fn measure(
    alloc: Global,
    pos: Pos,
    operator: Measure,
    type_name: Part<TypeName>,
) -> Result<Part<Expr>, AllocError>
    requires { type_name.height + 1 < 2 ^ 64 }
    ensures tree { IfOk result (λ x. expr_of x.node.value
        ≡ tree.MeasureOp pos operator (type_name_of type_name.node.value)) }
    ensures height { IfOk result (λ x. x.height ≡ type_name.height + 1) }
{
    Ok(Part {
        height: type_name.height + 1,
        node: Box::new(alloc, Expr::Measure(pos, operator, type_name.node))?,
    })
}

pub(crate) fn cast(
    alloc: Global,
    pos: Pos,
    type_name: Part<TypeName>,
    operand: Part<Expr>,
) -> Result<Part<Expr>, AllocError>
    requires type_name { type_name.height + 1 < 2 ^ 64 }
    requires operand { operand.height + 1 < 2 ^ 64 }
    ensures tree { IfOk result (λ x. expr_of x.node.value
        ≡ tree.Cast pos (type_name_of type_name.node.value) (expr_of operand.node.value)) }
    ensures height { IfOk result (λ x. x.height ≡ max type_name.height operand.height + 1) }
{
    Ok(Part {
        height: type_name.height.max(operand.height) + 1,
        node: Box::new(alloc, Expr::Cast(pos, type_name.node, operand.node))?,
    })
}
