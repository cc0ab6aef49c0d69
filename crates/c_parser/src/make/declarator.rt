//! Declarators of their parts, and their heights.

ghost use Rattle.std.specs.Prelude.{◌≡◌, ◌+◌, ◌^◌, ◌<◌, max, map, IfOk};
ghost use Rattle.c_syntax.specs.Tree as tree;
ghost use Rattle.c_syntax.specs.View.{expr_of, declarator_of, parameter_of, parameters};

use crate::part::{Part, Parts};
use c_syntax::declarator::{Declarator, Parameter};
use c_syntax::expression::Expr;
use c_syntax::specifier::Qualifier;
use critical_table::{Name, Pos};
use std::alloc::{AllocError, Global};

pub(crate) fn omission(alloc: Global) -> Result<Part<Declarator>, AllocError>
    ensures tree { IfOk result (λ x. declarator_of x.node.value ≡ tree.Omitted) }
    ensures height { IfOk result (λ x. x.height ≡ 0) }
{
    Ok(Part {
        height: 0,
        node: Box::new(alloc, Declarator::Omitted)?,
    })
}

pub(crate) fn name(alloc: Global, pos: Pos, name: &Name) -> Result<Part<Declarator>, AllocError>
    ensures tree { IfOk result (λ x. declarator_of x.node.value ≡ tree.Name pos name.now) }
    ensures height { IfOk result (λ x. x.height ≡ 1) }
{
    let name = Name::new(alloc, name.bytes())?;
    Ok(Part {
        height: 1,
        node: Box::new(alloc, Declarator::Name(pos, name))?,
    })
}

pub(crate) fn paren(alloc: Global, inner: Part<Declarator>) -> Result<Part<Declarator>, AllocError>
    requires { inner.height + 1 < 2 ^ 64 }
    ensures tree { IfOk result (λ x. declarator_of x.node.value ≡ tree.DParen (declarator_of inner.node.value)) }
    ensures height { IfOk result (λ x. x.height ≡ inner.height + 1) }
{
    Ok(Part {
        height: inner.height + 1,
        node: Box::new(alloc, Declarator::DParen(inner.node))?,
    })
}

pub(crate) fn pointer(
    alloc: Global,
    qualifiers: Vec<Qualifier>,
    inner: Part<Declarator>,
) -> Result<Part<Declarator>, AllocError>
    requires { inner.height + 1 < 2 ^ 64 }
    ensures tree { IfOk result (λ x. declarator_of x.node.value
        ≡ tree.PointerTo qualifiers.items (declarator_of inner.node.value)) }
    ensures height { IfOk result (λ x. x.height ≡ inner.height + 1) }
{
    Ok(Part {
        height: inner.height + 1,
        node: Box::new(alloc, Declarator::PointerTo(qualifiers, inner.node))?,
    })
}

/// An array without a length.
pub(crate) fn open_array(
    alloc: Global,
    inner: Part<Declarator>,
) -> Result<Part<Declarator>, AllocError>
    requires { inner.height + 1 < 2 ^ 64 }
    ensures tree { IfOk result (λ x. declarator_of x.node.value
        ≡ tree.ArrayOf (declarator_of inner.node.value) tree.Without) }
    ensures height { IfOk result (λ x. x.height ≡ inner.height + 1) }
{
    Ok(Part {
        height: inner.height + 1,
        node: Box::new(alloc, Declarator::ArrayOf(inner.node, None))?,
    })
}

pub(crate) fn array(
    alloc: Global,
    inner: Part<Declarator>,
    length: Part<Expr>,
) -> Result<Part<Declarator>, AllocError>
    requires inner { inner.height + 1 < 2 ^ 64 }
    requires length { length.height + 1 < 2 ^ 64 }
    ensures tree { IfOk result (λ x. declarator_of x.node.value
        ≡ tree.ArrayOf (declarator_of inner.node.value) (tree.With (expr_of length.node.value))) }
    ensures height { IfOk result (λ x. x.height ≡ max inner.height length.height + 1) }
{
    Ok(Part {
        height: inner.height.max(length.height) + 1,
        node: Box::new(alloc, Declarator::ArrayOf(inner.node, Some(length.node)))?,
    })
}

pub(crate) fn function(
    alloc: Global,
    inner: Part<Declarator>,
    all: Parts<Parameter>,
    variadic: bool,
) -> Result<Part<Declarator>, AllocError>
    requires inner { inner.height + 1 < 2 ^ 64 }
    requires all { all.height + 1 < 2 ^ 64 }
    ensures tree { IfOk result (λ x. declarator_of x.node.value
        ≡ tree.FunctionOf (declarator_of inner.node.value) (parameters (map parameter_of all.nodes.items)) variadic) }
    ensures height { IfOk result (λ x. x.height ≡ max inner.height all.height + 1) }
{
    Ok(Part {
        height: inner.height.max(all.height) + 1,
        node: Box::new(
            alloc,
            Declarator::FunctionOf(inner.node, all.nodes, variadic),
        )?,
    })
}
