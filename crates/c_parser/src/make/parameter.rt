//! Type names, parameters and members, and their heights.

ghost use Rattle.std.specs.Prelude.{◌≡◌, ◌+◌, ◌^◌, ◌<◌, max, map, IfOk};
ghost use Rattle.c_syntax.specs.Tree as tree;
ghost use Rattle.c_syntax.specs.View.{type_name_of, specifiers_of, declarator_of, declarators, parameter_of, member_of};

use crate::part::{Part, Parts};
use c_syntax::declarator::{Declarator, Parameter};
use c_syntax::specifier::{MemberDeclaration, Specifier};
use c_syntax::type_name::TypeName;
use std::alloc::{AllocError, Global};

pub(crate) fn type_name(
    alloc: Global,
    specifiers: Parts<Specifier>,
    declarator: Part<Declarator>,
) -> Result<Part<TypeName>, AllocError>
    requires specifiers { specifiers.height + 1 < 2 ^ 64 }
    requires declarator { declarator.height + 1 < 2 ^ 64 }
    ensures tree { IfOk result (λ x. type_name_of x.node.value
        ≡ tree.NamedType (specifiers_of specifiers.nodes.items) (declarator_of declarator.node.value)) }
    ensures height { IfOk result (λ x. x.height ≡ max specifiers.height declarator.height + 1) }
{
    let height = specifiers.height.max(declarator.height) + 1;
    let node = TypeName {
        specifiers: specifiers.nodes,
        declarator: Box::into_inner(declarator.node),
    };
    Ok(Part {
        node: Box::new(alloc, node)?,
        height,
    })
}

pub(crate) fn parameter(
    alloc: Global,
    specifiers: Parts<Specifier>,
    declarator: Part<Declarator>,
) -> Result<Part<Parameter>, AllocError>
    requires specifiers { specifiers.height + 1 < 2 ^ 64 }
    requires declarator { declarator.height + 1 < 2 ^ 64 }
    ensures tree { IfOk result (λ x. parameter_of x.node.value
        ≡ tree.Param (specifiers_of specifiers.nodes.items) (declarator_of declarator.node.value)) }
    ensures height { IfOk result (λ x. x.height ≡ max specifiers.height declarator.height + 1) }
{
    let height = specifiers.height.max(declarator.height) + 1;
    let node = Parameter {
        specifiers: specifiers.nodes,
        declarator: Box::into_inner(declarator.node),
    };
    Ok(Part {
        node: Box::new(alloc, node)?,
        height,
    })
}

pub(crate) fn member(
    alloc: Global,
    specifiers: Parts<Specifier>,
    all: Parts<Declarator>,
) -> Result<Part<MemberDeclaration>, AllocError>
    requires specifiers { specifiers.height + 1 < 2 ^ 64 }
    requires declarators { all.height + 1 < 2 ^ 64 }
    ensures tree { IfOk result (λ x. member_of x.node.value
        ≡ tree.Declares (specifiers_of specifiers.nodes.items) (declarators (map declarator_of all.nodes.items))) }
    ensures height { IfOk result (λ x. x.height ≡ max specifiers.height all.height + 1) }
{
    let height = specifiers.height.max(all.height) + 1;
    let node = MemberDeclaration {
        specifiers: specifiers.nodes,
        declarators: all.nodes,
    };
    Ok(Part {
        node: Box::new(alloc, node)?,
        height,
    })
}
