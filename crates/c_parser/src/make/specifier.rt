//! Specifiers and enumerators (6.7.1 to 6.7.4, 6.7.8), and their heights.

ghost use Rattle.std.specs.Prelude.{◌≡◌, ◌+◌, ◌^◌, ◌<◌, map, Some, None, IfOk};
ghost use Rattle.c_syntax.specs.Tree as tree;
ghost use Rattle.c_syntax.specs.View.{expr_of, specifier_of, member_of, members, enumerator_of, enumerators};

use crate::part::{Part, Parts};
use c_syntax::expression::Expr;
use c_syntax::specifier::{
    BasicWord, CompoundWord, Enumerator, MemberDeclaration, Qualifier, Specifier, Storage, Tag,
};
use critical_table::{Name, Pos};
use std::alloc::{AllocError, Global};

pub(crate) fn storage(alloc: Global, pos: Pos, word: Storage) -> Result<Part<Specifier>, AllocError>
    ensures tree { IfOk result (λ x. specifier_of x.node.value ≡ tree.StorageClass pos word) }
    ensures height { IfOk result (λ x. x.height ≡ 0) }
{
    Ok(Part {
        node: Box::new(alloc, Specifier::Storage(pos, word))?,
        height: 0,
    })
}

pub(crate) fn qualifier(
    alloc: Global,
    pos: Pos,
    word: Qualifier,
) -> Result<Part<Specifier>, AllocError>
    ensures tree { IfOk result (λ x. specifier_of x.node.value ≡ tree.TypeQualifier pos word) }
    ensures height { IfOk result (λ x. x.height ≡ 0) }
{
    Ok(Part {
        node: Box::new(alloc, Specifier::Qualifier(pos, word))?,
        height: 0,
    })
}

pub(crate) fn inline(alloc: Global, pos: Pos) -> Result<Part<Specifier>, AllocError>
    ensures tree { IfOk result (λ x. specifier_of x.node.value ≡ tree.Inline pos) }
    ensures height { IfOk result (λ x. x.height ≡ 0) }
{
    Ok(Part {
        node: Box::new(alloc, Specifier::Inline(pos))?,
        height: 0,
    })
}

pub(crate) fn basic(alloc: Global, pos: Pos, word: BasicWord) -> Result<Part<Specifier>, AllocError>
    ensures tree { IfOk result (λ x. specifier_of x.node.value ≡ tree.BasicType pos word) }
    ensures height { IfOk result (λ x. x.height ≡ 0) }
{
    Ok(Part {
        node: Box::new(alloc, Specifier::BasicWord(pos, word))?,
        height: 0,
    })
}

pub(crate) fn typedef_name(
    alloc: Global,
    pos: Pos,
    name: &Name,
) -> Result<Part<Specifier>, AllocError>
    ensures tree { IfOk result (λ x. specifier_of x.node.value ≡ tree.TypedefName pos name.now) }
    ensures height { IfOk result (λ x. x.height ≡ 0) }
{
    let name = Name::new(alloc, name.bytes())?;
    Ok(Part {
        node: Box::new(alloc, Specifier::TypedefName(pos, name))?,
        height: 0,
    })
}

pub(crate) fn compound_tag(
    alloc: Global,
    pos: Pos,
    word: CompoundWord,
    tag: Tag,
) -> Result<Part<Specifier>, AllocError>
    ensures tree { IfOk result (λ x. specifier_of x.node.value ≡ tree.CompoundTag pos word tag) }
    ensures height { IfOk result (λ x. x.height ≡ 1) }
{
    Ok(Part {
        node: Box::new(alloc, Specifier::CompoundTag(pos, word, tag))?,
        height: 1,
    })
}

pub(crate) fn enum_tag(alloc: Global, pos: Pos, tag: Tag) -> Result<Part<Specifier>, AllocError>
    ensures tree { IfOk result (λ x. specifier_of x.node.value ≡ tree.EnumTag pos tag) }
    ensures height { IfOk result (λ x. x.height ≡ 1) }
{
    Ok(Part {
        node: Box::new(alloc, Specifier::EnumTag(pos, tag))?,
        height: 1,
    })
}

pub(crate) fn compound(
    alloc: Global,
    pos: Pos,
    word: CompoundWord,
    tag: Option<Tag>,
    all: Parts<MemberDeclaration>,
) -> Result<Part<Specifier>, AllocError>
    requires { all.height + 1 < 2 ^ 64 }
    ensures tree { IfOk result (λ x. specifier_of x.node.value
        ≡ tree.Compound pos word tag (members (map member_of all.nodes.items))) }
    ensures height { IfOk result (λ x. x.height ≡ all.height + 1) }
{
    Ok(Part {
        height: all.height + 1,
        node: Box::new(alloc, Specifier::Compound(pos, word, tag, all.nodes))?,
    })
}

pub(crate) fn enumeration(
    alloc: Global,
    pos: Pos,
    tag: Option<Tag>,
    all: Parts<Enumerator>,
    comma: bool,
) -> Result<Part<Specifier>, AllocError>
    requires { all.height + 1 < 2 ^ 64 }
    ensures tree { IfOk result (λ x. specifier_of x.node.value
        ≡ tree.Enum pos tag (enumerators (map enumerator_of all.nodes.items)) comma) }
    ensures height { IfOk result (λ x. x.height ≡ all.height + 1) }
{
    Ok(Part {
        height: all.height + 1,
        node: Box::new(alloc, Specifier::Enum(pos, tag, all.nodes, comma))?,
    })
}

/// An enumerator with no value of its own.
pub(crate) fn plain_enumerator(
    alloc: Global,
    pos: Pos,
    name: &Name,
) -> Result<Part<Enumerator>, AllocError>
    ensures tree { IfOk result (λ x. enumerator_of x.node.value ≡ tree.Enumerates pos name.now tree.Without) }
    ensures height { IfOk result (λ x. x.height ≡ 0) }
{
    let name = Name::new(alloc, name.bytes())?;
    let value = None;
    Ok(Part {
        node: Box::new(alloc, Enumerator { pos, name, value })?,
        height: 0,
    })
}

pub(crate) fn enumerator(
    alloc: Global,
    pos: Pos,
    name: &Name,
    value: Part<Expr>,
) -> Result<Part<Enumerator>, AllocError>
    ensures tree { IfOk result (λ x. enumerator_of x.node.value
        ≡ tree.Enumerates pos name.now (tree.With (expr_of value.node.value))) }
    ensures height { IfOk result (λ x. x.height ≡ value.height) }
{
    let name = Name::new(alloc, name.bytes())?;
    let height = value.height;
    let value = Some(value.node);
    Ok(Part {
        node: Box::new(alloc, Enumerator { pos, name, value })?,
        height,
    })
}
