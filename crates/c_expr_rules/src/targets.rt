//! What pointers point to, and over what they move (6.5.3.2, 6.5.6).
ghost use Rattle.std.specs.Prelude.{◌≡◌, ◌<◌};
ghost use Rattle.c_types.specs.CType.{type_of};
ghost use Rattle.c_types.specs.Structures.{structures_of};
ghost use Rattle.c_types.specs.Types.{count_of};
ghost use Rattle.c_expr_rules.specs.Targets as rule;

use c_conversions::content::size;
use c_conversions::kind::integer;
use c_conversions::versions::{is_pointer, pointee};
use c_core::Stride;
use c_types::{Basic, Layout, TypeId, TypeTable};

/// The basic type of an integer type; `int` stands for others.
pub fn basic(types: &TypeTable, id: TypeId) -> Basic
    requires { id.0 < count_of types.now }
    ensures { result ≡ rule.basic_in (type_of types.now id) }
{
    match integer(types, id) {
        None => Basic::Int,
        Some(basic) => basic,
    }
}

/// What a pointer type points to; `void` stands for others.
pub fn target(types: &TypeTable, id: TypeId) -> TypeId
    requires { id.0 < count_of types.now }
    ensures is_there { result.0 < count_of types.now }
    ensures stands_for { type_of types.now result ≡ rule.target_of (type_of types.now id) }
{
    match pointee(types, id) {
        None => types.basic(Basic::Void),
        Some(to) => to,
    }
}

/// The alignment of a type with this layout; 0 where there is none.
pub(crate) fn align(layout: Option<Layout>) -> u32
    ensures { result ≡ rule.align_in layout }
{
    match layout {
        None => 0,
        Some(layout) => layout.align,
    }
}

/// The type is complete, and so no function type (6.2.5p1).
pub fn is_complete(types: &TypeTable, id: TypeId) -> bool
    requires { id.0 < count_of types.now }
    ensures { result ≡ rule.is_complete (type_of types.now id) (structures_of types.now) }
{
    types.layout(id).is_some()
}

/// A pointer of that type may move; other types don't move.
pub fn may_move(types: &TypeTable, id: TypeId) -> bool
    requires { id.0 < count_of types.now }
    ensures { result ≡ rule.may_move (structures_of types.now) (type_of types.now id) }
{
    !is_pointer(types, id) || is_complete(types, target(types, id))
}

/// How a pointer of that type moves, forwards or back.
pub fn stride(types: &TypeTable, id: TypeId, back: bool) -> Stride
    requires { id.0 < count_of types.now }
    ensures { result ≡ rule.stride (structures_of types.now) (type_of types.now id) back }
{
    let size = size(types.layout(target(types, id)));
    Stride { size, back }
}
