//! What an object of a type holds, and what is passed or stored as one (6.2.5, 6.2.6).
ghost use Rattle.std.specs.Prelude.{◌≡◌, ◌<◌};
ghost use Rattle.c_types.specs.CType.{type_of};
ghost use Rattle.c_types.specs.Structures.{structures_of};
ghost use Rattle.c_types.specs.Types.{count_of};
ghost use Rattle.c_conversions.specs.Contents as spec;

use crate::kind::{int_kind, integer};
use crate::versions::{is_compound, is_pointer, is_void};
use c_core::{Content, Scalar};
use c_types::{Layout, TypeId, TypeTable};

/// What an object of a scalar type holds; other types are none (6.2.5p21).
pub fn scalar(types: &TypeTable, id: TypeId) -> Option<Scalar>
    requires { id.0 < count_of types.now }
    ensures { result ≡ spec.scalar_in (type_of types.now id) }
{
    if is_pointer(types, id) {
        return Some(Scalar::Pointer);
    }
    match integer(types, id) {
        None => None,
        Some(basic) => Some(Scalar::Number(int_kind(basic))),
    }
}

/// The size of a type with this layout; 0 where there is none.
pub fn size(layout: Option<Layout>) -> u32
    ensures { result ≡ spec.size_in layout }
{
    match layout {
        None => 0,
        Some(layout) => layout.size,
    }
}

/// What is passed, returned or stored as one: a scalar, or a complete structure or union.
pub fn content(types: &TypeTable, id: TypeId) -> Option<Content>
    requires { id.0 < count_of types.now }
    ensures { result ≡ spec.content_in (type_of types.now id) (structures_of types.now) }
{
    if is_compound(types, id) {
        return match types.layout(id) {
            None => None,
            Some(layout) => Some(Content::Whole(layout.size)),
        };
    }
    match scalar(types, id) {
        None => None,
        Some(scalar) => Some(Content::Scalar(scalar)),
    }
}

/// What a call gives whose function has this result: nothing where it is `void`, else a value of a complete type.
///
/// None where no function may be called that gives it (6.5.2.2p1).
pub fn given(types: &TypeTable, id: TypeId) -> Option<Option<Content>>
    requires { id.0 < count_of types.now }
    ensures { result ≡ spec.given_in (type_of types.now id) (structures_of types.now) }
{
    if is_void(types, id) {
        return Some(None);
    }
    match content(types, id) {
        None => None,
        Some(content) => Some(Some(content)),
    }
}
