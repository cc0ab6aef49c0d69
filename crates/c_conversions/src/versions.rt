//! What types are and what they point to, without regard to qualifiers; versions of compatible types (6.2.5, 6.7.3).
ghost use Rattle.std.specs.Prelude.{◌≡◌, ◌<◌, IfSome, option_map};
ghost use Rattle.c_types.specs.CType.{type_of};
ghost use Rattle.c_types.specs.Types.{count_of};
ghost use Rattle.c_conversions.specs.Versions as spec;

use crate::kind::is_integer;
use c_types::{Basic, Quals, Shape, TypeId, TypeTable};

/// What a pointer type points to; another type points to nothing.
pub fn pointee(types: &TypeTable, id: TypeId) -> Option<TypeId>
    requires { id.0 < count_of types.now }
    ensures target { option_map (type_of types.now) result ≡ spec.pointee (type_of types.now id) }
    ensures is_in { IfSome result (λ to. to.0 < count_of types.now) }
{
    match types.shape(id) {
        Shape::Pointer(to) => Some(to),
        Shape::Basic(_) => None,
        Shape::Enumerated(_) => None,
        Shape::Array(_, _) => None,
        Shape::Function(_) => None,
        Shape::Compound(_) => None,
    }
}

/// The type is a pointer type.
pub fn is_pointer(types: &TypeTable, id: TypeId) -> bool
    requires { id.0 < count_of types.now }
    ensures { result ≡ spec.is_pointer (type_of types.now id) }
{
    match types.shape(id) {
        Shape::Pointer(_) => true,
        Shape::Basic(_) => false,
        Shape::Enumerated(_) => false,
        Shape::Array(_, _) => false,
        Shape::Function(_) => false,
        Shape::Compound(_) => false,
    }
}

/// The type is an array type.
pub fn is_array(types: &TypeTable, id: TypeId) -> bool
    requires { id.0 < count_of types.now }
    ensures { result ≡ spec.is_array (type_of types.now id) }
{
    match types.shape(id) {
        Shape::Array(_, _) => true,
        Shape::Pointer(_) => false,
        Shape::Basic(_) => false,
        Shape::Enumerated(_) => false,
        Shape::Function(_) => false,
        Shape::Compound(_) => false,
    }
}

/// The type is a function type.
pub fn is_function(types: &TypeTable, id: TypeId) -> bool
    requires { id.0 < count_of types.now }
    ensures { result ≡ spec.is_function (type_of types.now id) }
{
    match types.shape(id) {
        Shape::Function(_) => true,
        Shape::Pointer(_) => false,
        Shape::Basic(_) => false,
        Shape::Enumerated(_) => false,
        Shape::Array(_, _) => false,
        Shape::Compound(_) => false,
    }
}

/// The type is a structure or union type.
pub fn is_compound(types: &TypeTable, id: TypeId) -> bool
    requires { id.0 < count_of types.now }
    ensures { result ≡ spec.is_compound (type_of types.now id) }
{
    match types.shape(id) {
        Shape::Compound(_) => true,
        Shape::Pointer(_) => false,
        Shape::Basic(_) => false,
        Shape::Enumerated(_) => false,
        Shape::Array(_, _) => false,
        Shape::Function(_) => false,
    }
}

fn is_void_basic(basic: Basic) -> bool
    ensures { result ≡ spec.is_void_basic basic }
{
    match basic {
        Basic::Void => true,
        _ => false,
    }
}

/// The type is `void`, whatever its qualifiers are.
pub fn is_void(types: &TypeTable, id: TypeId) -> bool
    requires { id.0 < count_of types.now }
    ensures { result ≡ spec.is_void (type_of types.now id) }
{
    match types.shape(id) {
        Shape::Basic(basic) => is_void_basic(basic),
        Shape::Pointer(_) => false,
        Shape::Enumerated(_) => false,
        Shape::Array(_, _) => false,
        Shape::Function(_) => false,
        Shape::Compound(_) => false,
    }
}

/// The type is an arithmetic or pointer type (6.2.5p21).
pub fn is_scalar(types: &TypeTable, id: TypeId) -> bool
    requires { id.0 < count_of types.now }
    ensures { result ≡ spec.is_scalar (type_of types.now id) }
{
    is_integer(types, id) || is_pointer(types, id)
}

/// The qualifiers that the type has itself; an array has none (6.7.3p9).
pub fn own_quals(types: &TypeTable, id: TypeId) -> Quals
    requires { id.0 < count_of types.now }
    ensures { result ≡ spec.own_quals (type_of types.now id) }
{
    if is_array(types, id) {
        return Quals::NONE;
    }
    types.quals(id)
}

fn is_none(quals: Quals) -> bool
    ensures { result ≡ spec.are_none quals }
{
    !quals.constant && !quals.volatile && !quals.restricted
}

/// The type is a pointer to `void` without qualifiers.
pub fn is_plain_void_pointer(types: &TypeTable, id: TypeId) -> bool
    requires { id.0 < count_of types.now }
    ensures { result ≡ spec.is_plain_void_pointer (type_of types.now id) }
{
    match pointee(types, id) {
        None => false,
        Some(to) => is_void(types, to) && is_none(own_quals(types, to)),
    }
}

/// The second type has all the qualifiers of the first.
pub fn has_quals_of(types: &TypeTable, from: TypeId, to: TypeId) -> bool
    requires from { from.0 < count_of types.now }
    requires to { to.0 < count_of types.now }
    ensures { result ≡ spec.has_quals_of (type_of types.now from) (type_of types.now to) }
{
    let (from, to) = (own_quals(types, from), own_quals(types, to));
    (!from.constant || to.constant)
        && (!from.volatile || to.volatile)
        && (!from.restricted || to.restricted)
}

/// The types are qualified or unqualified versions of compatible types.
pub fn are_versions(types: &TypeTable, a: TypeId, b: TypeId) -> bool
    requires a { a.0 < count_of types.now }
    requires b { b.0 < count_of types.now }
    ensures { result ≡ spec.are_versions (type_of types.now a) (type_of types.now b) }
{
    if is_array(types, a) {
        return types.compatible(a, b);
    }
    types.compatible_unqualified(a, b)
}
