//! Whether two types are the same.

ghost use Rattle.std.specs.Prelude.{◌≡◌, ◌<◌};
ghost use Rattle.c_types.specs.CType.{bare_of, type_of};
ghost use Rattle.c_types.specs.Compatible.{same_quals};
ghost use Rattle.c_types.specs.Functions.{IsFunction, parameters_of};
ghost use Rattle.c_types.specs.Types.{count_of};
ghost use Rattle.c_decl_rules.specs.SameType as spec;

use c_types::parts::Made;
use c_types::{Quals, Shape, TypeId, TypeTable};

// Identically qualified (6.7.3p10).
fn same_quals(left: Quals, right: Quals) -> bool
    ensures { result ≡ same_quals left right }
{
    left.constant == right.constant
        && left.volatile == right.volatile
        && left.restricted == right.restricted
}

fn same_length(left: Option<u64>, right: Option<u64>) -> bool
    ensures { result ≡ spec.same_length left right }
{
    match left {
        None => right.is_none(),
        Some(m) => match right {
            None => false,
            Some(n) => m == n,
        },
    }
}

// Types without parts are the same; the other shape may be any.
fn same_leaves(left: Shape, right: Shape) -> bool
    ensures { result ≡ spec.same_leaves left right }
{
    match left {
        Shape::Basic(basic) => match right {
            Shape::Basic(other) => Made::place(basic) == Made::place(other),
            _ => false,
        },
        Shape::Enumerated(number) => match right {
            Shape::Enumerated(other) => number == other,
            _ => false,
        },
        Shape::Compound(number) => match right {
            Shape::Compound(other) => number == other,
            _ => false,
        },
        _ => false,
    }
}

/// The types are the same, where the outermost qualifiers count only if `strict` (6.7p3, 6.7.6.3p15).
///
/// There are at most as many calls as the type has parts.
#[cycle(same)]
#[tactic(auto, unfolding(crate::specs::SameType::same, crate::specs::SameType::same_bare))]
pub fn same(types: &TypeTable, a: TypeId, b: TypeId, strict: bool) -> bool
    requires a { a.0 < count_of types.now }
    requires b { b.0 < count_of types.now }
    ensures { result ≡ spec.same (type_of types.now a) (type_of types.now b) strict }
{
    let qualified = !strict || same_quals(types.quals(a), types.quals(b));
    let (left, right) = (types.shape(a), types.shape(b));
    match left {
        Shape::Array(of, length) => match right {
            Shape::Array(other, other_length) => {
                same_length(length, other_length) && same(types, of, other, strict)
            }
            _ => false,
        },
        Shape::Pointer(to) => match right {
            Shape::Pointer(other) => qualified && same(types, to, other, true),
            _ => false,
        },
        Shape::Function(_) => match right {
            Shape::Function(_) => qualified && same_functions(types, a, b),
            _ => false,
        },
        Shape::Basic(_) | Shape::Compound(_) | Shape::Enumerated(_) => {
            qualified && same_leaves(left, right)
        }
    }
}

// The function types are the same in what they give, in the ellipsis, and in their parameters.
#[cycle(same)]
#[tactic(auto, unfolding(crate::specs::SameType::same_bare))]
fn same_functions(types: &TypeTable, a: TypeId, b: TypeId) -> bool
    requires a { a.0 < count_of types.now }
    requires b { b.0 < count_of types.now }
    requires a_function { IsFunction (type_of types.now a) }
    requires b_function { IsFunction (type_of types.now b) }
    ensures { result ≡ spec.same_bare (bare_of (type_of types.now a)) (bare_of (type_of types.now b)) }
{
    same(types, types.gives(a), types.gives(b), true)
        && types.is_variadic(a) == types.is_variadic(b)
        && same_parameters(types, a, b)
}

// As many parameters, which are the same without their outermost qualifiers.
#[cycle(same)]
fn same_parameters(types: &TypeTable, a: TypeId, b: TypeId) -> bool
    requires a { a.0 < count_of types.now }
    requires b { b.0 < count_of types.now }
    requires a_function { IsFunction (type_of types.now a) }
    requires b_function { IsFunction (type_of types.now b) }
    ensures { result ≡ spec.all_same (parameters_of (type_of types.now a)) (parameters_of (type_of types.now b)) }
{
    let (left, right) = (types.parameters(a), types.parameters(b));
    if left.len() != right.len() {
        return false;
    }
    for i in 0..left.len() {
        if !same(types, left[i], right[i], false) {
            return false;
        }
    }
    true
}
