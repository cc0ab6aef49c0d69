//! Compatible types: the test, and its laws.

ghost use Rattle.std.specs.Prelude.{◌≡◌, ◌<◌, true, false};
ghost use Rattle.c_types.specs.Types.{count_of};
ghost use Rattle.c_types.specs.CType.{CType, type_of};
ghost use Rattle.c_types.specs.Functions.{IsFunction, parameters_of};
ghost use Rattle.c_types.specs.Compatible.{compatible, agree, bare_agree, all_agree, lengths_agree, same_quals};
ghost use Rattle.c_types.specs.Compatible.{is_int, leaves_agree};
ghost use Rattle.c_types.specs.CType.{bare_of};

use crate::basic::Basic;
use crate::parts::Made;
use crate::shape::{Quals, Shape, TypeId};
use crate::table::TypeTable;

impl TypeTable {
    /// The types are compatible (6.2.7p1, 6.7.2.2p4, 6.7.3p10, 6.7.6.1p2, 6.7.6.2p6, 6.7.6.3p15).
    pub fn compatible(&self, a: TypeId, b: TypeId) -> bool
        requires a { a.0 < count_of self.now }
        requires b { b.0 < count_of self.now }
        ensures { result ≡ compatible (type_of self.now a) (type_of self.now b) }
    {
        self.agree(a, b, true)
    }

    /// The types are compatible, whatever their outermost qualifiers are; of arrays those of their elements
    /// (6.7.6.3p15).
    pub fn compatible_unqualified(&self, a: TypeId, b: TypeId) -> bool
        requires a { a.0 < count_of self.now }
        requires b { b.0 < count_of self.now }
        ensures { result ≡ agree (type_of self.now a) (type_of self.now b) false }
    {
        self.agree(a, b, false)
    }

    // The types are compatible, where the outermost qualifiers count only if `strict`. It ends, since the parts of
    // a type have lower ids, and the members of a compound type are not looked at. Each part of the type is met at
    // most once, so there are at most as many calls as the type has parts.
    #[cycle(agree)]
    #[tactic(auto, unfolding(crate::specs::Compatible::agree, crate::specs::Compatible::bare_agree))]
    fn agree(&self, a: TypeId, b: TypeId, strict: bool) -> bool
        requires a { a.0 < count_of self.now }
        requires b { b.0 < count_of self.now }
        ensures { result ≡ agree (type_of self.now a) (type_of self.now b) strict }
    {
        if a == b {
            return true;
        }
        let (left, right) = (self.entry(a), self.entry(b));
        let qualified = !strict || same_quals(left.quals, right.quals);
        match left.shape {
            Shape::Array(of, length) => match right.shape {
                Shape::Array(other, other_length) => {
                    lengths_agree(length, other_length) && self.agree(of, other, strict)
                }
                _ => false,
            },
            Shape::Pointer(to) => match right.shape {
                Shape::Pointer(other) => qualified && self.agree(to, other, true),
                _ => false,
            },
            Shape::Function(_) => match right.shape {
                Shape::Function(_) => qualified && self.functions_agree(a, b),
                _ => false,
            },
            Shape::Basic(_) | Shape::Compound(_) | Shape::Enumerated(_) => {
                qualified && leaves_agree(left.shape, right.shape)
            }
        }
    }

    // The function types agree in what they give, in the ellipsis, and in their parameters.
    #[cycle(agree)]
    #[tactic(auto, unfolding(crate::specs::Compatible::bare_agree))]
    fn functions_agree(&self, a: TypeId, b: TypeId) -> bool
        requires a { a.0 < count_of self.now }
        requires b { b.0 < count_of self.now }
        requires a_function { IsFunction (type_of self.now a) }
        requires b_function { IsFunction (type_of self.now b) }
        ensures { result ≡ bare_agree (bare_of (type_of self.now a)) (bare_of (type_of self.now b)) }
    {
        self.agree(self.gives(a), self.gives(b), true)
            && self.is_variadic(a) == self.is_variadic(b)
            && self.parameters_agree(a, b)
    }

    // As many parameters, which agree without their outermost qualifiers.
    #[cycle(agree)]
    fn parameters_agree(&self, a: TypeId, b: TypeId) -> bool
        requires a { a.0 < count_of self.now }
        requires b { b.0 < count_of self.now }
        requires a_function { IsFunction (type_of self.now a) }
        requires b_function { IsFunction (type_of self.now b) }
        ensures { result ≡ all_agree (parameters_of (type_of self.now a)) (parameters_of (type_of self.now b)) }
    {
        let (left, right) = (self.parameters(a), self.parameters(b));
        if left.len() != right.len() {
            return false;
        }
        for i in 0..left.len() {
            if !self.agree(left[i], right[i], false) {
                return false;
            }
        }
        true
    }
}

/// A law of compatible types: each is compatible with itself, and none has to come first.
///
/// There is no third law: `int` is compatible with each enumerated type, and no two of these with each other.
pub fn compatibility_law()
    ensures reflexive { (a : CType) → compatible a a ≡ true }
    ensures symmetric { (a b : CType) → compatible a b ≡ compatible b a }
{}

// Identically qualified.
pub fn same_quals(left: Quals, right: Quals) -> bool
    ensures { result ≡ same_quals left right }
{
    left.constant == right.constant
        && left.volatile == right.volatile
        && left.restricted == right.restricted
}

// The lengths of two arrays agree where one is not given, or both are equal.
fn lengths_agree(left: Option<u64>, right: Option<u64>) -> bool
    ensures { result ≡ lengths_agree left right }
{
    match (left, right) {
        (Some(m), Some(n)) => m == n,
        _ => true,
    }
}

// The type is `int`.
fn is_int(basic: Basic) -> bool
    ensures { result ≡ is_int basic }
{
    Made::place(basic) == Made::place(Basic::Int)
}

// Types without parts agree; the other shape may be any.
fn leaves_agree(left: Shape, right: Shape) -> bool
    ensures { result ≡ leaves_agree left right }
{
    match left {
        Shape::Basic(basic) => match right {
            Shape::Basic(other) => Made::place(basic) == Made::place(other),
            Shape::Enumerated(_) => is_int(basic),
            _ => false,
        },
        Shape::Enumerated(number) => match right {
            Shape::Basic(other) => is_int(other),
            Shape::Enumerated(other) => number == other,
            _ => false,
        },
        Shape::Compound(number) => match right {
            Shape::Compound(other) => number == other,
            _ => false,
        },
        _ => false,
    }
}
