//! Integer types: the integer promotions and the usual arithmetic conversions (6.3.1).
ghost use Rattle.std.specs.Prelude.{◌≡◌, ◌<◌};
ghost use Rattle.c_types.specs.CType.{type_of, number_of};
ghost use Rattle.c_types.specs.Types.{count_of};
ghost use Rattle.c_conversions.specs.Kinds as spec;

use acc_num::IntKind;
use acc_num::kind::width;
use c_types::{Basic, Shape, TypeId, TypeTable};

// The integer type that a basic type is.
fn integer_basic(basic: Basic) -> Option<Basic>
    ensures { result ≡ spec.integer_basic basic }
{
    match basic {
        Basic::Void => None,
        other => Some(other),
    }
}

/// The integer type that a type is, whatever its qualifiers are; an enumerated type counts as `int` (6.7.2.2p4).
pub fn integer(types: &TypeTable, id: TypeId) -> Option<Basic>
    requires { id.0 < count_of types.now }
    ensures { result ≡ spec.integer_in (type_of types.now id) }
{
    match types.shape(id) {
        Shape::Basic(basic) => integer_basic(basic),
        Shape::Enumerated(_) => Some(Basic::Int),
        Shape::Pointer(_) => None,
        Shape::Array(_, _) => None,
        Shape::Function(_) => None,
        Shape::Compound(_) => None,
    }
}

/// The type is an integer type.
pub fn is_integer(types: &TypeTable, id: TypeId) -> bool
    requires { id.0 < count_of types.now }
    ensures { result ≡ spec.is_integer (type_of types.now id) }
{
    integer(types, id).is_some()
}

/// The kind of an integer type; `void` counts as `int`.
pub fn int_kind(basic: Basic) -> IntKind
    ensures { result ≡ spec.int_kind basic }
{
    match basic {
        Basic::Void | Basic::Int => IntKind::I32,
        Basic::Bool => IntKind::Bool,
        Basic::Char | Basic::SChar => IntKind::I8,
        Basic::UChar => IntKind::U8,
        Basic::Short => IntKind::I16,
        Basic::UShort => IntKind::U16,
        Basic::UInt => IntKind::U32,
        Basic::Long | Basic::LongLong => IntKind::I64,
        Basic::ULong | Basic::ULongLong => IntKind::U64,
    }
}

/// The type to which the integer promotions take a type (6.3.1.1p2).
pub fn promoted(basic: Basic) -> Basic
    ensures { result ≡ spec.promoted basic }
{
    match basic {
        Basic::UInt => Basic::UInt,
        Basic::Long => Basic::Long,
        Basic::ULong => Basic::ULong,
        Basic::LongLong => Basic::LongLong,
        Basic::ULongLong => Basic::ULongLong,
        _ => Basic::Int,
    }
}

/// The conversion rank of a promoted type: 1 for `int`, 2 for `long`, 3 for `long long` (6.3.1.1p1).
pub fn rank(basic: Basic) -> u8
    ensures { result ≡ spec.rank basic }
{
    match basic {
        Basic::Long | Basic::ULong => 2,
        Basic::LongLong | Basic::ULongLong => 3,
        _ => 1,
    }
}

/// A promoted type is unsigned.
pub fn is_unsigned(basic: Basic) -> bool
    ensures { result ≡ spec.is_unsigned basic }
{
    match basic {
        Basic::UInt | Basic::ULong | Basic::ULongLong => true,
        _ => false,
    }
}

fn unsigned_of(basic: Basic) -> Basic
    ensures { result ≡ spec.unsigned_of basic }
{
    match basic {
        Basic::Long => Basic::ULong,
        Basic::LongLong => Basic::ULongLong,
        _ => Basic::UInt,
    }
}

fn common_mixed(unsigned: Basic, signed: Basic) -> Basic
    ensures { result ≡ spec.common_mixed unsigned signed }
{
    if rank(signed) <= rank(unsigned) {
        return unsigned;
    }
    if width(int_kind(unsigned)) + 1 <= width(int_kind(signed)) {
        return signed;
    }
    unsigned_of(signed)
}

fn common_alike(left: Basic, right: Basic) -> Basic
    ensures { result ≡ spec.common_alike left right }
{
    if rank(right) <= rank(left) {
        return left;
    }
    right
}

/// The common type of two operands (6.3.1.8p1).
pub fn common(left: Basic, right: Basic) -> Basic
    ensures { result ≡ spec.common left right }
{
    let (left, right) = (promoted(left), promoted(right));
    if is_unsigned(left) {
        if is_unsigned(right) {
            return common_alike(left, right);
        }
        return common_mixed(left, right);
    }
    if is_unsigned(right) {
        return common_mixed(right, left);
    }
    common_alike(left, right)
}

// The number of a basic type in the order of 6.2.5.
fn number(basic: Basic) -> u8
    ensures { result ≡ number_of basic }
{
    match basic {
        Basic::Void => 0,
        Basic::Bool => 1,
        Basic::Char => 2,
        Basic::SChar => 3,
        Basic::UChar => 4,
        Basic::Short => 5,
        Basic::UShort => 6,
        Basic::Int => 7,
        Basic::UInt => 8,
        Basic::Long => 9,
        Basic::ULong => 10,
        Basic::LongLong => 11,
        Basic::ULongLong => 12,
    }
}

/// The type is this basic type, whatever its qualifiers are.
pub fn is_basic(types: &TypeTable, id: TypeId, to: Basic) -> bool
    requires { id.0 < count_of types.now }
    ensures { result ≡ spec.is_basic (type_of types.now id) to }
{
    match types.shape(id) {
        Shape::Basic(basic) => number(basic) == number(to),
        Shape::Enumerated(_) => false,
        Shape::Pointer(_) => false,
        Shape::Array(_, _) => false,
        Shape::Function(_) => false,
        Shape::Compound(_) => false,
    }
}
