//! The kinds of integers: widths, bytes, signs and ranges (6.2.5, 6.2.6).
ghost use Rattle.std.specs.Prelude.{◌≡◌};
ghost use Rattle.acc_num.specs.Kinds.{width_of, bytes_of, is_signed};
ghost use Rattle.acc_num.specs.Numbers.{least_of, greatest_of};

use crate::power::power_of_two;

/// The kinds of integers: `_Bool`, and the signed and unsigned ones of 8, 16, 32 and 64 bits (6.2.5).
///
/// `Bool` is an unsigned kind of width 1.
#[derive(Clone, Copy, Debug, PartialEq, Eq)]
pub enum IntKind {
    Bool,
    I8,
    U8,
    I16,
    U16,
    I32,
    U32,
    I64,
    U64,
}

/// The width: how many value and sign bits a value of the kind has (6.2.6.2p6).
pub fn width(kind: IntKind) -> u32
    ensures { result ≡ width_of kind }
{
    match kind {
        IntKind::Bool => 1,
        IntKind::I8 | IntKind::U8 => 8,
        IntKind::I16 | IntKind::U16 => 16,
        IntKind::I32 | IntKind::U32 => 32,
        IntKind::I64 | IntKind::U64 => 64,
    }
}

/// How many bytes a value of the kind takes (6.2.6.1p4); a `_Bool` takes one.
pub fn bytes(kind: IntKind) -> u32
    ensures { result ≡ bytes_of kind }
{
    width(kind).div_ceil(8)
}

/// Whether the kind has negative values (6.2.5p4 and p6).
pub fn is_signed(kind: IntKind) -> bool
    ensures { result ≡ is_signed kind }
{
    matches!(
        kind,
        IntKind::I8 | IntKind::I16 | IntKind::I32 | IntKind::I64
    )
}

/// The least value of the kind: 0 or, with a sign, -2^(N-1) (6.2.6.2p2).
pub fn least(kind: IntKind) -> i128
    ensures { result ≡ least_of kind }
{
    if is_signed(kind) {
        -power_of_two(width(kind) - 1)
    } else {
        0
    }
}

/// The greatest value of the kind: 2^N - 1 or, with a sign, 2^(N-1) - 1 (6.2.6.2p1 and p2).
pub fn greatest(kind: IntKind) -> i128
    ensures { result ≡ greatest_of kind }
{
    let value_bits = if is_signed(kind) {
        width(kind) - 1
    } else {
        width(kind)
    };
    power_of_two(value_bits) - 1
}
