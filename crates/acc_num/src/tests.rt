//! Values of each operation: at the edges of each kind, and those that the standard names.
ghost use Rattle.std.specs.Prelude.{IsTrue};
ghost use Rattle.acc_num.specs.Numbers.{InRange};

use super::*;
use std::test::Fail;

// A kind, two operands, and their sum, difference, product, quotient, remainder, left shift and right shift in that
// kind, as gcc 12.2 on x86-64 computes them (oracles/integer_edges.c). A word stands where C gives none.
static EDGES: [&str; 128] = [
    "Bool 0 0 0 0 0 zero zero 0 0",
    "Bool 0 1 1 1 0 0 0 shift shift",
    "Bool 1 0 1 1 0 zero zero 1 1",
    "Bool 1 1 0 0 1 1 0 shift shift",
    "I8 -128 -1 overflow -127 overflow overflow overflow shift shift",
    "I8 -128 -128 overflow 0 overflow 1 0 shift shift",
    "I8 -128 1 -127 overflow -128 -128 0 shift -64",
    "I8 -128 0 -128 -128 0 zero zero shift -128",
    "I8 127 1 overflow 126 127 127 0 shift 63",
    "I8 127 127 overflow 0 overflow 1 0 shift shift",
    "I8 127 -1 126 overflow -127 -127 0 shift shift",
    "I8 -127 -1 -128 -126 127 127 0 shift shift",
    "I8 1 7 8 -6 7 0 1 shift 0",
    "I8 1 6 7 -5 6 0 1 64 0",
    "I8 -1 7 6 -8 -7 0 -1 shift -1",
    "I8 1 8 9 -7 8 0 1 shift shift",
    "I8 -7 2 -5 -9 -14 -3 -1 shift -2",
    "I8 7 -2 5 9 -14 -3 1 shift shift",
    "I8 -1 1 0 -2 -1 -1 0 shift -1",
    "U8 255 1 0 254 255 255 0 254 127",
    "U8 255 255 254 0 1 1 0 shift shift",
    "U8 255 0 255 255 0 zero zero 255 255",
    "U8 0 1 1 255 0 0 0 0 0",
    "U8 0 255 255 1 0 0 0 shift shift",
    "U8 1 7 8 250 7 0 1 128 0",
    "U8 1 8 9 249 8 0 1 shift shift",
    "U8 255 7 6 248 249 36 3 128 1",
    "U8 128 2 130 126 0 64 0 0 32",
    "U8 127 2 129 125 254 63 1 252 31",
    "U8 128 1 129 127 128 128 0 0 64",
    "U8 254 255 253 255 2 0 254 shift shift",
    "U8 1 255 0 2 255 0 1 shift shift",
    "U8 0 0 0 0 0 zero zero 0 0",
    "U8 7 2 9 5 14 3 1 28 1",
    "I16 -32768 -1 overflow -32767 overflow overflow overflow shift shift",
    "I16 -32768 -32768 overflow 0 overflow 1 0 shift shift",
    "I16 -32768 1 -32767 overflow -32768 -32768 0 shift -16384",
    "I16 -32768 0 -32768 -32768 0 zero zero shift -32768",
    "I16 32767 1 overflow 32766 32767 32767 0 shift 16383",
    "I16 32767 32767 overflow 0 overflow 1 0 shift shift",
    "I16 32767 -1 32766 overflow -32767 -32767 0 shift shift",
    "I16 -32767 -1 -32768 -32766 32767 32767 0 shift shift",
    "I16 1 15 16 -14 15 0 1 shift 0",
    "I16 1 14 15 -13 14 0 1 16384 0",
    "I16 -1 15 14 -16 -15 0 -1 shift -1",
    "I16 1 16 17 -15 16 0 1 shift shift",
    "I16 -7 2 -5 -9 -14 -3 -1 shift -2",
    "I16 7 -2 5 9 -14 -3 1 shift shift",
    "I16 -1 1 0 -2 -1 -1 0 shift -1",
    "U16 65535 1 0 65534 65535 65535 0 65534 32767",
    "U16 65535 65535 65534 0 1 1 0 shift shift",
    "U16 65535 0 65535 65535 0 zero zero 65535 65535",
    "U16 0 1 1 65535 0 0 0 0 0",
    "U16 0 65535 65535 1 0 0 0 shift shift",
    "U16 1 15 16 65522 15 0 1 32768 0",
    "U16 1 16 17 65521 16 0 1 shift shift",
    "U16 65535 15 14 65520 65521 4369 0 32768 1",
    "U16 32768 2 32770 32766 0 16384 0 0 8192",
    "U16 32767 2 32769 32765 65534 16383 1 65532 8191",
    "U16 32768 1 32769 32767 32768 32768 0 0 16384",
    "U16 65534 65535 65533 65535 2 0 65534 shift shift",
    "U16 1 65535 0 2 65535 0 1 shift shift",
    "U16 0 0 0 0 0 zero zero 0 0",
    "U16 7 2 9 5 14 3 1 28 1",
    "I32 -2147483648 -1 overflow -2147483647 overflow overflow overflow shift shift",
    "I32 -2147483648 -2147483648 overflow 0 overflow 1 0 shift shift",
    "I32 -2147483648 1 -2147483647 overflow -2147483648 -2147483648 0 shift -1073741824",
    "I32 -2147483648 0 -2147483648 -2147483648 0 zero zero shift -2147483648",
    "I32 2147483647 1 overflow 2147483646 2147483647 2147483647 0 shift 1073741823",
    "I32 2147483647 2147483647 overflow 0 overflow 1 0 shift shift",
    "I32 2147483647 -1 2147483646 overflow -2147483647 -2147483647 0 shift shift",
    "I32 -2147483647 -1 -2147483648 -2147483646 2147483647 2147483647 0 shift shift",
    "I32 1 31 32 -30 31 0 1 shift 0",
    "I32 1 30 31 -29 30 0 1 1073741824 0",
    "I32 -1 31 30 -32 -31 0 -1 shift -1",
    "I32 1 32 33 -31 32 0 1 shift shift",
    "I32 -7 2 -5 -9 -14 -3 -1 shift -2",
    "I32 7 -2 5 9 -14 -3 1 shift shift",
    "I32 -1 1 0 -2 -1 -1 0 shift -1",
    "U32 4294967295 1 0 4294967294 4294967295 4294967295 0 4294967294 2147483647",
    "U32 4294967295 4294967295 4294967294 0 1 1 0 shift shift",
    "U32 4294967295 0 4294967295 4294967295 0 zero zero 4294967295 4294967295",
    "U32 0 1 1 4294967295 0 0 0 0 0",
    "U32 0 4294967295 4294967295 1 0 0 0 shift shift",
    "U32 1 31 32 4294967266 31 0 1 2147483648 0",
    "U32 1 32 33 4294967265 32 0 1 shift shift",
    "U32 4294967295 31 30 4294967264 4294967265 138547332 3 2147483648 1",
    "U32 2147483648 2 2147483650 2147483646 0 1073741824 0 0 536870912",
    "U32 2147483647 2 2147483649 2147483645 4294967294 1073741823 1 4294967292 536870911",
    "U32 2147483648 1 2147483649 2147483647 2147483648 2147483648 0 0 1073741824",
    "U32 4294967294 4294967295 4294967293 4294967295 2 0 4294967294 shift shift",
    "U32 1 4294967295 0 2 4294967295 0 1 shift shift",
    "U32 0 0 0 0 0 zero zero 0 0",
    "U32 7 2 9 5 14 3 1 28 1",
    "I64 -9223372036854775808 -1 overflow -9223372036854775807 overflow overflow overflow shift shift",
    "I64 -9223372036854775808 -9223372036854775808 overflow 0 overflow 1 0 shift shift",
    "I64 -9223372036854775808 1 -9223372036854775807 overflow -9223372036854775808 -9223372036854775808 0 shift \
     -4611686018427387904",
    "I64 -9223372036854775808 0 -9223372036854775808 -9223372036854775808 0 zero zero shift -9223372036854775808",
    "I64 9223372036854775807 1 overflow 9223372036854775806 9223372036854775807 9223372036854775807 0 shift \
     4611686018427387903",
    "I64 9223372036854775807 9223372036854775807 overflow 0 overflow 1 0 shift shift",
    "I64 9223372036854775807 -1 9223372036854775806 overflow -9223372036854775807 -9223372036854775807 0 shift shift",
    "I64 -9223372036854775807 -1 -9223372036854775808 -9223372036854775806 9223372036854775807 \
     9223372036854775807 0 shift shift",
    "I64 1 63 64 -62 63 0 1 shift 0",
    "I64 1 62 63 -61 62 0 1 4611686018427387904 0",
    "I64 -1 63 62 -64 -63 0 -1 shift -1",
    "I64 1 64 65 -63 64 0 1 shift shift",
    "I64 -7 2 -5 -9 -14 -3 -1 shift -2",
    "I64 7 -2 5 9 -14 -3 1 shift shift",
    "I64 -1 1 0 -2 -1 -1 0 shift -1",
    "U64 18446744073709551615 1 0 18446744073709551614 18446744073709551615 18446744073709551615 0 \
     18446744073709551614 9223372036854775807",
    "U64 18446744073709551615 18446744073709551615 18446744073709551614 0 1 1 0 shift shift",
    "U64 18446744073709551615 0 18446744073709551615 18446744073709551615 0 zero zero 18446744073709551615 \
     18446744073709551615",
    "U64 0 1 1 18446744073709551615 0 0 0 0 0",
    "U64 0 18446744073709551615 18446744073709551615 1 0 0 0 shift shift",
    "U64 1 63 64 18446744073709551554 63 0 1 9223372036854775808 0",
    "U64 1 64 65 18446744073709551553 64 0 1 shift shift",
    "U64 18446744073709551615 63 62 18446744073709551552 18446744073709551553 292805461487453200 15 \
     9223372036854775808 1",
    "U64 9223372036854775808 2 9223372036854775810 9223372036854775806 0 4611686018427387904 0 0 2305843009213693952",
    "U64 9223372036854775807 2 9223372036854775809 9223372036854775805 18446744073709551614 4611686018427387903 \
     1 18446744073709551612 2305843009213693951",
    "U64 9223372036854775808 1 9223372036854775809 9223372036854775807 9223372036854775808 9223372036854775808 \
     0 0 4611686018427387904",
    "U64 18446744073709551614 18446744073709551615 18446744073709551613 18446744073709551615 2 0 \
     18446744073709551614 shift shift",
    "U64 1 18446744073709551615 0 2 18446744073709551615 0 1 shift shift",
    "U64 0 0 0 0 0 zero zero 0 0",
    "U64 7 2 9 5 14 3 1 28 1",
    "I32 46341 46341 92682 0 overflow 1 0 shift shift",
    "U32 65536 65537 131073 4294967295 65536 0 65536 shift shift",
    "I64 3037000500 3037000500 6074001000 0 overflow 1 0 shift shift",
    "U64 4294967296 4294967297 8589934593 18446744073709551615 4294967296 0 4294967296 shift shift",
];

fn kind_of(word: &str) -> Option<IntKind> {
    match word {
        "Bool" => Some(IntKind::Bool),
        "I8" => Some(IntKind::I8),
        "U8" => Some(IntKind::U8),
        "I16" => Some(IntKind::I16),
        "U16" => Some(IntKind::U16),
        "I32" => Some(IntKind::I32),
        "U32" => Some(IntKind::U32),
        "I64" => Some(IntKind::I64),
        "U64" => Some(IntKind::U64),
        _ => None,
    }
}

fn outcome_of(word: &str) -> Result<Result<i128, NumFault>, Fail> {
    match word {
        "overflow" => Ok(Err(NumFault::Overflow)),
        "zero" => Ok(Err(NumFault::ZeroDivisor)),
        "shift" => Ok(Err(NumFault::Shift)),
        _ => Ok(Ok(word.parse::<i128>()?)),
    }
}

fn is_in_range(kind: IntKind, value: i128) -> bool
    ensures { IsTrue result → InRange kind value }
{
    least(kind) <= value && value <= greatest(kind)
}

// The outcomes in the order of the table; none where an operand is out of range.
fn outcomes(kind: IntKind, a: i128, b: i128) -> Option<[Result<i128, NumFault>; 7]> {
    if !is_in_range(kind, a) || !is_in_range(kind, b) {
        return None;
    }
    Some([
        add(kind, a, b),
        sub(kind, a, b),
        mul(kind, a, b),
        div(kind, a, b),
        rem(kind, a, b),
        shl(kind, a, b),
        shr(kind, a, b),
    ])
}

#[test]
fn agrees_with_gcc_at_the_edges(rt: HostRuntime) -> Result<(), Fail> {
    for line in EDGES.iter() {
        let mut words = line.split(' ');
        let kind = kind_of(words.next().ok_or("no kind")?).ok_or("no kind")?;
        let a = words.next().ok_or("no operand")?.parse::<i128>()?;
        let b = words.next().ok_or("no operand")?.parse::<i128>()?;
        for outcome in outcomes(kind, a, b).ok_or("out of range")? {
            assert_eq!(rt;
                outcome,
                outcome_of(words.next().ok_or("no outcome")?)?,
                "{line}"
            );
        }
        assert_eq!(rt; words.next(), None);
    }
    Ok(())
}

#[test]
fn gives_the_values_of_the_standard(rt: HostRuntime) {
    let least_long = least(IntKind::I64);
    for (outcome, expected) in [
        (add(IntKind::U32, 4_294_967_295, 1), Ok(0)),
        (div(IntKind::I64, least_long, -1), Err(NumFault::Overflow)),
        (rem(IntKind::I64, least_long, -1), Err(NumFault::Overflow)),
        (rem(IntKind::I32, 7, 0), Err(NumFault::ZeroDivisor)),
        (shl(IntKind::I32, 1, 31), Err(NumFault::Shift)),
        (shr(IntKind::I32, -1, 1), Ok(-1)),
        (Ok(convert(IntKind::I8, 200)), Ok(-56)),
        (Ok(convert(IntKind::Bool, 2)), Ok(1)),
    ] {
        assert_eq!(rt; outcome, expected);
    }
}
