//! Reads integer constants (6.4.4.1).

ghost use Rattle.std.specs.Prelude.{◌≡◌, ◌≤◌, ◌<◌, ◌^◌, IfSome, IfNone};
ghost use Rattle.std.specs.Char.{digit_value};
ghost use Rattle.c_lexer.specs.Lookup.{lookup};
ghost use Rattle.c_lexer.specs.Numbers as numbers;
ghost use Rattle.c_lexer.specs.ReadNumber as spec;
ghost use Rattle.c_lexer.specs.declared.number.Number.{Number};

use crate::bytes::{Class, run_len};
use crate::table::lookup;

/// An integer constant (6.4.4.1).
#[derive(Clone, Copy, Debug, PartialEq, Eq)]
pub struct Number {
    pub value: u64,
    /// It is written as a decimal constant, and so without a prefix and with no 0 at its front.
    pub decimal: bool,
    /// Its suffix has a `u`.
    pub unsigned: bool,
    /// How many `l` its suffix has, from 0 to 2.
    pub longs: u8,
}

/// How the digits of a constant are written (6.4.4.1).
#[derive(Clone, Copy, Debug, PartialEq, Eq)]
pub(crate) enum Base {
    Decimal,
    Octal,
    Hexadecimal,
}

impl Base {
    fn radix(self) -> u64
        ensures value { result ≡ numbers.radix self }
        ensures small { result ≤ 16 }
    {
        match self {
            Base::Decimal => 10,
            Base::Octal => 8,
            Base::Hexadecimal => 16,
        }
    }

    fn digits(self) -> Class
        ensures { result ≡ numbers.digits_of self }
    {
        match self {
            Base::Decimal => Class::Decimal,
            Base::Octal => Class::Octal,
            Base::Hexadecimal => Class::Hexadecimal,
        }
    }

    fn is_decimal(self) -> bool
        ensures { result ≡ numbers.is_decimal self }
    {
        match self {
            Base::Decimal => true,
            Base::Octal | Base::Hexadecimal => false,
        }
    }
}

/// Each suffix: whether it has a `u`, and how many `l` it has.
const SUFFIXES: [(&[u8], (bool, u8)); 23] = [
    (b"", (false, 0)),
    (b"u", (true, 0)),
    (b"U", (true, 0)),
    (b"l", (false, 1)),
    (b"L", (false, 1)),
    (b"ll", (false, 2)),
    (b"LL", (false, 2)),
    (b"ul", (true, 1)),
    (b"uL", (true, 1)),
    (b"Ul", (true, 1)),
    (b"UL", (true, 1)),
    (b"ull", (true, 2)),
    (b"uLL", (true, 2)),
    (b"Ull", (true, 2)),
    (b"ULL", (true, 2)),
    (b"lu", (true, 1)),
    (b"lU", (true, 1)),
    (b"Lu", (true, 1)),
    (b"LU", (true, 1)),
    (b"llu", (true, 2)),
    (b"llU", (true, 2)),
    (b"LLu", (true, 2)),
    (b"LLU", (true, 2)),
];

/// Whether the suffix has a `u`, and how many `l`, if it is one.
fn suffix_of(text: &[u8]) -> Option<(bool, u8)>
    ensures { result ≡ lookup numbers.suffixes text.now }
{
    lookup(&SUFFIXES, text)
}

/// The value of a digit or a letter, from 0 to 35, and 36 of any other byte.
fn digit_value(byte: u8) -> u64
    ensures value { result ≡ digit_value byte }
    ensures small { result ≤ 36 }
{
    match byte {
        b'0'..=b'9' => u64::from(byte - b'0'),
        b'A'..=b'Z' => u64::from(byte - b'A') + 10,
        b'a'..=b'z' => u64::from(byte - b'a') + 10,
        _ => 36,
    }
}

/// The value of the digits, if it is below 2^64.
pub(crate) fn value_of(radix: u64, digits: &[u8]) -> Option<u64>
    requires { 1 ≤ radix }
    ensures { result ≡ spec.value_of radix digits.now }
{
    let mut value: u64 = 0;
    for digit in digits {
        let Some(shifted) = value.checked_mul(radix) else {
            return None;
        };
        let Some(more) = shifted.checked_add(digit_value(*digit)) else {
            return None;
        };
        value = more;
    }
    Some(value)
}

#[tactic(auto, unfolding(crate::specs::ReadNumber::constant))]
fn constant(base: Base, text: &[u8]) -> Option<Number>
    ensures { result ≡ spec.constant base text.now }
{
    let count = run_len(base.digits(), text);
    if count == 0 {
        return None;
    }
    let (digits, suffix) = text.split_at(count);
    match value_of(base.radix(), digits) {
        None => None,
        Some(value) => with_suffix(base, value, suffix),
    }
}

fn with_suffix(base: Base, value: u64, suffix: &[u8]) -> Option<Number>
    ensures { result ≡ spec.with_suffix base value (lookup numbers.suffixes suffix.now) }
{
    match suffix_of(suffix) {
        None => None,
        Some((unsigned, longs)) => Some(Number {
            value,
            decimal: base.is_decimal(),
            unsigned,
            longs,
        }),
    }
}

#[tactic(auto, unfolding(crate::specs::ReadNumber::number_of))]
fn read_number(text: &[u8]) -> Option<Number>
    ensures { result ≡ spec.number_of text.now }
{
    match text {
        [b'0', b'x' | b'X', after @ ..] => constant(Base::Hexadecimal, after),
        [b'0', ..] => constant(Base::Octal, text),
        _ => constant(Base::Decimal, text),
    }
}

/// The number that the whole text spells, if it spells one (6.4.4.1).
pub(crate) fn number_of(text: &[u8]) -> Option<Number>
    ensures found { IfSome result (λ number. numbers.IsNumber text.now number) }
    ensures none { IfNone result ((number : Number) → numbers.IsNumber text.now number → ⊥) }
{
    read_number(text)
}
