//! Reads character constants and string literals (6.4.4.4, 6.4.5).

ghost use Rattle.std.specs.Prelude.{◌≡◌, ◌≤◌, ◌<◌, ℕ, ℤ, Bool, List, min, map, length};
ghost use Rattle.std.specs.Prelude.{IfSome, IfNone, IfOk};
ghost use Rattle.std.specs.List.{prefix_len};
ghost use Rattle.std.specs.Option.{option_map};
ghost use Rattle.c_lexer.specs.Bytes.{is_octal};
ghost use Rattle.c_lexer.specs.Characters as characters;
ghost use Rattle.c_lexer.specs.ReadCharacters as spec;

use crate::bytes::{Class, is_in, run_len};
use crate::number::value_of;
use std::alloc::{AllocError, Global};

/// What stands behind the backslash of an escape of one letter, and the value (6.4.4.4).
const ESCAPES: [(u8, u64); 11] = [
    (b'\'', 39),
    (b'"', 34),
    (b'?', 63),
    (b'\\', 92),
    (b'a', 7),
    (b'b', 8),
    (b'f', 12),
    (b'n', 10),
    (b'r', 13),
    (b't', 9),
    (b'v', 11),
];

fn lookup(mut table: &[(u8, u64)], byte: u8) -> Option<u64>
    ensures { result ≡ characters.value_at table.entry.now byte }
{
    while let [row, rest @ ..] = table {
        if row.0 == byte {
            return Some(row.1);
        }
        table = rest;
    }
    None
}

fn letter_value(byte: u8) -> Option<u64>
    ensures { result ≡ characters.value_at characters.escapes byte }
{
    lookup(&ESCAPES, byte)
}

/// The greatest value of an unsigned char, and of a wide unit.
fn greatest(wide: bool) -> u64
    ensures { result ≡ characters.greatest wide }
{
    if wide { 4294967295 } else { 255 }
}

/// So many digits as a value that is not too great, and what follows them.
#[tactic(auto, unfolding(crate::specs::ReadCharacters::digits_escape))]
fn digits_escape(wide: bool, radix: u64, count: usize, bytes: &[u8]) -> Option<(u64, &[u8])>
    requires radix { 1 ≤ radix }
    requires within { count ≤ length bytes.now }
    ensures value { option_map (λ found. (found.0, found.1.now)) result
        ≡ spec.digits_escape wide radix count bytes.now }
    ensures shorter { IfSome result (λ found. length found.1.now < length bytes.now) }
{
    if count == 0 {
        return None;
    }
    let (digits, after) = bytes.split_at(count);
    match value_of(radix, digits) {
        None => None,
        Some(value) => {
            if value <= greatest(wide) {
                Some((value, after))
            } else {
                None
            }
        }
    }
}

/// The value of the escape whose backslash stands before these bytes, and what follows it.
#[tactic(auto, unfolding(crate::specs::ReadCharacters::escape_at))]
fn escape_at(wide: bool, bytes: &[u8]) -> Option<(u64, &[u8])>
    ensures value { option_map (λ found. (found.0, found.1.now)) result ≡ spec.escape_at wide bytes.now }
    ensures shorter { IfSome result (λ found. length found.1.now < length bytes.now) }
{
    match bytes {
        [] => None,
        [byte, after @ ..] => {
            if is_in(Class::Octal, *byte) {
                digits_escape(wide, 8, run_len(Class::Octal, bytes).min(3), bytes)
            } else if *byte == b'x' {
                digits_escape(wide, 16, run_len(Class::Hexadecimal, after), after)
            } else {
                match letter_value(*byte) {
                    None => None,
                    Some(value) => Some((value, after)),
                }
            }
        }
    }
}

/// The value of the character or escape at the front, and what follows it.
#[tactic(auto, unfolding(crate::specs::ReadCharacters::item_at))]
fn item_at(wide: bool, quote: u8, bytes: &[u8]) -> Option<(u64, &[u8])>
    ensures value { option_map (λ found. (found.0, found.1.now)) result ≡ spec.item_at wide quote bytes.now }
    ensures shorter { IfSome result (λ found. length found.1.now < length bytes.now) }
{
    match bytes {
        [] => None,
        [byte, after @ ..] => {
            if *byte == b'\\' {
                escape_at(wide, after)
            } else if is_plain(wide, quote, *byte) {
                Some((u64::from(*byte), after))
            } else {
                None
            }
        }
    }
}

fn is_plain(wide: bool, quote: u8, byte: u8) -> bool
    ensures { result ≡ spec.is_plain wide quote byte }
{
    !(byte == quote || byte == b'\n' || (wide && 128 <= byte))
}

/// The value as the type of the unit has it: modulo 2^8 as a char, modulo 2^32 as an int.
fn unit_of(wide: bool, value: u64) -> i32
    ensures { result ≡ characters.unit_of wide value }
{
    if wide {
        let low = value % 4294967296;
        if low < 2147483648 {
            low as i32
        } else {
            (low as i64 - 4294967296) as i32
        }
    } else {
        let low = value % 256;
        if low < 128 {
            low as i32
        } else {
            low as i32 - 256
        }
    }
}

/// The value behind the opening quote, where the closing one follows it and nothing else.
fn close_character(wide: bool, bytes: &[u8]) -> Option<(i32, bool)>
    ensures { result ≡ spec.close_character wide (spec.item_at wide 39 bytes.now) }
{
    match item_at(wide, b'\'', bytes) {
        None => None,
        Some((value, after)) => {
            if after == b"'".as_slice() {
                Some((unit_of(wide, value), wide))
            } else {
                None
            }
        }
    }
}

#[tactic(auto, unfolding(crate::specs::ReadCharacters::character_of))]
fn read_character(text: &[u8]) -> Option<(i32, bool)>
    ensures { result ≡ spec.character_of text.now }
{
    match text {
        [b'\'', after @ ..] => close_character(false, after),
        [b'L', b'\'', after @ ..] => close_character(true, after),
        _ => None,
    }
}

/// The units behind the opening quote, as far as characters and escapes go, and what follows them.
#[tactic(auto, unfolding(crate::specs::ReadCharacters::units_at))]
fn units_at(alloc: Global, wide: bool, bytes: &[u8]) -> Result<(Vec<i64>, &[u8]), AllocError>
    ensures { IfOk result (λ found. (found.0.items, found.1.now) ≡ spec.units_at wide bytes.now) }
{
    let mut units = Vec::new(alloc);
    let mut rest = bytes;
    while let Some((value, after)) = item_at(wide, b'"', rest) {
        units.push(i64::from(unit_of(wide, value)))?;
        rest = after;
    }
    Ok((units, rest))
}

/// The units between the opening quote and the closing one, where nothing else follows that.
fn close_literal(
    alloc: Global,
    wide: bool,
    bytes: &[u8],
) -> Result<Option<(Vec<i64>, bool)>, AllocError>
    ensures { IfOk result
        (λ found. option_map (λ x. (x.0.items, x.1)) found ≡ spec.close_literal wide (spec.units_at wide bytes.now)) }
{
    let (units, after) = units_at(alloc, wide, bytes)?;
    if after == b"\"".as_slice() {
        Ok(Some((units, wide)))
    } else {
        Ok(None)
    }
}

#[tactic(auto, unfolding(crate::specs::ReadCharacters::literal_of))]
fn read_literal(alloc: Global, text: &[u8]) -> Result<Option<(Vec<i64>, bool)>, AllocError>
    ensures { IfOk result (λ found. option_map (λ x. (x.0.items, x.1)) found ≡ spec.literal_of text.now) }
{
    match text {
        [b'"', after @ ..] => close_literal(alloc, false, after),
        [b'L', b'"', after @ ..] => close_literal(alloc, true, after),
        _ => Ok(None),
    }
}

/// The value of the character constant that the whole text spells, and whether it is wide, if it spells one (6.4.4.4).
pub(crate) fn character_of(text: &[u8]) -> Option<(i32, bool)>
    ensures found { IfSome result (λ found. characters.IsCharacter text.now found.0 found.1) }
    ensures none { IfNone result ((value : ℤ) (wide : Bool) → characters.IsCharacter text.now value wide → ⊥) }
{
    read_character(text)
}

/// The units of the string literal that the whole text spells, and whether it is wide, if it spells one (6.4.5).
pub(crate) fn literal_of(alloc: Global, text: &[u8]) -> Result<Option<(Vec<i64>, bool)>, AllocError>
    ensures found { IfOk result (λ r. IfSome r (λ found. characters.IsLiteral text.now found.0.items found.1)) }
    ensures none { IfOk result
        (λ r. IfNone r ((units : List ℤ) (wide : Bool) → characters.IsLiteral text.now units wide → ⊥)) }
{
    read_literal(alloc, text)
}
