//! Integers in bytes: two's complement, the least byte first (6.2.6).
ghost use Rattle.std.specs.Prelude.{◌≡◌, ◌^◌, ◌<◌, pos, Some, Ok, IfOk, length, map};
ghost use Rattle.acc_num.specs.Kinds.{width_of, bytes_of};
ghost use Rattle.acc_num.specs.Numbers.{InRange};
ghost use Rattle.object_store.specs.Load.{integer_bytes, representation_of, load_integer, value_of_number};

use crate::numbers::{number_of, write_number};
use crate::view::View;
use acc_num::{IntKind, greatest, least};
use critical_table::Code;

impl View<'_> {
    /// The integer of the kind that the bytes are.
    ///
    /// `U05` comes exactly where a byte is indeterminate, beside one of an `unsigned char`, which is 0; `U12` comes
    /// exactly where the byte of a `_Bool` is neither 0 nor 1.
    #[tactic(auto, unfolding(crate::specs::Load::load_integer))]
    pub fn integer(&self, kind: IntKind) -> Result<i128, Code>
        requires { length self.now ≡ bytes_of kind }
        ensures value { result ≡ load_integer kind self.now }
        ensures in_range { IfOk result (λ value. InRange kind value) }
    {
        if kind == IntKind::U8 {
            return Ok(i128::from(self.cells[0].byte.unwrap_or(0)));
        }
        let number = number_of(self.cells).ok_or(Code::U05)?;
        value_of_number(kind, number)
    }
}

/// Writes an integer of the kind into its bytes; a load by the kind gives it back.
#[tactic(auto, unfolding(crate::specs::Load::integer_bytes))]
pub fn write_integer(bytes: &mut [u8], kind: IntKind, value: i128)
    requires length { length bytes.old ≡ bytes_of kind }
    requires in_range { InRange kind value }
    ensures bytes { bytes.new ≡ integer_bytes kind value }
    ensures loads { load_integer kind (map Some bytes.new) ≡ Ok value }
{
    write_number(bytes, representation_of(kind, value));
}

/// The number that represents a value of the kind (6.2.6.2p2).
fn representation_of(kind: IntKind, value: i128) -> u64
    requires { InRange kind value }
    ensures { result ≡ representation_of kind value }
{
    if value < 0 {
        (value + count_of(kind)) as u64
    } else {
        value as u64
    }
}

/// The value that a number of the kind's bytes represents (6.2.6.2p2).
///
/// `U12` comes exactly where the kind is that of `_Bool` and the number neither 0 nor 1.
fn value_of_number(kind: IntKind, number: u64) -> Result<i128, Code>
    requires { number < 256 ^ bytes_of kind }
    ensures value { result ≡ value_of_number kind number }
    ensures in_range { IfOk result (λ value. InRange kind value) }
{
    let value = i128::from(number);
    if value <= greatest(kind) {
        return Ok(value);
    }
    if kind == IntKind::Bool {
        return Err(Code::U12);
    }
    Ok(value - count_of(kind))
}

/// How many values the kind has: 2^N, where N is its width.
fn count_of(kind: IntKind) -> i128
    ensures { result ≡ pos (2 ^ width_of kind) }
{
    greatest(kind) - least(kind) + 1
}
