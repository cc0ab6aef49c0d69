//! Numbers in bytes, the least first.
ghost use Rattle.std.specs.Prelude.{◌≡◌, ◌+◌, ◌*◌, ◌^◌, ◌<◌, ◌≤◌, IfSome, length, map};
ghost use Rattle.object_store.specs.Load.{number_bytes, known_number};

use crate::cell::Cell;

/// Writes a number into bytes; of one that has more, what is left modulo a power of 256.
pub(crate) fn write_number(bytes: &mut [u8], number: u64)
    ensures { bytes.new ≡ number_bytes (length bytes.old) number }
{
    let mut rest = number;
    for byte in bytes.iter_mut() {
        *byte = (rest % 256) as u8;
        rest /= 256;
    }
}

/// The four bytes of a number.
pub(crate) fn four_bytes(number: u32) -> [u8; 4]
    ensures { result ≡ number_bytes 4 number }
{
    let second = number / 256;
    let third = second / 256;
    let fourth = third / 256;
    [
        (number % 256) as u8,
        (second % 256) as u8,
        (third % 256) as u8,
        (fourth % 256) as u8,
    ]
}

/// The number of four bytes, or `None` where one is indeterminate.
pub(crate) fn number_of_four(cells: &[Cell]) -> Option<u32>
    requires { length cells.now ≡ 4 }
    ensures { result ≡ known_number (map (λ c. c.byte) cells.now) }
{
    let number = number_of(cells)?;
    Some(number as u32)
}

/// The number of at most eight bytes, or `None` where one is indeterminate.
pub(crate) fn number_of(cells: &[Cell]) -> Option<u64>
    requires { length cells.now ≤ 8 }
    ensures value { result ≡ known_number (map (λ c. c.byte) cells.now) }
    ensures bound { IfSome result (λ n. n < 256 ^ length cells.now) }
{
    match cells {
        [] => Some(0),
        [first, rest @ ..] => {
            let least = first.byte?;
            let others = number_of(rest)?;
            Some(join(least, others))
        }
    }
}

/// A number by its least byte and the number of the others.
fn join(least: u8, others: u64) -> u64
    requires { others < 256 ^ 7 }
    ensures value { result ≡ least + 256 * others }
    ensures bound { result < 256 * (others + 1) }
{
    u64::from(least) + 256 * others
}
