//! What a kind makes of an exact integer.
ghost use Rattle.std.specs.Prelude.{◌≡◌, ◌^◌, ◌<◌, pos, false, IfOk, Ok};
ghost use Rattle.acc_num.specs.Kinds.{is_signed};
ghost use Rattle.acc_num.specs.Numbers.{InRange, value_of};

use crate::fault::NumFault;
use crate::kind::{IntKind, greatest, is_signed, least, width};
use crate::power::power_of_two;

/// The exact integer in the kind: itself where it is in range, else modulo 2^N without a sign (6.2.5p9).
///
/// `Overflow` comes exactly where the kind has a sign and the integer is out of range (6.5p5).
#[tactic(auto, unfolding(crate::specs::Numbers::value_of))]
pub fn represent(kind: IntKind, exact: i128) -> Result<i128, NumFault>
    ensures value { result ≡ value_of kind exact }
    ensures in_range { IfOk result (λ value. InRange kind value) }
{
    if least(kind) <= exact && exact <= greatest(kind) {
        return Ok(exact);
    }
    if is_signed(kind) {
        return Err(NumFault::Overflow);
    }
    Ok(exact.rem_euclid(power_of_two(width(kind))))
}

/// An integer that may need 128 bits in a kind without a sign: modulo 2^N (6.2.5p9).
#[tactic(auto, unfolding(crate::specs::Numbers::value_of))]
pub fn wrap(kind: IntKind, exact: u128) -> i128
    requires { is_signed kind ≡ false }
    ensures value { Ok result ≡ value_of kind (pos exact) }
    ensures in_range { InRange kind result }
{
    (exact % power_of_two(width(kind)) as u128) as i128
}
