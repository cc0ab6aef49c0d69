//! Conversions from one kind of integers to another (6.3.1.2, 6.3.1.3).
ghost use Rattle.std.specs.Prelude.{◌≡◌};
ghost use Rattle.acc_num.specs.Numbers.{InRange};
ghost use Rattle.acc_num.specs.Operations.{converted_to};

use crate::kind::{IntKind, greatest, width};
use crate::power::power_of_two;

/// The value in another kind (6.3.1.2 and 6.3.1.3): modulo 2^N, and to `Bool` 0 for 0 and 1 for all else.
#[tactic(auto, unfolding(crate::specs::Operations::converted_to))]
pub fn convert(kind: IntKind, value: i128) -> i128
    ensures value { result ≡ converted_to kind value }
    ensures in_range { InRange kind result }
    ensures same { InRange kind value → result ≡ value }
{
    if kind == IntKind::Bool {
        return i128::from(value != 0);
    }
    let modulus = power_of_two(width(kind));
    let bits = value.rem_euclid(modulus);
    if bits <= greatest(kind) {
        bits
    } else {
        bits - modulus
    }
}
