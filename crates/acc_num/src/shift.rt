//! Shifts (6.5.7).
ghost use Rattle.std.specs.Prelude.{◌≡◌, ◌^◌, ◌<◌, pos, ◌*ℤ◌, IfOk};
ghost use Rattle.acc_num.specs.Numbers.{InRange, value_of};
ghost use Rattle.acc_num.specs.Operations.{outcome_of, is_count, Shl, Shr};

use crate::fault::NumFault;
use crate::kind::{IntKind, width};
use crate::power::power_of_two;
use crate::represent::represent;

/// Whether a shift may have this count: it is not negative, and below the width (6.5.7p3).
fn is_count(kind: IntKind, by: i128) -> bool
    ensures { result ≡ is_count kind by }
{
    0 <= by && by < i128::from(width(kind))
}

/// `a << by` in that kind (6.5.7p3 and p4).
///
/// `Shift` comes exactly where the count is below 0 or not below the width, where `a` is negative, and where a
/// signed result is out of range.
#[tactic(auto, unfolding(crate::specs::Operations::power_of_two))]
pub fn shl(kind: IntKind, a: i128, by: i128) -> Result<i128, NumFault>
    requires { InRange kind a }
    ensures value { result ≡ outcome_of kind Shl a by }
    ensures in_range { IfOk result (λ value. InRange kind value) }
{
    if !is_count(kind, by) || a < 0 {
        return Err(NumFault::Shift);
    }
    times_power(kind, a, by as u32).or(Err(NumFault::Shift))
}

/// `a >> by` in that kind, rounded down (6.5.7p3 and p5).
///
/// `Shift` comes exactly where the count is below 0 or not below the width.
#[tactic(auto, unfolding(crate::specs::Operations::power_of_two))]
pub fn shr(kind: IntKind, a: i128, by: i128) -> Result<i128, NumFault>
    requires { InRange kind a }
    ensures value { result ≡ outcome_of kind Shr a by }
    ensures in_range { IfOk result (λ value. InRange kind value) }
{
    if !is_count(kind, by) {
        return Err(NumFault::Shift);
    }
    represent(kind, a >> by)
}

/// `a` times 2 to the power `by`, where `by` is a count of the kind (6.5.7p4).
fn times_power(kind: IntKind, a: i128, by: u32) -> Result<i128, NumFault>
    requires left_in_range { InRange kind a }
    requires count { by < 64 }
    ensures value { result ≡ value_of kind (a *ℤ pos (2 ^ by)) }
    ensures in_range { IfOk result (λ value. InRange kind value) }
{
    represent(kind, a * power_of_two(by))
}
