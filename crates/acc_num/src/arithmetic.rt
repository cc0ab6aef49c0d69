//! Sums, differences, products, quotients and remainders (6.5.5, 6.5.6).
ghost use Rattle.std.specs.Prelude.{◌≡◌, ◌≢◌, pos, int_div, int_rem, IfOk};
ghost use Rattle.acc_num.specs.Numbers.{InRange, value_of};
ghost use Rattle.acc_num.specs.Operations.{outcome_of, Add, Sub, Mul, Div, Rem};

use crate::fault::NumFault;
use crate::kind::{IntKind, is_signed};
use crate::represent::{represent, wrap};

/// `a + b` in that kind (6.5.6p5).
///
/// `Overflow` comes exactly where a signed result is out of range.
pub fn add(kind: IntKind, a: i128, b: i128) -> Result<i128, NumFault>
    requires left_in_range { InRange kind a }
    requires right_in_range { InRange kind b }
    ensures value { result ≡ outcome_of kind Add a b }
    ensures in_range { IfOk result (λ value. InRange kind value) }
{
    represent(kind, a + b)
}

/// `a - b` in that kind (6.5.6p6).
///
/// `Overflow` comes exactly where a signed result is out of range.
pub fn sub(kind: IntKind, a: i128, b: i128) -> Result<i128, NumFault>
    requires left_in_range { InRange kind a }
    requires right_in_range { InRange kind b }
    ensures value { result ≡ outcome_of kind Sub a b }
    ensures in_range { IfOk result (λ value. InRange kind value) }
{
    represent(kind, a - b)
}

/// `a * b` in that kind (6.5.5p4).
///
/// `Overflow` comes exactly where a signed result is out of range.
pub fn mul(kind: IntKind, a: i128, b: i128) -> Result<i128, NumFault>
    requires left_in_range { InRange kind a }
    requires right_in_range { InRange kind b }
    ensures value { result ≡ outcome_of kind Mul a b }
    ensures in_range { IfOk result (λ value. InRange kind value) }
{
    if is_signed(kind) {
        return represent(kind, a * b);
    }
    // The product of two unsigned numbers of 64 bits may need all of 128.
    let product = a as u128 * b as u128;
    Ok(wrap(kind, product))
}

/// `a / b` in that kind, truncated towards zero (6.5.5p5 and p6).
///
/// `ZeroDivisor` comes exactly where `b` is 0, and `Overflow` where the quotient of a signed kind is out of range:
/// at the least value divided by -1.
pub fn div(kind: IntKind, a: i128, b: i128) -> Result<i128, NumFault>
    requires left_in_range { InRange kind a }
    requires right_in_range { InRange kind b }
    ensures value { result ≡ outcome_of kind Div a b }
    ensures in_range { IfOk result (λ value. InRange kind value) }
{
    if b == 0 {
        return Err(NumFault::ZeroDivisor);
    }
    quotient(kind, a, b)
}

/// `a % b` in that kind, with the sign of `a` (6.5.5p5 and p6).
///
/// `ZeroDivisor` comes exactly where `b` is 0, and `Overflow` where `a / b` overflows.
pub fn rem(kind: IntKind, a: i128, b: i128) -> Result<i128, NumFault>
    requires left_in_range { InRange kind a }
    requires right_in_range { InRange kind b }
    ensures value { result ≡ outcome_of kind Rem a b }
    ensures in_range { IfOk result (λ value. InRange kind value) }
{
    if b == 0 {
        return Err(NumFault::ZeroDivisor);
    }
    quotient(kind, a, b)?;
    remainder(kind, a, b)
}

/// The quotient: of values of a kind only the least over -1 is out of range (6.5.5p5).
fn quotient(kind: IntKind, a: i128, b: i128) -> Result<i128, NumFault>
    requires left_in_range { InRange kind a }
    requires right_in_range { InRange kind b }
    requires divisor { b ≢ pos 0 }
    ensures value { result ≡ value_of kind (int_div a b) }
    ensures in_range { IfOk result (λ value. InRange kind value) }
{
    represent(kind, a / b)
}

/// The remainder, where the quotient is in range (6.5.5p6).
fn remainder(kind: IntKind, a: i128, b: i128) -> Result<i128, NumFault>
    requires left_in_range { InRange kind a }
    requires right_in_range { InRange kind b }
    requires divisor { b ≢ pos 0 }
    ensures value { result ≡ value_of kind (int_rem a b) }
    ensures in_range { IfOk result (λ value. InRange kind value) }
{
    represent(kind, a % b)
}
