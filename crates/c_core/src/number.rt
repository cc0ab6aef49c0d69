//! What the operators make of numbers (6.5.3.3, 6.5.5 to 6.5.12).
ghost use Rattle.std.specs.Prelude.{◌≡◌, false, IfOk};
ghost use Rattle.acc_num.specs.Numbers.{InRange};
ghost use Rattle.c_core.specs.Operations.{operator_outcome, negation, complement, compares, truth, is_shift, bits_in};

use crate::operator::{Comparison, Operator};
use acc_num::kind::width;
use acc_num::{IntKind, NumFault, convert};

/// The operator is a shift, whose count may have any kind.
pub(crate) fn is_shift(operator: Operator) -> bool
    ensures { result ≡ is_shift operator }
{
    matches!(operator, Operator::ShiftLeft | Operator::ShiftRight)
}

// The bits of a number of a kind.
fn bits(kind: IntKind, value: i128) -> u64
    ensures { result ≡ bits_in kind value }
{
    value.rem_euclid(1 << width(kind)) as u64
}

/// The outcome of an operator on two numbers of a kind; the count of a shift may have any kind.
///
/// The fault is that of `acc_num`; `BitAnd`, `BitOr` and `BitXor` always have a value.
#[tactic(auto, unfolding(crate::specs::Operations::operator_outcome))]
pub fn operate(operator: Operator, kind: IntKind, a: i128, b: i128) -> Result<i128, NumFault>
    requires left { InRange kind a }
    requires right { is_shift operator ≡ false → InRange kind b }
    ensures value { result ≡ operator_outcome operator kind a b }
    ensures in_range { IfOk result (λ value. InRange kind value) }
{
    match operator {
        Operator::Add => acc_num::add(kind, a, b),
        Operator::Subtract => acc_num::sub(kind, a, b),
        Operator::Multiply => acc_num::mul(kind, a, b),
        Operator::Divide => acc_num::div(kind, a, b),
        Operator::Remainder => acc_num::rem(kind, a, b),
        Operator::ShiftLeft => acc_num::shl(kind, a, b),
        Operator::ShiftRight => acc_num::shr(kind, a, b),
        Operator::BitAnd => Ok(convert(kind, i128::from(bits(kind, a) & bits(kind, b)))),
        Operator::BitOr => Ok(convert(kind, i128::from(bits(kind, a) | bits(kind, b)))),
        Operator::BitXor => Ok(convert(kind, i128::from(bits(kind, a) ^ bits(kind, b)))),
    }
}

/// `-a` in that kind. `Overflow` comes exactly at the least value of a signed kind.
#[tactic(auto, unfolding(crate::specs::Operations::negation))]
pub fn negate(kind: IntKind, a: i128) -> Result<i128, NumFault>
    requires { InRange kind a }
    ensures value { result ≡ negation kind a }
    ensures in_range { IfOk result (λ value. InRange kind value) }
{
    acc_num::sub(kind, 0, a)
}

/// `~a` in that kind.
#[tactic(auto, unfolding(crate::specs::Operations::complement))]
pub fn flip(kind: IntKind, a: i128) -> i128
    ensures value { result ≡ complement kind a }
    ensures in_range { InRange kind result }
{
    convert(kind, i128::from(bits(kind, a) ^ bits(kind, -1)))
}

/// Both numbers compare so.
pub fn compare(comparison: Comparison, a: i128, b: i128) -> bool
    ensures { result ≡ compares comparison a b }
{
    match comparison {
        Comparison::Less => a < b,
        Comparison::LessEqual => a <= b,
        Comparison::Equal => a <= b && b <= a,
        Comparison::NotEqual => !(a <= b && b <= a),
        Comparison::GreaterEqual => b <= a,
        Comparison::Greater => b < a,
    }
}

/// An `int` that tells a truth value (6.5.8p6).
pub(crate) fn truth(holds: bool) -> i128
    ensures { result ≡ truth holds }
{
    i128::from(holds)
}
