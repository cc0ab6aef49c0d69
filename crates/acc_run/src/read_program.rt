//! Reads a unit of the one form that is run.

ghost use Rattle.std.specs.Prelude.{◌≡◌, ℕ, ◌+◌, ◌<◌, ◌≤◌, List, [], ◌∷◌, ◌++◌, length, take, drop, All, IfOk};
ghost use Rattle.std.specs.Prelude.{IfSome, IfNone, codes, true, IsTrue, ◌↔◌};
ghost use Rattle.std.specs.List.{flat_map};
ghost use Rattle.std.specs.Str.{all_ascii_digits};
ghost use Rattle.std.specs.Fmt.{decimal};
ghost use Rattle.acc_run.specs.Program.{UnitParts, IsUnit, greatest_constant, putchar_call, plus_term};
ghost use Rattle.acc_run.specs.ProgramView.{program_view};
ghost use Rattle.acc_run.specs.PartEnds.{EndsNumeral, EndsCalls, EndsSum};

use crate::program::Program;
use std::alloc::{AllocError, Global};
use std::str;

/// The greatest constant of type `int`.
const GREATEST_CONSTANT: u32 = 2147483647;

/// The longest unit, in bytes.
pub const LONGEST_UNIT: usize = 4096;

/// How many digits stand at the front.
#[tactic(auto, using(crate::proofs::Fronts::all_digits_more, crate::proofs::Fronts::ends_at))]
fn digits_len(bytes: &[u8]) -> usize
    ensures within { result ≤ length bytes.now }
    ensures digits { all_ascii_digits (take result bytes.now) ≡ true }
    ensures ends { EndsNumeral (drop result bytes.now) }
{
    for (index, byte) in bytes.iter().enumerate() {
        if !byte.is_ascii_digit() {
            return index;
        }
    }
    bytes.len()
}

/// What follows this text, where it stands at the front.
fn strip<'a>(bytes: &'a [u8], text: &[u8]) -> Option<&'a [u8]>
    ensures found { IfSome result (λ rest. bytes.now ≡ text.now ++ rest.now) }
    ensures none { IfNone result ((rest : List ℕ) → bytes.now ≡ text.now ++ rest → ⊥) }
{
    bytes.strip_prefix(text)
}

/// The value of a numeral in the decimal form that prints it.
fn numeral(digits: &[u8]) -> Option<u32>
    requires { all_ascii_digits digits.now ≡ true }
    ensures found { IfSome result (λ value. (digits.now ≡ decimal value) × (value ≤ greatest_constant)) }
    ensures none { IfNone result ((value : ℕ) → value ≤ greatest_constant → digits.now ≡ decimal value → ⊥) }
{
    if digits.len() > 1 && digits[0] == b'0' {
        return None;
    }
    let Ok(text) = str::from_utf8(digits) else {
        return None;
    };
    let Ok(value) = text.parse::<u32>() else {
        return None;
    };
    if value > GREATEST_CONSTANT {
        return None;
    }
    Some(value)
}

/// The constant at the front, and what follows it: `0`, or digits without a leading zero, up to the greatest `int`.
fn constant(bytes: &[u8]) -> Option<(u32, &[u8])>
    ensures found { IfSome result (λ found. (bytes.now ≡ decimal found.0 ++ found.1.now)
        × (found.0 ≤ greatest_constant) × EndsNumeral found.1.now) }
    ensures none { IfNone result ((constant : ℕ) (rest : List ℕ) → constant ≤ greatest_constant → EndsNumeral rest
        → bytes.now ≡ decimal constant ++ rest → ⊥) }
{
    let (digits, rest) = bytes.split_at(digits_len(bytes));
    match numeral(digits) {
        None => None,
        Some(value) => Some((value, rest)),
    }
}

/// The argument of the call of `putchar` at the front, and what follows the call.
fn putchar_argument(bytes: &[u8]) -> Option<(u32, &[u8])>
    ensures found { IfSome result (λ found. (bytes.now ≡ putchar_call found.0 ++ found.1.now)
        × (found.0 ≤ greatest_constant)) }
    ensures none { IfNone result (EndsCalls bytes.now) }
{
    let rest = strip(bytes, b"putchar(")?;
    let (argument, rest) = constant(rest)?;
    let rest = strip(rest, b");")?;
    Some((argument, rest))
}

/// The summand behind the `+` at the front, and what follows it.
fn summand(bytes: &[u8]) -> Option<(u32, &[u8])>
    ensures found { IfSome result (λ found. (bytes.now ≡ plus_term found.0 ++ found.1.now)
        × (found.0 ≤ greatest_constant) × EndsNumeral found.1.now) }
    ensures none { IfNone result (EndsSum bytes.now) }
{
    let rest = strip(bytes, b"+")?;
    constant(rest)
}

/// The arguments of all calls of `putchar` from the front on, and what follows them.
fn putchar_arguments(alloc: Global, bytes: &[u8]) -> Result<(Vec<u32>, &[u8]), AllocError>
    ensures spelled { IfOk result (λ found. bytes.now ≡ flat_map putchar_call found.0.items ++ found.1.now) }
    ensures fit { IfOk result (λ found. All (λ constant. constant ≤ greatest_constant) found.0.items) }
    ensures all { IfOk result (λ found. EndsCalls found.1.now) }
{
    let mut arguments = Vec::new(alloc);
    let mut rest = bytes;
    while let Some((argument, after)) = putchar_argument(rest) {
        arguments.push(argument)?;
        rest = after;
    }
    Ok((arguments, rest))
}

/// All summands from the front on, each behind its `+`, and what follows them.
fn summands(alloc: Global, bytes: &[u8]) -> Result<(Vec<u32>, &[u8]), AllocError>
    requires { EndsNumeral bytes.now }
    ensures spelled { IfOk result (λ found. bytes.now ≡ flat_map plus_term found.0.items ++ found.1.now) }
    ensures fit { IfOk result (λ found. All (λ constant. constant ≤ greatest_constant) found.0.items) }
    ensures all { IfOk result (λ found. EndsSum found.1.now × EndsNumeral found.1.now) }
{
    let mut summands = Vec::new(alloc);
    let mut rest = bytes;
    while let Some((summand, after)) = summand(rest) {
        summands.push(summand)?;
        rest = after;
    }
    Ok((summands, rest))
}

/// These bytes end a unit.
fn is_end(bytes: &[u8]) -> bool
    ensures { IsTrue result ↔ (bytes.now ≡ codes ";}") }
{
    bytes == b";}".as_slice()
}

/// The program that these bytes spell, if they spell one. `AllocError` comes where memory ran out.
pub fn program_of(alloc: Global, bytes: &[u8]) -> Result<Option<Program>, AllocError>
    ensures found { IfOk result (λ program. IfSome program (λ p. IsUnit (program_view p) bytes.now)) }
    ensures none { IfOk result (λ program. IfNone program ((parts : UnitParts) → IsUnit parts bytes.now → ⊥)) }
{
    if bytes.len() > LONGEST_UNIT {
        return Ok(None);
    }
    let Some(rest) = strip(bytes, b"int main(void){") else {
        return Ok(None);
    };
    let (outputs, rest) = putchar_arguments(alloc, rest)?;
    let Some(rest) = strip(rest, b"return ") else {
        return Ok(None);
    };
    let Some((first, rest)) = constant(rest) else {
        return Ok(None);
    };
    let (summands, rest) = summands(alloc, rest)?;
    if !is_end(rest) {
        return Ok(None);
    }
    Ok(Some(Program {
        outputs,
        first,
        rest: summands,
    }))
}
