//! What a unit of the one form means: the bytes that it writes, and how its run ends.

ghost use Rattle.std.specs.Prelude.{◌≡◌, ℕ, ◌+◌, ◌*◌, ◌%◌, ◌≤◌, All, pos, List, ◌++◌, length, map, IfOk};
ghost use Rattle.std.specs.List.{flat_map};
ghost use Rattle.std.specs.Fmt.{decimal};
ghost use Rattle.acc_run.specs.Program.{Fits, before_sum, greatest_constant, longest_unit, putchar_call, plus_term};
ghost use Rattle.acc_run.specs.ProgramView.{program_view};
ghost use Rattle.acc_run.specs.Meaning.{meaning_of, sum_from, end_of_return as the_end_of_return};
ghost use Rattle.acc_num.specs.Numbers.{InRange};
ghost use Rattle.acc_num.specs.declared.kind.IntKind.TheVariants.{I32};

use crate::program::Program;
use acc_num::{IntKind, add};
use critical_table::{Code, Ended, Pos};
use itoa::Buffer;
use std::alloc::{AllocError, Global};

/// How many digits a constant is written with.
fn digits(constant: u32) -> u32
    ensures { result ≡ length (decimal constant) }
{
    Buffer::new().format(constant).len() as u32
}

/// The column behind the calls of `putchar` that begin at a column.
fn column_behind(column: u32, outputs: &[u32]) -> u32
    requires { column + length (flat_map putchar_call outputs.now) ≤ 2 * longest_unit }
    ensures { result ≡ column + length (flat_map putchar_call outputs.now) }
{
    let mut column = column;
    for argument in outputs {
        column += 10 + digits(*argument);
    }
    column
}

/// How `main` ends that returns a value.
fn end_of_return(value: i128) -> Ended
    requires { InRange I32 value }
    ensures { result ≡ the_end_of_return value }
{
    Ended::Exited(value.rem_euclid(256) as u8)
}

/// How `main` ends that returns the sum of `first` and `rest`; `column` is that of the first `+`.
fn end_of_sum(first: u32, rest: &[u32], column: u32) -> Ended
    requires first { first ≤ greatest_constant }
    requires rest { All (λ constant. constant ≤ greatest_constant) rest.now }
    requires column { column + length (flat_map plus_term rest.now) ≤ 2 * longest_unit }
    ensures { (before : List ℕ) → length before + 1 ≡ column → result ≡ sum_from before (pos first) rest.now }
{
    let mut total = i128::from(first);
    let mut column = column;
    for summand in rest {
        match add(IntKind::I32, total, i128::from(*summand)) {
            Ok(sum) => total = sum,
            Err(_) => return Ended::Undefined(Code::U01, Pos { line: 1, column }),
        }
        column += 1 + digits(*summand);
    }
    end_of_return(total)
}

/// How the run of a program ends.
pub fn end_of(program: &Program) -> Ended
    requires { Fits (program_view program.now) }
    ensures { result ≡ (meaning_of (program_view program.now)).ended }
{
    let column = column_behind(16, &program.outputs) + 7 + digits(program.first);
    end_of_sum(program.first, &program.rest, column)
}

/// All that a program writes to the output.
pub fn output_of(alloc: Global, program: &Program) -> Result<Vec<u8>, AllocError>
    ensures { IfOk result (λ bytes. bytes.items ≡ (meaning_of (program_view program.now)).output) }
{
    program
        .outputs
        .iter()
        .map(|argument| (argument % 256) as u8)
        .collect(alloc)
}
