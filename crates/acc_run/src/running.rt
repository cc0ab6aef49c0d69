//! The command `run`.

ghost use Rattle.std.specs.Prelude.{◌≡◌, ◌≢◌, ◌⊎◌, ℕ, ◌+◌, ◌≤◌, List, [], Some, length};
ghost use Rattle.critical_table.specs.declared.ended.Ended.TheVariants.{Memory};
ghost use Rattle.acc_run.specs.Job.{Run, job_of};
ghost use Rattle.acc_run.specs.Meaning.{Outcome};
ghost use Rattle.acc_run.specs.Answer.{IsOutcomeOf, IsCause, IsDue, observe};
ghost use Rattle.acc_run.specs.Loading.{ReadsForJob};
ghost use Rattle.acc_run.specs.Steps.{Performs};

use crate::load::{LoadFault, read_file};
use crate::meaning;
use crate::read_program::program_of;
use acc_io::{Failed, Shelf, Sink, write_all};
use critical_table::{Ended, Pos, Refusal};
use std::alloc::Global;

/// An end that is due, and all that is written to the output before it is reported.
#[derive(Drop)]
pub struct Due {
    /// How the command ends.
    pub ended: Ended,
    /// What is written to the output, in bytes.
    pub output: Vec<u8>,
}

/// An end before which nothing is written.
fn without_output(alloc: Global, ended: Ended) -> Due
    ensures ended { result.ended ≡ ended }
    ensures output { result.output.items ≡ [] }
{
    Due {
        ended,
        output: Vec::new(alloc),
    }
}

/// What becomes of a unit.
fn due_of_unit(alloc: Global, unit: &[u8]) -> Due
    ensures is_outcome { result.ended ≢ Memory
        → IsOutcomeOf unit.now (record { ended = result.ended; output = result.output.items }) }
    ensures memory { result.ended ≡ Memory → result.output.items ≡ [] }
{
    let program = match program_of(alloc, unit) {
        Err(_) => return without_output(alloc, Ended::Memory),
        Ok(None) => {
            let first = Pos { line: 1, column: 1 };
            return without_output(alloc, Ended::Refused(Refusal::Syntax, first));
        }
        Ok(Some(program)) => program,
    };
    match meaning::output_of(alloc, &program) {
        Err(_) => without_output(alloc, Ended::Memory),
        Ok(output) => Due {
            ended: meaning::end_of(&program),
            output,
        },
    }
}

/// What becomes of the unit in a file, which the shelf gives.
fn due_of_file<S: Shelf>(alloc: Global, file: &str, shelf: &mut S) -> Due
    ensures cause { (words : List (List ℕ)) → job_of words ≡ Some (Run file.now)
        → IsCause words (observe S.faults S.contents shelf.old shelf.new) result.ended result.output.items }
    ensures within { ReadsForJob (Some (Run file.now)) (S.contents shelf.old) (S.contents shelf.new) }
    ensures counts { S.faults shelf.old ≤ S.faults shelf.new }
    ensures complete { (outcome : Outcome) → IsDue (Some (Run file.now)) (S.contents shelf.old) outcome
        → S.sound shelf.old
        → (result.ended ≡ outcome.ended) × (result.output.items ≡ outcome.output)
        ⊎ (result.ended ≡ Memory) × (result.output.items ≡ []) }
{
    match read_file(alloc, shelf, file) {
        Err(LoadFault::Shelf) => without_output(alloc, Ended::ShelfFault),
        Err(LoadFault::Memory) => without_output(alloc, Ended::Memory),
        Ok(unit) => due_of_unit(alloc, &unit),
    }
}

/// Runs the unit in a file, and writes its output. It answers the end that is due, or `WriteFault` where the output
/// failed.
pub fn run<S: Shelf, O: Sink>(alloc: Global, file: &str, shelf: &mut S, out: &mut O) -> Ended
    ensures performs { (words : List (List ℕ)) → job_of words ≡ Some (Run file.now)
        → Performs words (observe S.faults S.contents shelf.old shelf.new)
        (observe O.faults O.written out.old out.new) result }
    ensures within { ReadsForJob (Some (Run file.now)) (S.contents shelf.old) (S.contents shelf.new) }
    ensures shelf_never_falls { S.faults shelf.old ≤ S.faults shelf.new }
    ensures out_never_falls { O.faults out.old ≤ O.faults out.new }
    ensures complete { (outcome : Outcome) (more : ℕ) → IsDue (Some (Run file.now)) (S.contents shelf.old) outcome
        → S.sound shelf.old → O.has_room out.old (length outcome.output + more)
        → ((result ≡ outcome.ended) ⊎ (result ≡ Memory)) × ((left : ℕ) × O.has_room out.new left) }
{
    let due = due_of_file(alloc, file, shelf);
    match write_all(out, &due.output) {
        Ok(()) => due.ended,
        Err(Failed) => Ended::WriteFault,
    }
}
