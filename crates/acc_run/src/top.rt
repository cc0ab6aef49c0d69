//! The top call.

ghost use Rattle.std.specs.Prelude.{◌≡◌, ◌⊎◌, ℕ, ◌+◌, ◌≤◌, List, length};
ghost use Rattle.critical_table.specs.declared.ended.Ended.TheVariants.{Memory};
ghost use Rattle.acc_io.specs.Held.{Held};
ghost use Rattle.critical_table.specs.declared.ended.Ended.{Ended};
ghost use Rattle.acc_run.specs.Job.{job_of as the_job};
ghost use Rattle.acc_run.specs.Meaning.{Outcome};
ghost use Rattle.acc_run.specs.Answer.{Answers, HasFailed, IsComplete, IsDue, IsReported, Observed, observe};
ghost use Rattle.acc_run.specs.Loading.{ReadsForJob};
ghost use Rattle.acc_run.specs.Steps.{Performs};

use crate::case_table::table;
use crate::job::{Job, job_of};
use crate::reporting::report;
use crate::running::run;
use crate::words::Words;
use acc_io::{Shelf, Sink, Source, Streams};
use critical_table::Ended;
use std::alloc::Global;

/// Does what the words ask for, and writes its output.
fn perform<S: Shelf, O: Sink>(alloc: Global, words: &Words, shelf: &mut S, out: &mut O) -> Ended
    ensures performs { Performs words.now (observe S.faults S.contents shelf.old shelf.new)
        (observe O.faults O.written out.old out.new) result }
    ensures within { ReadsForJob (the_job words.now) (S.contents shelf.old) (S.contents shelf.new) }
    ensures shelf_never_falls { S.faults shelf.old ≤ S.faults shelf.new }
    ensures out_never_falls { O.faults out.old ≤ O.faults out.new }
    ensures complete { (outcome : Outcome) (more : ℕ) → IsDue (the_job words.now) (S.contents shelf.old) outcome
        → S.sound shelf.old → O.has_room out.old (length outcome.output + more)
        → ((result ≡ outcome.ended) ⊎ (result ≡ Memory)) × ((left : ℕ) × O.has_room out.new left) }
{
    match job_of(words) {
        None => Ended::Usage,
        Some(Job::Run(file)) => run(alloc, file, shelf, out),
        Some(Job::Table) => table(out),
    }
}

/// Does what the words of a command line ask for, over a shelf of files, an input, an output and an error output,
/// reports how it ended, and hands the streams back.
///
/// The words are the program's name, `run` and a file, or the program's name and `table`; all else is `Usage`.
/// `ShelfFault` comes only where the shelf's count of faults rose, `Refused` exactly where the file is no unit, and
/// `WriteFault` only where the count of a sink rose. Want of memory is `Memory`.
pub fn acc_main<S: Shelf, I: Source, O: Sink, E: Sink>(
    alloc: Global,
    words: &Words,
    shelf: &mut S,
    streams: Streams<I, O, E>,
) -> (Ended, Streams<I, O, E>)
    // Why the answer came, and what both sinks gained.
    ensures answer { Answers words.now (observe S.faults S.contents shelf.old shelf.new)
        (observe O.faults O.written streams.out result.1.out)
        (observe E.faults E.written streams.err result.1.err) result.0 }

    // Where nothing can fail, the answer is what is due.
    ensures complete { IsComplete words.now (S.contents shelf.old) (S.sound shelf.old)
        (O.has_room streams.out) (E.has_room streams.err) result.0 }

    // At most one byte more than the longest unit has is read of the file, and nothing else of the shelf.
    ensures within { ReadsForJob (the_job words.now) (S.contents shelf.old) (S.contents shelf.new) }

    ensures input_unread { result.1.input ≡ streams.input }
    ensures shelf_never_falls { S.faults shelf.old ≤ S.faults shelf.new }
    ensures out_never_falls { O.faults streams.out ≤ O.faults result.1.out }
    ensures err_never_falls { E.faults streams.err ≤ E.faults result.1.err }
{
    let Streams {
        input,
        mut out,
        mut err,
    } = streams;
    let ended = perform(alloc, words, shelf, &mut out);
    let ended = report(ended, &mut out, &mut err);
    (ended, Streams { input, out, err })
}

/// The contract of `acc_main` read forwards: where no count rose, its answer is what is due to the words and the
/// shelf, and all of it is written, or memory ran out.
pub fn exact()
    ensures { (words : List (List ℕ)) (shelf : Observed Held) (out err : Observed (List ℕ))
        (outcome : Outcome) (answer : Ended) →
        Answers words shelf out err answer → IsDue (the_job words) shelf.before outcome →
        (HasFailed shelf → ⊥) → (HasFailed out → ⊥) → (HasFailed err → ⊥) →
        (answer ≡ Memory) ⊎ IsReported outcome out err answer }
{}
