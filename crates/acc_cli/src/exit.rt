//! The code with which the process ends: the status of the answer of `acc_main`.

ghost use Rattle.std.specs.Prelude.{◌≡◌};
ghost use Rattle.std.specs.Process.{exit_status};
ghost use Rattle.critical_table.specs.declared.ended.Ended.{Ended};
ghost use Rattle.critical_table.specs.Report.{status_of as the_status};
ghost use Rattle.acc_run.specs.Answer.{Answers, IsComplete, observe};

use acc_io::{Shelf, Sink, Source, Streams};
use acc_run::{Words, acc_main};
use critical_table::{Ended, status_of};
use std::alloc::Global;
use std::process::ExitCode;

/// The code of an end, which is its status.
pub fn exit_code(ended: &Ended) -> ExitCode
    ensures { exit_status result ≡ the_status ended.now }
{
    ExitCode::from(status_of(ended))
}

/// Does what the words ask for, as `acc_main` does, and gives the code of how it ended beside the streams.
pub fn run<S: Shelf, I: Source, O: Sink, E: Sink>(
    alloc: Global,
    words: &Words,
    shelf: &mut S,
    streams: Streams<I, O, E>,
) -> (ExitCode, Streams<I, O, E>)
    // The code is the status of an answer that says why it came, and what both sinks gained; where nothing can fail,
    // it is the answer that is due.
    ensures { (ended : Ended)
        × Answers words.now (observe S.faults S.contents shelf.old shelf.new)
        (observe O.faults O.written streams.out result.1.out)
        (observe E.faults E.written streams.err result.1.err) ended
        × IsComplete words.now (S.contents shelf.old) (S.sound shelf.old)
        (O.has_room streams.out) (E.has_room streams.err) ended
        × (exit_status result.0 ≡ the_status ended) }
{
    let (ended, streams) = acc_main(alloc, words, shelf, streams);
    (exit_code(&ended), streams)
}
