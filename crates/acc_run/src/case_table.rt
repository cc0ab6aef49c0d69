//! The command `table`.

ghost use Rattle.std.specs.Prelude.{◌≡◌, ◌⊎◌, ℕ, ◌+◌, ◌≤◌, length, OnOk, OnErr, IsOk};
ghost use Rattle.acc_io.specs.Cause.{HasCause, FaultCounted};
ghost use Rattle.acc_io.specs.Bytes.{Gains, GainsPart};
ghost use Rattle.critical_table.specs.declared.ended.Ended.TheVariants.{Printed, WriteFault};
ghost use Rattle.acc_run.specs.Answer.{table_text, observe};
ghost use Rattle.acc_run.specs.Steps.{PerformsTable};

use acc_io::{Failed, Sink, write_all};
use critical_table::{Ended, Line, table_line};

/// How many lines the table has.
const LINES: u8 = 24;

/// Writes the lines of the table.
fn write_lines<O: Sink>(out: &mut O) -> Result<(), Failed>
    ensures cause { HasCause (O.faults out.old) (O.faults out.new) result }
    ensures written { OnOk result (Gains (O.written out.old) (O.written out.new) table_text) }
    ensures part { OnErr result (GainsPart (O.written out.old) (O.written out.new) table_text) }
    ensures room { (more : ℕ) → O.has_room out.old (length table_text + more) → IsOk result × O.has_room out.new more }
{
    let mut line = Line::new();
    for index in 0..LINES {
        table_line(index, &mut line);
        write_all(out, line.bytes())?;
    }
    Ok(())
}

/// Writes the table of cases and codes. It answers `Printed`, or `WriteFault` where the output failed.
pub fn table<O: Sink>(out: &mut O) -> Ended
    ensures performs { PerformsTable (observe O.faults O.written out.old out.new) result }
    ensures never_falls { O.faults out.old ≤ O.faults out.new }
    ensures room { (more : ℕ) → O.has_room out.old (length table_text + more)
        → (result ≡ Printed) × O.has_room out.new more }
{
    match write_lines(out) {
        Ok(()) => Ended::Printed,
        Err(Failed) => Ended::WriteFault,
    }
}
