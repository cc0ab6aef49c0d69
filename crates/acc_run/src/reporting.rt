//! Reports an end.

ghost use Rattle.std.specs.Prelude.{◌≡◌, ◌⊎◌, ℕ, ◌≤◌, OnOk, OnErr, IsOk};
ghost use Rattle.acc_io.specs.Cause.{HasCause, FaultCounted};
ghost use Rattle.acc_io.specs.Bytes.{Gains, GainsPart};
ghost use Rattle.critical_table.specs.Report.{report_of};
ghost use Rattle.acc_run.specs.Answer.{observe};
ghost use Rattle.acc_run.specs.Steps.{Reports};

use acc_io::{Failed, Sink, write_all};
use critical_table::{Ended, Line, report_line};

/// Writes the line that reports an end, if it has one.
fn write_line<E: Sink>(ended: &Ended, err: &mut E) -> Result<(), Failed>
    ensures cause { HasCause (E.faults err.old) (E.faults err.new) result }
    ensures written { OnOk result (Gains (E.written err.old) (E.written err.new) (report_of ended.now)) }
    ensures part { OnErr result (GainsPart (E.written err.old) (E.written err.new) (report_of ended.now)) }
    ensures room { E.has_room err.old 200 → IsOk result × ((left : ℕ) × E.has_room err.new left) }
{
    let mut line = Line::new();
    report_line(ended, &mut line);
    write_all(err, line.bytes())
}

/// Writes the line that reports an end, and then hands on all that both sinks hold back.
fn try_report<O: Sink, E: Sink>(ended: &Ended, out: &mut O, err: &mut E) -> Result<(), Failed>
    ensures out_same { O.written out.new ≡ O.written out.old }
    ensures written { OnOk result (Gains (E.written err.old) (E.written err.new) (report_of ended.now)) }
    ensures out_count { OnOk result (O.faults out.new ≡ O.faults out.old) }
    ensures err_count { OnOk result (E.faults err.new ≡ E.faults err.old) }

    ensures cause { OnErr result (FaultCounted (O.faults out.old) (O.faults out.new)
        ⊎ FaultCounted (E.faults err.old) (E.faults err.new)) }
    ensures part { OnErr result (GainsPart (E.written err.old) (E.written err.new) (report_of ended.now)) }

    ensures out_never_falls { O.faults out.old ≤ O.faults out.new }
    ensures err_never_falls { E.faults err.old ≤ E.faults err.new }
    ensures room { (more : ℕ) → O.has_room out.old more → E.has_room err.old 200 → IsOk result }
{
    write_line(ended, err)?;
    out.flush()?;
    err.flush()
}

/// Reports an end, and answers it, or `WriteFault` where a sink failed. After a `WriteFault` it writes nothing.
pub fn report<O: Sink, E: Sink>(ended: Ended, out: &mut O, err: &mut E) -> Ended
    ensures reports { Reports (observe O.faults O.written out.old out.new)
        (observe E.faults E.written err.old err.new) ended result }
    ensures out_never_falls { O.faults out.old ≤ O.faults out.new }
    ensures err_never_falls { E.faults err.old ≤ E.faults err.new }
    ensures room { (more : ℕ) → O.has_room out.old more → E.has_room err.old 200 → result ≡ ended }
{
    if ended == Ended::WriteFault {
        return ended;
    }
    match try_report(&ended, out, err) {
        Ok(()) => ended,
        Err(Failed) => Ended::WriteFault,
    }
}
