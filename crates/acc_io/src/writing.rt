//! Writing all of some bytes.

ghost use Rattle.std.specs.Prelude.{ℕ, ◌+◌, length, OnOk, OnErr, IsOk};
ghost use Rattle.acc_io.specs.Cause.{HasCause};
ghost use Rattle.acc_io.specs.Bytes.{Gains, GainsPart};

use crate::failed::Failed;
use crate::sink::Sink;

/// Writes all the bytes, by as many calls of `write` as it takes; none for no bytes.
///
/// `Failed` comes only where the sink's count of faults rose. Then a front of the bytes is written.
pub fn write_all<O: Sink>(sink: &mut O, bytes: &[u8]) -> Result<(), Failed>
    ensures cause { HasCause (O.faults sink.old) (O.faults sink.new) result }
    ensures written { OnOk result (Gains (O.written sink.old) (O.written sink.new) bytes.now) }
    ensures part { OnErr result (GainsPart (O.written sink.old) (O.written sink.new) bytes.now) }
    ensures room { (room : ℕ) → O.has_room sink.old (length bytes.now + room)
        → IsOk result × O.has_room sink.new room }
{
    let mut done = 0;
    while done < bytes.len() {
        done += sink.write(&bytes[done..])?;
    }
    Ok(())
}
