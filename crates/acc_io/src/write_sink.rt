//! A sink over a real writer.

ghost use Rattle.std.specs.Prelude.{◌≡◌, None};

use crate::failed::Failed;
use crate::fault_count::FaultCount;
use crate::sink::Sink;
use std::io::Write;
use std::marker::Model;

/// A sink over a real writer. It tells no content.
///
/// Each error of the writer is a fault, an interrupted call too, and so is a call that takes nothing of a piece that
/// is not empty.
#[derive(Drop)]
pub struct WriteSink<W> {
    writer: W,
    faults: FaultCount,
}

impl<W> Model for WriteSink<W> {
    ghost use Rattle.std.specs.Prelude.{ℕ};

    // contracts see the count of faults
    ghost Value = { ℕ };

    ghost view = { λ sink. sink.faults };
}

impl<W: Write> WriteSink<W> {
    /// Writes by the writer. There was no fault yet.
    pub fn new(writer: W) -> WriteSink<W>
        ensures { result ≡ 0 }
    {
        WriteSink {
            writer,
            faults: FaultCount::new(),
        }
    }
}

impl<W: Write> Sink for WriteSink<W> {
    ghost faults = { λ faults. faults };

    ghost written = { λ _. None };

    ghost has_room = { λ _ _. ⊥ };

    fn write(&mut self, bytes: &[u8]) -> Result<usize, Failed> {
        match self.writer.write(bytes) {
            Ok(0) if !bytes.is_empty() => Err(self.faults.count_fault()),
            Ok(n) => Ok(n),
            Err(_) => Err(self.faults.count_fault()),
        }
    }

    fn flush(&mut self) -> Result<(), Failed> {
        match self.writer.flush() {
            Ok(()) => Ok(()),
            Err(_) => Err(self.faults.count_fault()),
        }
    }
}
