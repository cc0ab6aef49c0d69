//! A source over a real reader.

ghost use Rattle.std.specs.Prelude.{◌≡◌, None};

use crate::failed::Failed;
use crate::fault_count::FaultCount;
use crate::source::Source;
use std::io::Read;
use std::marker::Model;

/// A source over a real reader. It tells no content.
///
/// Each error of the reader is a fault, an interrupted call too.
#[derive(Drop)]
pub struct ReadSource<R> {
    reader: R,
    faults: FaultCount,
}

impl<R> Model for ReadSource<R> {
    ghost use Rattle.std.specs.Prelude.{ℕ};

    // contracts see the count of faults
    ghost Value = { ℕ };

    ghost view = { λ source. source.faults };
}

impl<R: Read> ReadSource<R> {
    /// Reads by the reader. There was no fault yet.
    pub fn new(reader: R) -> ReadSource<R>
        ensures { result ≡ 0 }
    {
        ReadSource {
            reader,
            faults: FaultCount::new(),
        }
    }
}

impl<R: Read> Source for ReadSource<R> {
    ghost faults = { λ faults. faults };

    ghost left = { λ _. None };

    ghost sound = { λ _. ⊥ };

    fn read(&mut self, buf: &mut [u8]) -> Result<usize, Failed> {
        match self.reader.read(buf) {
            Ok(n) => Ok(n),
            Err(_) => Err(self.faults.count_fault()),
        }
    }
}
