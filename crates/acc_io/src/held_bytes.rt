//! Bytes in memory that are read piece by piece.

ghost use Rattle.std.specs.Prelude.{◌≡◌, ◌++◌, length, take, drop, min};

use crate::pieces::copy_front;
use std::marker::Model;

/// Bytes, and how many of them were read. Contracts see those that are left.
#[derive(Drop)]
pub(crate) struct HeldBytes {
    bytes: Vec<u8>,
    at: usize,
}

impl Model for HeldBytes {
    ghost use Rattle.std.specs.Prelude.{ℕ, ◌≤◌, List, drop, length};

    ghost Value = { List ℕ };

    ghost view = { λ held. drop held.at held.bytes.items };

    ghost invariant = { λ held. held.at ≤ length held.bytes.items };
}

impl HeldBytes {
    pub(crate) fn new(bytes: Vec<u8>) -> HeldBytes
        ensures { result ≡ bytes.items }
    {
        HeldBytes { bytes, at: 0 }
    }

    /// Reads into the front of `buf`, at most `piece` bytes, and answers how many.
    pub(crate) fn read(&mut self, buf: &mut [u8], piece: usize) -> usize
        ensures count { result ≡ min piece (min (length buf.old) (length self.old)) }
        ensures moved { self.old ≡ take result buf.new ++ self.new }
        ensures buffer { buf.new ≡ take result self.old ++ drop result buf.old }
        ensures after { self.new ≡ drop result self.old }
    {
        let n = copy_front(&self.bytes[self.at..], buf, piece);
        self.at += n;
        n
    }
}
