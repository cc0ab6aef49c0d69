//! Input that was read ahead.
ghost use Rattle.std.specs.Prelude.{◌≡◌, [], ◌∷◌, None, OnOk, OnErr, IfSome};
ghost use Rattle.acc_io.specs.Cause.{HasCause};
ghost use Rattle.acc_io.specs.Bytes.{Gives};

use acc_io::{Failed, Source};
use std::marker::Model;

/// How many bytes are read at most at once.
const ROOM: usize = 4096;

/// Bytes that were read and not asked for yet. Contracts see the list of them.
#[derive(Drop)]
pub(crate) struct HeldInput {
    bytes: [u8; ROOM],
    at: usize,
    end: usize,
}

impl Model for HeldInput {
    ghost use Rattle.std.specs.Prelude.{ℕ, ◌≤◌, List, take, drop};
    ghost use Rattle.guest_io.specs.Buffers.{room};

    ghost Value = { List ℕ };

    ghost view = { λ held. drop held.at (take held.end held.bytes) };

    ghost invariant = { λ held. (held.at ≤ held.end) × (held.end ≤ room) };
}

impl HeldInput {
    pub(crate) fn new() -> HeldInput
        ensures { result ≡ [] }
    {
        HeldInput {
            bytes: [0; ROOM],
            at: 0,
            end: 0,
        }
    }

    /// Takes the first byte, if there is one.
    pub(crate) fn take(&mut self) -> Option<u8>
        ensures none { result ≡ None → (self.old ≡ []) × (self.new ≡ []) }
        ensures some { IfSome result (λ b. self.old ≡ b ∷ self.new) }
    {
        if self.at == self.end {
            return None;
        }
        let byte = self.bytes[self.at];
        self.at += 1;
        Some(byte)
    }

    /// Reads the next bytes of the source, where all earlier ones were taken.
    pub(crate) fn fill<I: Source>(&mut self, source: &mut I) -> Result<(), Failed>
        ensures cause { HasCause (I.faults source.old) (I.faults source.new) result }
        ensures given { OnOk result (Gives (I.left source.old) (I.left source.new) self.new) }
        ensures end { OnOk result (self.new ≡ [] → IfSome (I.left source.old) (λ bytes. bytes ≡ [])) }
        ensures failed { OnErr result ((I.left source.new ≡ I.left source.old) × (self.new ≡ [])) }
    {
        self.at = 0;
        self.end = 0;
        self.end = source.read(&mut self.bytes)?;
        Ok(())
    }
}
