//! Output that is held back.
ghost use Rattle.std.specs.Prelude.{◌≡◌, ◌<◌, ◌==◌, [], ◌∷◌, ◌++◌, length};
ghost use Rattle.guest_io.specs.Buffers.{room};

use std::marker::Model;

/// How many bytes are held back at most.
const ROOM: usize = 4096;

/// Bytes that are held back. Contracts see the list of them.
#[derive(Drop)]
pub(crate) struct HeldOutput {
    bytes: [u8; ROOM],
    len: usize,
}

impl Model for HeldOutput {
    ghost use Rattle.std.specs.Prelude.{ℕ, ◌≤◌, List, take};
    ghost use Rattle.guest_io.specs.Buffers.{room};

    ghost Value = { List ℕ };

    ghost view = { λ held. take held.len held.bytes };

    ghost invariant = { λ held. held.len ≤ room };
}

impl HeldOutput {
    pub(crate) fn new() -> HeldOutput
        ensures { result ≡ [] }
    {
        HeldOutput {
            bytes: [0; ROOM],
            len: 0,
        }
    }

    pub(crate) fn is_full(&self) -> bool
        ensures { result ≡ (length self.now == room) }
    {
        self.len == ROOM
    }

    pub(crate) fn push(&mut self, byte: u8)
        requires { length self.old < room }
        ensures { self.new ≡ self.old ++ byte ∷ [] }
    {
        self.bytes[self.len] = byte;
        self.len += 1;
    }

    pub(crate) fn bytes(&self) -> &[u8]
        ensures { result.now ≡ self.now }
    {
        &self.bytes[..self.len]
    }

    pub(crate) fn clear(&mut self)
        ensures { self.new ≡ [] }
    {
        self.len = 0;
    }
}
