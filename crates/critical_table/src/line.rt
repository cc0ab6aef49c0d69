//! A text of bounded length, which needs no memory from the heap.

ghost use Rattle.std.specs.Prelude.{◌≡◌, ◌+◌, ◌≤◌, [], ◌++◌, length};

use std::marker::Model;

/// The most bytes that a `Line` holds.
pub const LINE_ROOM: usize = 160;

/// A text of at most 160 bytes in a fixed buffer. Contracts see the list of its bytes.
#[derive(Drop)]
pub struct Line {
    buffer: [u8; LINE_ROOM],
    used: usize,
}

impl Model for Line {
    ghost use Rattle.std.specs.Prelude.{ℕ, ◌≤◌, List, take};

    ghost Value = { List ℕ };

    ghost view = { λ line. take line.used line.buffer };

    ghost invariant = { λ line. line.used ≤ 160 };
}

impl Line {
    /// An empty text.
    pub fn new() -> Line
        ensures { result ≡ [] }
    {
        Line {
            buffer: [0; LINE_ROOM],
            used: 0,
        }
    }

    /// Empties the text.
    pub fn clear(&mut self)
        ensures { self.new ≡ [] }
    {
        self.used = 0;
    }

    /// Appends the bytes, for which there has to be room.
    pub fn push(&mut self, bytes: &[u8])
        requires { length self.old + length bytes.now ≤ 160 }
        ensures { self.new ≡ self.old ++ bytes.now }
    {
        let end = self.used + bytes.len();
        self.buffer[self.used..end].copy_from_slice(bytes);
        self.used = end;
    }

    /// The bytes, at most 160.
    pub fn bytes(&self) -> &[u8]
        ensures value { result.now ≡ self.now }
        ensures short { length result.now ≤ 160 }
    {
        &self.buffer[..self.used]
    }
}
