//! Values as a line of a journal shows them.
ghost use Rattle.std.specs.Prelude.{◌≡◌, ◌≤◌, length, take};

use std::marker::Model;

/// The most bytes of a function's name that a journal shows.
pub const NAME_ROOM: usize = 64;

/// A function's name as a line shows it: cut to its first 64 bytes. Contracts see the list of them.
#[derive(Drop)]
pub struct ShownName {
    buffer: [u8; NAME_ROOM],
    used: usize,
}

impl Model for ShownName {
    ghost use Rattle.std.specs.Prelude.{ℕ, ◌≤◌, List, take};

    ghost Value = { List ℕ };

    ghost view = { λ name. take name.used name.buffer };

    ghost invariant = { λ name. name.used ≤ 64 };
}

impl ShownName {
    /// The first 64 bytes of the name.
    pub fn cut(name: &[u8]) -> ShownName
        ensures { result ≡ take 64 name.now }
    {
        let shown = front(name);
        let used = shown.len();
        let mut buffer = [0; NAME_ROOM];
        buffer[..used].copy_from_slice(shown);
        ShownName { buffer, used }
    }

    /// The bytes, at most 64.
    pub fn bytes(&self) -> &[u8]
        ensures value { result.now ≡ self.now }
        ensures short { length result.now ≤ 64 }
    {
        &self.buffer[..self.used]
    }
}

fn front(name: &[u8]) -> &[u8]
    ensures value { result.now ≡ take 64 name.now }
    ensures short { length result.now ≤ 64 }
{
    if name.len() <= NAME_ROOM {
        name
    } else {
        &name[..NAME_ROOM]
    }
}

/// A value in a line.
#[derive(Drop)]
pub enum Shown {
    /// A number.
    Number(i128),
    /// A pointer to a function, by the function's name.
    Function(ShownName),
    /// Any other pointer, by its object and its offset.
    Place { object: u32, offset: u32 },
    /// No value.
    NoValue,
}
