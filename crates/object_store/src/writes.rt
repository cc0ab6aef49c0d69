//! The stores that the store tells of.
ghost use Rattle.std.specs.Prelude.{◌≡◌, ◌+◌, ◌<◌, ◌≤◌, [], ◌∷◌, ◌++◌, length, slice_get};

use std::marker::Model;

/// A store that was done.
#[derive(Clone, Copy, Debug, PartialEq, Eq)]
pub struct Write {
    /// The number of the object.
    pub object: u32,
    /// The first byte that was stored to.
    pub at: u32,
    /// How many bytes were; at least 1.
    pub len: u32,
}

/// At most four stores, in order. Contracts see the list of them.
#[derive(Drop)]
pub struct Writes {
    list: [Write; 4],
    count: usize,
}

impl Model for Writes {
    ghost use Rattle.std.specs.Prelude.{◌≤◌, List, take};
    ghost use Rattle.object_store.specs.declared.writes.Write.{Write};

    ghost Value = { List Write };

    ghost view = { λ writes. take writes.count writes.list };

    ghost invariant = { λ writes. writes.count ≤ 4 };
}

impl Writes {
    /// No stores.
    pub(crate) fn new() -> Writes
        ensures { result ≡ [] }
    {
        let none = Write {
            object: 0,
            at: 0,
            len: 0,
        };
        Writes {
            list: [none; 4],
            count: 0,
        }
    }

    /// Notes one store more.
    pub(crate) fn push(&mut self, write: Write)
        requires { length self.old < 4 }
        ensures { self.new ≡ self.old ++ write ∷ [] }
    {
        self.list[self.count] = write;
        self.count += 1;
    }

    /// How many stores there are, at most four.
    pub fn len(&self) -> usize
        ensures value { result ≡ length self.now }
        ensures few { result ≤ 4 }
    {
        self.list[..self.count].len()
    }

    /// The store at the index, or `None` where the index is not below `len`.
    pub fn get(&self, index: usize) -> Option<Write>
        ensures { result ≡ slice_get self.now index }
    {
        self.list[..self.count].get(index).copied()
    }
}
