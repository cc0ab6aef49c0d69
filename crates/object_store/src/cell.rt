//! A byte of an object.
ghost use Rattle.std.specs.Prelude.{◌≡◌};

use crate::mark::Mark;

/// One byte of an object: its value, or none where it is indeterminate (3.19.2), and its mark.
#[derive(Clone, Copy, Debug, PartialEq, Eq)]
pub struct Cell {
    /// Its value; `None` where it is indeterminate.
    pub byte: Option<u8>,
    /// Whether it may be stored to.
    pub mark: Mark,
}

impl Cell {
    ghost use Rattle.object_store.specs.Steps.{stored_cell};

    /// A cell that may be stored to.
    pub(crate) fn plain(byte: Option<u8>) -> Cell
        ensures { result ≡ stored_cell byte }
    {
        Cell {
            byte,
            mark: Mark::Plain,
        }
    }
}
