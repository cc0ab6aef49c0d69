//! What a library row answers.
use crate::row::Row;
use crate::value::Value;
use critical_table::{Case, Code, Ended};
use object_store::{By, Pointer};

/// What a row keeps while it waits for a guest's function.
#[derive(Clone, Copy, Debug, PartialEq, Eq)]
pub struct Rest {
    /// The row that waits.
    pub row: Row,
    /// Numbers that it goes on with.
    pub numbers: [u64; 4],
    /// Pointers that it goes on with.
    pub places: [Pointer; 4],
}

/// The outcome of a row.
#[derive(Clone, Copy, Debug, PartialEq, Eq)]
pub enum LibStep {
    /// It is done, with its stores, and has this value.
    Done(Value),
    /// The runtime-constraint with this number, from 1, is the first that is violated, and the row's action is
    /// stored. A handler is told `errno`; if it returns, the call has the value.
    Violated {
        constraint: u8,
        errno: i32,
        value: Value,
    },
    /// A guest's function is wanted, called with the three pointers; the row goes on by `resume`.
    Ask {
        function: Pointer,
        first: Pointer,
        second: Pointer,
        third: Pointer,
        rest: Rest,
    },
    /// A critical case, with the pointer, size, alignment and kind of the reach that failed. One with alignment 0 is
    /// no reach: of `printf` its size is the number of the argument, of any other row its pointer is the value.
    Trap(Case, Pointer, u32, u32, By),
    /// Another undefined behaviour.
    Undef(Code),
    /// The run ends: `Exited`, `Aborted`, `ReadFault` or `WriteFault`.
    End(Ended),
}
