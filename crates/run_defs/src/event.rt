//! The events of a run.
use crate::attempt::Attempt;
use crate::outcome::End;
use crate::seal::Seal;
use crate::values::Values;
use critical_table::{Case, Code, Pos};
use lib_defs::{Row, Shown, ShownName};
use object_store::{Class, Write};

/// What a run does: one for each line of its journal.
#[derive(Drop)]
pub enum Event {
    /// An object is made.
    Made {
        object: u32,
        size: u32,
        class: Class,
    },
    /// Bytes of an object get a mark.
    Sealed {
        object: u32,
        seal: Seal,
    },
    /// The unit or a row stores.
    Stored(Write),
    /// The lifetime of an object ends (6.2.4).
    Died {
        object: u32,
    },
    /// A library call begins, and has taken its tick.
    Called {
        row: Row,
        values: Values,
    },
    /// A library call returns.
    Returned {
        row: Row,
        value: Shown,
    },
    /// The handler of runtime-constraints is set (K.3.6.1.1).
    HandlerSet(ShownName),
    /// The runtime-constraint with this number, from 1, is violated; the action's store follows (K.3.1.4).
    Violated {
        row: Row,
        constraint: u8,
    },
    /// The handler is called, and has taken its tick.
    HandlerCalled(ShownName),
    /// The handler has returned.
    HandlerReturned,
    /// An access does not reach its range (L.3).
    ReachFailed {
        case: Case,
        pos: Pos,
        attempt: Attempt,
    },
    /// A pointer is no value for a call, a release of space or a handler (L.3).
    ValueFailed {
        case: Case,
        pos: Pos,
        value: Shown,
    },
    /// The argument with this number, from 1, of `printf` is missing or of another type (L.3, 7.21.6.1).
    ArgumentFailed {
        pos: Pos,
        argument: u32,
    },
    /// An operation is undefined (L.2.2).
    Stopped {
        code: Code,
        pos: Pos,
    },
    /// The run ends: the last event.
    Ended(End),
}
