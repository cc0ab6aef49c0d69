//! Library calls, and those that wait for a guest's function.
use critical_table::Pos;
use lib_defs::{Rest, Row, Value};

/// A library call.
#[derive(Clone, Copy, Debug, PartialEq, Eq)]
pub struct LibraryCall {
    /// The library function.
    pub row: Row,
    /// The place of the call.
    pub pos: Pos,
}

/// What a library call waits for.
#[derive(Clone, Copy, Debug, PartialEq, Eq)]
pub enum Waits {
    /// For the handler, since the runtime-constraint with this number, from 1, is violated. If the handler returns, the
    /// call has the value.
    ForHandler { constraint: u8, value: Value },
    /// For a function that the row wants called, with what the row goes on with.
    ForFunction(Rest),
}

/// A library call that waits for a guest's function.
#[derive(Clone, Copy, Debug, PartialEq, Eq)]
pub struct Suspended {
    /// The call.
    pub call: LibraryCall,
    /// What it waits for.
    pub waits: Waits,
}
