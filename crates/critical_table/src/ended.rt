//! How a command ends.

use crate::case::Case;
use crate::code::Code;
use crate::pos::Pos;
use crate::refusal::Refusal;

/// How a command ended.
#[derive(Clone, Copy, Debug, PartialEq, Eq)]
pub enum Ended {
    /// The run ended with this status, modulo 256 (5.1.2.2.3, 7.22.4.4).
    Exited(u8),
    /// The run ended by `abort` (7.22.4.1) or by the abort handler (K.3.6.1.2).
    Aborted,
    /// A critical undefined behaviour was met at the place (L.3).
    Trapped(Case, Pos),
    /// Another undefined behaviour was met at the place (L.2.2).
    Undefined(Code, Pos),
    /// A step wanted a tick when none was left.
    OutOfTicks,
    /// An object or a call would have passed the budget of bytes.
    OutOfBytes,
    /// A read of the input failed.
    ReadFault,
    /// A write of the output or of the error output failed.
    WriteFault,
    /// The file of the unit was not read.
    ShelfFault,
    /// The unit is refused at the place.
    Refused(Refusal, Pos),
    /// The words of the command line are no command.
    Usage,
    /// A command that prints is done.
    Printed,
    /// There was no memory.
    Memory,
}
