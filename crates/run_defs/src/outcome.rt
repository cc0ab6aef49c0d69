//! How a run ends.
ghost use Rattle.std.specs.Prelude.{◌≡◌};
ghost use Rattle.run_defs.specs.Outcomes.{ended_of, end_of};

use critical_table::{Case, Code, Ended, Pos};

/// How a run ends by its meaning. Want of memory and a failed write are no matter of the meaning.
#[derive(Clone, Copy, Debug, PartialEq, Eq)]
pub enum Outcome {
    /// With this status (5.1.2.2.3, 7.22.4.4).
    Exited(u8),
    /// By `abort` (7.22.4.1) or by the abort handler (K.3.6.1.2).
    Aborted,
    /// A critical undefined behaviour is met at the place (L.3).
    Trapped(Case, Pos),
    /// Another undefined behaviour is met at the place (L.2.2).
    Undefined(Code, Pos),
    /// A step needs a tick, and none is left.
    OutOfTicks,
    /// An object or a call would pass the budget of bytes.
    OutOfBytes,
    /// The input is broken, and is asked for more.
    ReadFault,
}

/// What the last line of a journal shows of an outcome: all but the place.
#[derive(Clone, Copy, Debug, PartialEq, Eq)]
pub enum End {
    /// With this status.
    Exited(u8),
    /// By `abort` or by the abort handler.
    Aborted,
    /// By a critical undefined behaviour.
    Trapped(Case),
    /// By another undefined behaviour.
    Undefined(Code),
    /// For want of a tick.
    OutOfTicks,
    /// For want of bytes.
    OutOfBytes,
    /// By a read of a broken input.
    ReadFault,
}

impl Outcome {
    /// What the last line shows of it.
    pub fn end(self) -> End
        ensures { result ≡ end_of self }
    {
        match self {
            Outcome::Exited(status) => End::Exited(status),
            Outcome::Aborted => End::Aborted,
            Outcome::Trapped(case, _) => End::Trapped(case),
            Outcome::Undefined(code, _) => End::Undefined(code),
            Outcome::OutOfTicks => End::OutOfTicks,
            Outcome::OutOfBytes => End::OutOfBytes,
            Outcome::ReadFault => End::ReadFault,
        }
    }

    /// The end of a command that such a run is.
    pub fn ended(self) -> Ended
        ensures { result ≡ ended_of self }
    {
        match self {
            Outcome::Exited(status) => Ended::Exited(status),
            Outcome::Aborted => Ended::Aborted,
            Outcome::Trapped(case, pos) => Ended::Trapped(case, pos),
            Outcome::Undefined(code, pos) => Ended::Undefined(code, pos),
            Outcome::OutOfTicks => Ended::OutOfTicks,
            Outcome::OutOfBytes => Ended::OutOfBytes,
            Outcome::ReadFault => Ended::ReadFault,
        }
    }
}
