//! The count of faults of an object.

ghost use Rattle.std.specs.Prelude.{◌≡◌, ◌≤◌};
ghost use Rattle.acc_io.specs.Cause.{FaultCounted};
ghost use Rattle.acc_io.specs.Plan.{one_more};

use crate::failed::Failed;
use std::marker::Model;

/// How many faults there were. The count stays at the last value of 64 bits.
#[derive(Drop)]
pub(crate) struct FaultCount {
    count: u64,
}

impl Model for FaultCount {
    ghost use Rattle.std.specs.Prelude.{ℕ};

    ghost Value = { ℕ };

    ghost view = { λ faults. faults.count };
}

impl FaultCount {
    pub(crate) fn new() -> FaultCount
        ensures { result ≡ 0 }
    {
        FaultCount { count: 0 }
    }

    /// Counts a fault.
    pub(crate) fn count_fault(&mut self) -> Failed
        ensures count { self.new ≡ one_more self.old }
        ensures never_falls { self.old ≤ self.new }
        ensures fault_counted { FaultCounted self.old self.new }
    {
        self.count = self.count.saturating_add(1);
        Failed
    }
}
