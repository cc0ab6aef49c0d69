//! Which calls on an object in memory fail.

ghost use Rattle.std.specs.Prelude.{◌≡◌, ◌≤◌, ◌↔◌, ◌+◌, Contains, MatchResult, IsErr, IsTrue};
ghost use Rattle.acc_io.specs.Cause.{HasCause, FaultCounted};
ghost use Rattle.acc_io.specs.Plan.{FailsNext, first_plan, after_call, after_fault};

use crate::failed::Failed;
use crate::fault_count::FaultCount;
use std::marker::Model;

/// Which calls on an object fail, and how many calls and faults there were.
#[derive(Drop)]
pub(crate) struct CallPlan {
    failing: Vec<u64>,
    calls: u64,
    faults: FaultCount,
}

impl Model for CallPlan {
    ghost use Rattle.acc_io.specs.Plan.{Plan};

    ghost Value = { Plan };

    ghost view = { λ plan. record { failing = plan.failing.items; calls = plan.calls; faults = plan.faults } };
}

impl CallPlan {
    pub(crate) fn new(failing: Vec<u64>) -> CallPlan
        ensures { result ≡ first_plan failing.items }
    {
        CallPlan {
            failing,
            calls: 0,
            faults: FaultCount::new(),
        }
    }

    /// Counts a call, which fails where its number is in the list.
    pub(crate) fn call(&mut self) -> Result<(), Failed>
        ensures fails { IsErr result ↔ FailsNext self.old }
        ensures plan { MatchResult result
            (λ _. self.new ≡ after_call self.old)
            (λ _. self.new ≡ after_fault (after_call self.old)) }
        ensures cause { HasCause self.old.faults self.new.faults result }
    {
        if self.next_fails() {
            return Err(self.count_fault());
        }
        Ok(())
    }

    /// Counts a fault.
    pub(crate) fn count_fault(&mut self) -> Failed
        ensures plan { self.new ≡ after_fault self.old }
        ensures never_falls { self.old.faults ≤ self.new.faults }
        ensures fault_counted { FaultCounted self.old.faults self.new.faults }
    {
        self.faults.count_fault()
    }

    fn next_fails(&mut self) -> bool
        ensures fails { IsTrue result ↔ FailsNext self.old }
        ensures plan { self.new ≡ after_call self.old }
    {
        let fails = lists_next(&self.failing, self.calls);
        self.calls = self.calls.saturating_add(1);
        fails
    }
}

// Whether the next call is in the list. A number past the last value of 64 bits can't be.
fn lists_next(failing: &[u64], calls: u64) -> bool
    ensures { IsTrue result ↔ Contains failing.now (calls + 1) }
{
    match calls.checked_add(1) {
        Some(number) => failing.contains(&number),
        None => false,
    }
}
