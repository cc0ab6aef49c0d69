//! A source in memory whose calls fail as planned.

ghost use Rattle.std.specs.Prelude.{◌≡◌, ◌<◌, ◌≤◌, ◌++◌, ◌↔◌, [], length, take, drop, min, Some, IfSome, IfOk, OnErr};
ghost use Rattle.std.specs.Prelude.{IsOk, IsErr};
ghost use Rattle.acc_io.specs.Cause.{HasCause};
ghost use Rattle.acc_io.specs.Bytes.{Gives};
ghost use Rattle.acc_io.specs.Plan.{FailsNext, first_plan, after_call, after_fault};

use crate::call_plan::CallPlan;
use crate::failed::Failed;
use crate::held_bytes::HeldBytes;
use crate::source::Source;
use std::marker::Model;

/// A source that holds its bytes, and fails at the calls that its plan lists.
#[derive(Drop)]
pub struct MemSource {
    bytes: HeldBytes,
    piece: usize,
    plan: CallPlan,
}

impl Model for MemSource {
    ghost use Rattle.std.specs.Prelude.{◌<◌};
    ghost use Rattle.acc_io.specs.Views.{SourceView};

    ghost Value = { SourceView };

    ghost view = { λ source. record {
      left = source.bytes;
      piece = source.piece;
      plan = source.plan;
    } };

    ghost invariant = { λ source. 0 < source.piece };
}

impl MemSource {
    /// Gives these bytes, at most `piece` of them at a call. `failing` has the numbers, from 1, of the calls
    /// that fail and move nothing.
    pub fn new(bytes: Vec<u8>, piece: usize, failing: Vec<u64>) -> MemSource
        requires { 0 < piece }
        ensures { result ≡ record { left = bytes.items; piece = piece; plan = first_plan failing.items } }
    {
        MemSource {
            bytes: HeldBytes::new(bytes),
            piece,
            plan: CallPlan::new(failing),
        }
    }
}

impl Source for MemSource {
    ghost faults = { λ source. source.plan.faults };

    ghost left = { λ source. Some source.left };

    ghost sound = { λ source. source.plan.failing ≡ [] };

    /// Fails exactly where the number of this call is in the list. Else it moves as many bytes as the piece, the
    /// buffer and what is left allow.
    fn read(&mut self, buf: &mut [u8]) -> Result<usize, Failed>
        requires { 0 < length buf.old }

        ensures cause { HasCause self.old.plan.faults self.new.plan.faults result }
        ensures within { IfOk result (λ n. n ≤ length buf.new) }
        ensures given { IfOk result (λ n. Gives (Some self.old.left) (Some self.new.left) (take n buf.new)) }
        ensures end { IfOk result (λ n. n ≡ 0 → IfSome (Some self.old.left) (λ bytes. bytes ≡ [])) }
        ensures failed { OnErr result (Some self.new.left ≡ Some self.old.left) }
        ensures sound { self.old.plan.failing ≡ [] → IsOk result × (self.new.plan.failing ≡ []) }

        ensures fails { IsErr result ↔ FailsNext self.old.plan }
        ensures count { IfOk result (λ n. n ≡ min self.old.piece (min (length buf.old) (length self.old.left))) }
        ensures buffer { IfOk result (λ n. buf.new ≡ take n self.old.left ++ drop n buf.old) }
        ensures same_buffer { OnErr result (buf.new ≡ buf.old) }
        ensures after { IfOk result (λ n. self.new
            ≡ record self.old { left = drop n self.old.left; plan = after_call self.old.plan }) }
        ensures after_failed { OnErr result (self.new
            ≡ record self.old { plan = after_fault (after_call self.old.plan) }) }
    {
        self.plan.call()?;
        Ok(self.bytes.read(buf, self.piece))
    }
}
