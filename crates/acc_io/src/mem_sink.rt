//! A sink in memory whose calls fail as planned.

ghost use Rattle.std.specs.Prelude.{◌≡◌, ℕ, ◌+◌, ◌-◌, ◌<◌, ◌≤◌, ◌++◌, ◌⊎◌, ◌↔◌, [], length, take, min, Some, IfOk};
ghost use Rattle.std.specs.Prelude.{OnOk, OnErr, IsOk, IsErr};
ghost use Rattle.acc_io.specs.Cause.{HasCause};
ghost use Rattle.acc_io.specs.Bytes.{Gains};
ghost use Rattle.acc_io.specs.Plan.{FailsNext, first_plan, after_call, after_fault};

use crate::call_plan::CallPlan;
use crate::failed::Failed;
use crate::sink::Sink;
use std::alloc::{AllocError, Global};
use std::marker::Model;

/// A sink that holds what is written, up to its room, and fails at the calls that its plan lists.
#[derive(Drop)]
pub struct MemSink {
    bytes: Vec<u8>,
    room: usize,
    piece: usize,
    plan: CallPlan,
}

impl Model for MemSink {
    ghost use Rattle.acc_io.specs.Views.{SinkView, KeepsRoom};

    ghost Value = { SinkView };

    ghost view = { λ sink. record {
      written = sink.bytes.items;
      room = sink.room;
      piece = sink.piece;
      plan = sink.plan;
    } };

    ghost invariant = { λ sink. KeepsRoom sink.bytes sink.room sink.piece sink.plan };
}

impl MemSink {
    /// Holds as many bytes as its room, and takes at most `piece` of them at a call. `failing` has the numbers,
    /// from 1, of the calls that fail and move nothing. This call alone takes memory: the whole room.
    pub fn new(
        alloc: Global,
        room: usize,
        piece: usize,
        failing: Vec<u64>,
    ) -> Result<MemSink, AllocError>
        requires { 0 < piece }
        ensures { IfOk result (λ sink. sink
            ≡ record { written = []; room = room; piece = piece; plan = first_plan failing.items }) }
    {
        let bytes = Vec::with_capacity(alloc, room)?;
        Ok(MemSink {
            bytes,
            room,
            piece,
            plan: CallPlan::new(failing),
        })
    }

    /// The bytes that were written.
    pub fn bytes(&self) -> &[u8]
        ensures bytes { result.now ≡ self.now.written }
        ensures within { length self.now.written ≤ self.now.room }
        ensures no_fault { self.now.plan.failing ≡ [] → length self.now.written < self.now.room
            → self.now.plan.faults ≡ 0 }
    {
        self.bytes.as_slice()
    }
}

impl Sink for MemSink {
    ghost faults = { λ sink. sink.plan.faults };

    ghost written = { λ sink. Some sink.written };

    ghost has_room = { λ sink room. (sink.plan.failing ≡ []) × (length sink.written + room ≤ sink.room) };

    /// Fails exactly where the number of this call is in the list, and where the room is used up and the piece is
    /// not empty. Else it takes as many bytes as the piece, the bytes and the room allow.
    fn write(&mut self, bytes: &[u8]) -> Result<usize, Failed>
        ensures cause { HasCause self.old.plan.faults self.new.plan.faults result }
        ensures within { IfOk result (λ n. n ≤ length bytes.now) }
        ensures some { IfOk result (λ n. 0 < length bytes.now → 0 < n) }
        ensures written { IfOk result (λ n. Gains (Some self.old.written) (Some self.new.written) (take n bytes.now)) }
        ensures failed { OnErr result (Some self.new.written ≡ Some self.old.written) }
        ensures succeeds { (room : ℕ) → 0 < room
            → (self.old.plan.failing ≡ []) × (length self.old.written + room ≤ self.old.room) → IsOk result }
        ensures room { IfOk result (λ n. (room : ℕ)
            → (self.old.plan.failing ≡ []) × (length self.old.written + (n + room) ≤ self.old.room)
            → (self.new.plan.failing ≡ []) × (length self.new.written + room ≤ self.new.room)) }

        ensures fails { IsErr result
            ↔ (FailsNext self.old.plan ⊎ ((0 < length bytes.now) × (length self.old.written ≡ self.old.room))) }
        ensures count { IfOk result (λ n. n
            ≡ min self.old.piece (min (length bytes.now) (self.old.room - length self.old.written))) }
        ensures after { IfOk result (λ n. self.new
            ≡ record self.old { written = self.old.written ++ take n bytes.now; plan = after_call self.old.plan }) }
        ensures after_failed { OnErr result (self.new
            ≡ record self.old { plan = after_fault (after_call self.old.plan) }) }
    {
        self.plan.call()?;
        let n = self
            .piece
            .min(bytes.len())
            .min(self.room - self.bytes.len());
        if n == 0 && !bytes.is_empty() {
            return Err(self.plan.count_fault());
        }
        self.bytes.extend_from_slice(&bytes[..n]).unwrap();
        Ok(n)
    }

    /// Fails exactly where the number of this call is in the list. Nothing is held back.
    fn flush(&mut self) -> Result<(), Failed>
        ensures cause { HasCause self.old.plan.faults self.new.plan.faults result }
        ensures written { Some self.new.written ≡ Some self.old.written }
        ensures room { (room : ℕ)
            → (self.old.plan.failing ≡ []) × (length self.old.written + room ≤ self.old.room)
            → IsOk result × ((self.new.plan.failing ≡ []) × (length self.new.written + room ≤ self.new.room)) }

        ensures fails { IsErr result ↔ FailsNext self.old.plan }
        ensures after { OnOk result (self.new ≡ record self.old { plan = after_call self.old.plan }) }
        ensures after_failed { OnErr result (self.new
            ≡ record self.old { plan = after_fault (after_call self.old.plan) }) }
    {
        self.plan.call()
    }
}
