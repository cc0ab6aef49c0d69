//! Input that is read piece by piece.
ghost use Rattle.std.specs.Prelude.{◌≡◌, [], true, false, None, IfSome, pos, negsuc};
ghost use Rattle.lib_defs.specs.declared.step.LibStep.TheVariants.{Done};
ghost use Rattle.lib_defs.specs.declared.value.Value.TheVariants.{Num};
ghost use Rattle.lib_defs.specs.Answers.{Counts, is_read_fault, is_write_fault};
ghost use Rattle.guest_io.specs.Sights.{comes_of, comes_behind};
ghost use Rattle.guest_io.specs.Streams.{Gets};

use crate::held_input::HeldInput;
use acc_io::{Failed, Source};
use critical_table::Ended;
use lib_defs::{LibStep, Value};
use std::marker::Model;

/// A source, and what was read of it and not asked for yet.
#[derive(Drop)]
pub(crate) struct Input<I> {
    source: I,
    ahead: HeldInput,
    ended: bool,
}

impl<I> Model for Input<I> {
    ghost use Rattle.guest_io.specs.Views.{InputView};

    ghost Value = { InputView I };

    ghost view = { λ input. record { source = input.source; ahead = input.ahead; ended = input.ended } };
}

impl<I> Input<I> {
    pub(crate) fn new(source: I) -> Input<I>
        ensures { result ≡ record { source = source; ahead = []; ended = false } }
    {
        Input {
            source,
            ahead: HeldInput::new(),
            ended: false,
        }
    }

    pub(crate) fn into_source(self) -> I
        ensures { result ≡ self.source }
    {
        let Input {
            source,
            ahead: _,
            ended: _,
        } = self;
        source
    }
}

/// The answer that is a byte.
pub(crate) fn byte_step(byte: u8) -> LibStep
    ensures { result ≡ Done (Num (pos byte)) }
{
    LibStep::Done(Value::Num(i128::from(byte)))
}

/// The answer at the end of the input.
fn end_step() -> LibStep
    ensures { result ≡ Done (Num (negsuc 0)) }
{
    LibStep::Done(Value::Num(-1))
}

impl<I: Source> Input<I> {
    /// The answer of `getchar`, where the source is not to be read for it.
    pub(crate) fn step_ahead(&mut self) -> Option<LibStep>
        ensures answer { IfSome result (λ step. Gets (comes_of I.left self.old) (comes_of I.left self.new) step) }
        ensures no_read_fault { IfSome result (λ step. is_read_fault step ≡ false) }
        ensures no_write_fault { IfSome result (λ step. is_write_fault step ≡ false) }
        ensures source { self.new.source ≡ self.old.source }
        ensures same { result ≡ None → self.new ≡ self.old }
        ensures none_ahead { result ≡ None → self.old.ahead ≡ [] }
        ensures goes_on { result ≡ None → self.old.ended ≡ false }
        ensures spent { self.old.ahead ≡ [] → self.old.ended ≡ false → result ≡ None }
    {
        if let Some(byte) = self.ahead.take() {
            return Some(byte_step(byte));
        }
        if self.ended {
            return Some(end_step());
        }
        None
    }

    /// Reads the source, and gives the answer of `getchar`.
    pub(crate) fn step_behind(&mut self) -> LibStep
        requires none_ahead { self.old.ahead ≡ [] }
        requires goes_on { self.old.ended ≡ false }
        ensures answer { Gets (comes_of I.left self.old)
            (comes_behind (is_read_fault result) (comes_of I.left self.new)) result }
        ensures no_write_fault { is_write_fault result ≡ false }
        ensures source { Counts (is_read_fault result) (I.faults self.old.source) (I.faults self.new.source) }
    {
        match self.ahead.fill(&mut self.source) {
            Err(Failed) => LibStep::End(Ended::ReadFault),
            Ok(()) => match self.ahead.take() {
                Some(byte) => byte_step(byte),
                None => {
                    self.ended = true;
                    end_step()
                }
            },
        }
    }
}
