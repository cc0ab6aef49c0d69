//! Where the events of a run are handed to.
ghost use Rattle.std.specs.Prelude.{◌≡◌, ℕ, ◌+◌, List, length, Option, None, OnOk, OnErr, IsOk};
ghost use Rattle.acc_io.specs.Cause.{HasCause};
ghost use Rattle.acc_io.specs.Bytes.{Gains, GainsPart};
ghost use Rattle.run_defs.specs.Lines.{event_line as the_line};

use crate::event::Event;
use crate::line_text::event_line;
use acc_io::{Failed, Sink, write_all};
use critical_table::Line;
use std::marker::Model;

/// Takes the events of a run in order.
pub trait Journal {
    /// How many faults there were. The count never falls.
    ghost faults: { Self → ℕ };

    /// The text of the journal so far, where the object tells it.
    ghost written: { Self → Option (List ℕ) };

    /// It takes that many more bytes of text, and no call fails until then.
    ghost has_room: { Self → ℕ → Type 0 };

    /// Takes an event: its line is added to the text.
    ///
    /// `Failed` comes only where the count of faults rose. Then a front of the line is added.
    fn event(&mut self, event: &Event) -> Result<(), Failed>
        ensures cause { HasCause (faults self.old) (faults self.new) result }
        ensures written { OnOk result (Gains (written self.old) (written self.new) (the_line event.now)) }
        ensures part { OnErr result (GainsPart (written self.old) (written self.new) (the_line event.now)) }
        ensures room { (room : ℕ) → has_room self.old (length (the_line event.now) + room)
            → IsOk result × has_room self.new room };
}

/// A journal that keeps nothing, tells nothing and never fails.
#[derive(Drop)]
pub struct NoJournal {}

impl NoJournal {
    /// A journal that keeps nothing.
    pub fn new() -> NoJournal {
        NoJournal {}
    }
}

impl Journal for NoJournal {
    ghost faults = { λ _. 0 };

    ghost written = { λ _. None };

    ghost has_room = { λ _ _. Unit {0} };

    fn event(&mut self, _event: &Event) -> Result<(), Failed> {
        Ok(())
    }
}

/// A journal that writes the lines to a sink. Contracts see the sink.
#[derive(Drop)]
pub struct LineJournal<O> {
    out: O,
    line: Line,
}

impl<O> Model for LineJournal<O> {
    ghost Value = { O };

    ghost view = { λ journal. journal.out };
}

impl<O: Sink> LineJournal<O> {
    /// Writes to the sink.
    pub fn new(out: O) -> LineJournal<O>
        ensures { result ≡ out }
    {
        LineJournal {
            out,
            line: Line::new(),
        }
    }

    /// Hands the sink back.
    pub fn into_out(self) -> O
        ensures { result ≡ self }
    {
        self.out
    }
}

impl<O: Sink> Journal for LineJournal<O> {
    ghost faults = { λ out. O.faults out };

    ghost written = { λ out. O.written out };

    ghost has_room = { λ out room. O.has_room out room };

    fn event(&mut self, event: &Event) -> Result<(), Failed> {
        event_line(event, &mut self.line);
        write_all(&mut self.out, self.line.bytes())
    }
}
