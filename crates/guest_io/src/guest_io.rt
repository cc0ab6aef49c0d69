//! The functions that read and write, over a guest's streams.
ghost use Rattle.std.specs.Prelude.{◌≡◌, [], length, true, false, is_err, OnOk, OnErr, IsErr};
ghost use Rattle.object_store.specs.Storage.{Storage};
ghost use Rattle.lib_defs.specs.declared.handler.Handler.{Handler};
ghost use Rattle.lib_defs.specs.declared.step.LibStep.TheVariants.{End};
ghost use Rattle.critical_table.specs.declared.ended.Ended.TheVariants.{WriteFault};
ghost use Rattle.lib_defs.specs.RowTable.{modulo_byte as byte_of};
ghost use Rattle.lib_defs.specs.StreamRows.{put_reply, puts_reply, get_reply, abort_reply};
ghost use Rattle.lib_defs.specs.Answers.{Answers, StayHanded, Counts, is_read_fault, is_write_fault};
ghost use Rattle.guest_io.specs.Counting.{SinkCounts};
ghost use Rattle.guest_io.specs.Views.{faults_of};
ghost use Rattle.guest_io.specs.Sights.{sight_of, sight_behind, written_of};
ghost use Rattle.guest_io.specs.Streams.{Adds, Cuts};
ghost use Rattle.guest_io.specs.Texts.{text_of, IsEnded, abort_text, is_aborted};

use crate::input::{Input, byte_step};
use crate::output::Output;
use crate::text::text_length;
use acc_io::{Failed, Sink, Source, Streams};
use critical_table::Ended;
use lib_defs::{LibStep, Value};
use object_store::{Pointer, Store};
use std::marker::Model;

/// The input, the output and the error output of a guest, with their buffers. Contracts see the three streams, what was
/// read ahead, what is held back, and whether a write has failed.
///
/// The output is written when its buffer is full, before the source is read, and at the end. After the source has given
/// no bytes it is not read again. After a failed write nothing more is written.
#[derive(Drop)]
pub struct GuestIo<I, O, E> {
    input: Input<I>,
    out: Output<O>,
    err: Output<E>,
    cut: bool,
}

impl<I, O, E> Model for GuestIo<I, O, E> {
    ghost use Rattle.guest_io.specs.Views.{GuestView};

    ghost Value = { GuestView I O E };

    ghost view = { λ io. record { input = io.input; out = io.out; err = io.err; cut = io.cut } };
}

/// The byte that a number is modulo 256 (7.21.7.8, 6.3.1.3p2).
fn modulo_byte(c: i32) -> u8
    ensures { result ≡ byte_of c }
{
    c.rem_euclid(256) as u8
}

impl<I, O, E> GuestIo<I, O, E> {
    /// Takes the streams. Nothing is read ahead, and nothing is held back.
    pub fn new(streams: Streams<I, O, E>) -> GuestIo<I, O, E>
        ensures { result ≡ record {
          input = record { source = streams.input; ahead = []; ended = false };
          out = record { sink = streams.out; held = [] };
          err = record { sink = streams.err; held = [] };
          cut = false;
        } }
    {
        GuestIo {
            input: Input::new(streams.input),
            out: Output::new(streams.out),
            err: Output::new(streams.err),
            cut: false,
        }
    }

    /// Hands the same streams back. What was read ahead and what is held back is lost.
    pub fn into_streams(self) -> Streams<I, O, E>
        ensures input { result.input ≡ self.input.source }
        ensures out { result.out ≡ self.out.sink }
        ensures err { result.err ≡ self.err.sink }
    {
        let GuestIo {
            input,
            out,
            err,
            cut: _,
        } = self;
        Streams {
            input: input.into_source(),
            out: out.into_sink(),
            err: err.into_sink(),
        }
    }

    fn is_cut(&self) -> bool
        ensures { result ≡ self.now.cut }
    {
        self.cut
    }

    // The answer of a write that failed, behind which nothing is written.
    fn fail(&mut self) -> LibStep
        ensures answer { result ≡ End WriteFault }
        ensures cut { self.new ≡ record self.old { cut = true } }
    {
        self.cut = true;
        LibStep::End(Ended::WriteFault)
    }
}

impl<I: Source, O: Sink, E: Sink> GuestIo<I, O, E> {
    /// Writes `c` modulo 256, and gives it (7.21.7.8). `End(WriteFault)` comes only where a sink counted a fault.
    pub fn putchar(&mut self, c: i32) -> LibStep
        requires writable { self.old.cut ≡ false }
        ensures answer { (store : Storage) (handler : Handler) → Answers (λ w. put_reply w c)
            (sight_of I.left O.written E.written self.old) (sight_of I.left O.written E.written self.new)
            store store handler handler result }
        ensures handed { StayHanded (sight_of I.left O.written E.written self.old)
            (sight_of I.left O.written E.written self.new) }
        ensures writable { is_write_fault result ≡ false → self.new.cut ≡ false }
        ensures source { Counts (is_read_fault result) (I.faults self.old.input.source)
            (I.faults self.new.input.source) }
        ensures sinks { SinkCounts (is_write_fault result) (faults_of O.faults E.faults self.old)
            (faults_of O.faults E.faults self.new) }
    {
        let byte = modulo_byte(c);
        match self.out.put(byte) {
            Ok(()) => byte_step(byte),
            Err(Failed) => self.fail(),
        }
    }

    /// Reads the string at `s`, and writes it and a newline (7.21.7.9). A string that is not read to its null traps, or
    /// stops where a byte of it is indeterminate; then nothing is written. `End(WriteFault)` comes only where a sink
    /// counted a fault.
    pub fn puts(&mut self, store: &Store, s: Pointer) -> LibStep
        requires writable { self.old.cut ≡ false }
        ensures answer { (handler : Handler) → Answers (λ w. puts_reply w s)
            (sight_of I.left O.written E.written self.old) (sight_of I.left O.written E.written self.new)
            store.now store.now handler handler result }
        ensures handed { StayHanded (sight_of I.left O.written E.written self.old)
            (sight_of I.left O.written E.written self.new) }
        ensures writable { is_write_fault result ≡ false → self.new.cut ≡ false }
        ensures source { Counts (is_read_fault result) (I.faults self.old.input.source)
            (I.faults self.new.input.source) }
        ensures sinks { SinkCounts (is_write_fault result) (faults_of O.faults E.faults self.old)
            (faults_of O.faults E.faults self.new) }
    {
        match text_length(store, s) {
            Err(step) => step,
            Ok(len) => self.put_line(store, s, len),
        }
    }

    // `puts` of a text that is read to its null, of so many characters.
    fn put_line(&mut self, store: &Store, text: Pointer, len: u32) -> LibStep
        requires writable { self.old.cut ≡ false }
        requires ended { IsEnded store.now text }
        requires len { length (text_of store.now text) ≡ len }
        ensures answer { (handler : Handler) → Answers (λ w. puts_reply w text)
            (sight_of I.left O.written E.written self.old) (sight_of I.left O.written E.written self.new)
            store.now store.now handler handler result }
        ensures handed { StayHanded (sight_of I.left O.written E.written self.old)
            (sight_of I.left O.written E.written self.new) }
        ensures writable { is_write_fault result ≡ false → self.new.cut ≡ false }
        ensures source { Counts (is_read_fault result) (I.faults self.old.input.source)
            (I.faults self.new.input.source) }
        ensures sinks { SinkCounts (is_write_fault result) (faults_of O.faults E.faults self.old)
            (faults_of O.faults E.faults self.new) }
    {
        match self.out.put_line(store, text, len) {
            Ok(()) => LibStep::Done(Value::Num(0)),
            Err(Failed) => self.fail(),
        }
    }

    /// Gives the next byte, or -1 at the end (7.21.7.6). Before the source is read the output is written.
    ///
    /// `End(ReadFault)` comes only where the source counted a fault in this call, and `End(WriteFault)` only where a
    /// sink did.
    pub fn getchar(&mut self) -> LibStep
        requires writable { self.old.cut ≡ false }
        ensures answer { (store : Storage) (handler : Handler)
            → Answers (λ w. get_reply w w.streams.input.bytes w.streams.input.ending)
            (sight_of I.left O.written E.written self.old)
            (sight_behind (is_read_fault result) (sight_of I.left O.written E.written self.new))
            store store handler handler result }
        ensures handed { StayHanded (sight_of I.left O.written E.written self.old)
            (sight_of I.left O.written E.written self.new) }
        ensures flushed { self.old.input.ahead ≡ [] → self.old.input.ended ≡ false → self.new.out.held ≡ [] }
        ensures writable { is_write_fault result ≡ false → self.new.cut ≡ false }
        ensures source { Counts (is_read_fault result) (I.faults self.old.input.source)
            (I.faults self.new.input.source) }
        ensures sinks { SinkCounts (is_write_fault result) (faults_of O.faults E.faults self.old)
            (faults_of O.faults E.faults self.new) }
    {
        match self.input.step_ahead() {
            Some(step) => step,
            None => self.read_on(),
        }
    }

    // `getchar` where the source is read.
    fn read_on(&mut self) -> LibStep
        requires writable { self.old.cut ≡ false }
        requires none_ahead { self.old.input.ahead ≡ [] }
        requires goes_on { self.old.input.ended ≡ false }
        ensures answer { (store : Storage) (handler : Handler)
            → Answers (λ w. get_reply w w.streams.input.bytes w.streams.input.ending)
            (sight_of I.left O.written E.written self.old)
            (sight_behind (is_read_fault result) (sight_of I.left O.written E.written self.new))
            store store handler handler result }
        ensures handed { StayHanded (sight_of I.left O.written E.written self.old)
            (sight_of I.left O.written E.written self.new) }
        ensures flushed { self.new.out.held ≡ [] }
        ensures writable { is_write_fault result ≡ false → self.new.cut ≡ false }
        ensures source { Counts (is_read_fault result) (I.faults self.old.input.source)
            (I.faults self.new.input.source) }
        ensures sinks { SinkCounts (is_write_fault result) (faults_of O.faults E.faults self.old)
            (faults_of O.faults E.faults self.new) }
    {
        match self.out.hand_on() {
            Ok(()) => self.input.step_behind(),
            Err(Failed) => self.fail(),
        }
    }

    /// Reads the string at `text`, writes the output, tells the string on the error output, and ends the run as aborted
    /// (K.3.6.1.2). A string that is not read to its null traps or stops as that of `puts`. `End(WriteFault)` comes
    /// only where a sink counted a fault.
    pub fn abort_handler(&mut self, store: &Store, text: Pointer) -> LibStep
        requires writable { self.old.cut ≡ false }
        ensures answer { (handler : Handler) → Answers (λ w. abort_reply w text)
            (sight_of I.left O.written E.written self.old) (sight_of I.left O.written E.written self.new)
            store.now store.now handler handler result }
        ensures handed { StayHanded (sight_of I.left O.written E.written self.old)
            (sight_of I.left O.written E.written self.new) }
        ensures told { is_aborted result ≡ true → self.new.err.held ≡ [] }
        ensures writable { is_write_fault result ≡ false → self.new.cut ≡ false }
        ensures source { Counts (is_read_fault result) (I.faults self.old.input.source)
            (I.faults self.new.input.source) }
        ensures sinks { SinkCounts (is_write_fault result) (faults_of O.faults E.faults self.old)
            (faults_of O.faults E.faults self.new) }
    {
        match text_length(store, text) {
            Err(step) => step,
            Ok(len) => self.tell(store, text, len),
        }
    }

    // `abort_handler` of a text that is read to its null, of so many characters.
    fn tell(&mut self, store: &Store, text: Pointer, len: u32) -> LibStep
        requires writable { self.old.cut ≡ false }
        requires ended { IsEnded store.now text }
        requires len { length (text_of store.now text) ≡ len }
        ensures answer { (handler : Handler) → Answers (λ w. abort_reply w text)
            (sight_of I.left O.written E.written self.old) (sight_of I.left O.written E.written self.new)
            store.now store.now handler handler result }
        ensures handed { StayHanded (sight_of I.left O.written E.written self.old)
            (sight_of I.left O.written E.written self.new) }
        ensures told { is_aborted result ≡ true → self.new.err.held ≡ [] }
        ensures writable { is_write_fault result ≡ false → self.new.cut ≡ false }
        ensures source { Counts (is_read_fault result) (I.faults self.old.input.source)
            (I.faults self.new.input.source) }
        ensures sinks { SinkCounts (is_write_fault result) (faults_of O.faults E.faults self.old)
            (faults_of O.faults E.faults self.new) }
    {
        match self.try_tell(store, text, len) {
            Ok(()) => LibStep::End(Ended::Aborted),
            Err(Failed) => self.fail(),
        }
    }

    // Writes the output, and tells a text on the error output.
    fn try_tell(&mut self, store: &Store, text: Pointer, len: u32) -> Result<(), Failed>
        requires ended { IsEnded store.now text }
        requires len { length (text_of store.now text) ≡ len }
        ensures input { self.new.input ≡ self.old.input }
        ensures cut { self.new.cut ≡ self.old.cut }
        ensures out { OnOk result (Adds (written_of O.written self.old.out) (written_of O.written self.new.out) []) }
        ensures err { OnOk result (Adds (written_of E.written self.old.err) (written_of E.written self.new.err)
            (abort_text store.now text)) }
        ensures out_cut { OnErr result
            (Cuts (written_of O.written self.old.out) (written_of O.written self.new.out) []) }
        ensures err_cut { OnErr result (Cuts (written_of E.written self.old.err) (written_of E.written self.new.err)
            (abort_text store.now text)) }
        ensures told { OnOk result (self.new.err.held ≡ []) }
        ensures sinks { SinkCounts (is_err result) (faults_of O.faults E.faults self.old)
            (faults_of O.faults E.faults self.new) }
    {
        match self.out.hand_on() {
            Err(failed) => Err(failed),
            Ok(()) => self.err.put_message(b"abort_handler_s: ", store, text, len),
        }
    }

    /// Ends the run: writes what is held back, then the line on the error output, and hands on what both sinks hold
    /// back. After a write that failed it writes nothing and fails.
    ///
    /// Else it fails only where a sink counted a fault. Then only `into_streams` may follow.
    pub fn finish(&mut self, line: &[u8]) -> Result<(), Failed>
        ensures failed { self.old.cut ≡ true → IsErr result }
        ensures same { self.old.cut ≡ true → self.new ≡ self.old }
        ensures input { self.new.input ≡ self.old.input }
        ensures out { OnOk result (Adds (written_of O.written self.old.out) (written_of O.written self.new.out) []) }
        ensures err { OnOk result (Adds (written_of E.written self.old.err) (written_of E.written self.new.err)
            line.now) }
        ensures out_none { OnOk result (self.new.out.held ≡ []) }
        ensures err_none { OnOk result (self.new.err.held ≡ []) }
        ensures out_cut { OnErr result
            (Cuts (written_of O.written self.old.out) (written_of O.written self.new.out) []) }
        ensures err_cut { OnErr result (Cuts (written_of E.written self.old.err) (written_of E.written self.new.err)
            line.now) }
        ensures sinks { self.old.cut ≡ false → SinkCounts (is_err result) (faults_of O.faults E.faults self.old)
            (faults_of O.faults E.faults self.new) }
    {
        if self.is_cut() {
            return Err(Failed);
        }
        self.write_end(line)
    }

    // Writes all, and hands it on.
    fn write_end(&mut self, line: &[u8]) -> Result<(), Failed>
        ensures input { self.new.input ≡ self.old.input }
        ensures out { OnOk result (Adds (written_of O.written self.old.out) (written_of O.written self.new.out) []) }
        ensures err { OnOk result (Adds (written_of E.written self.old.err) (written_of E.written self.new.err)
            line.now) }
        ensures out_none { OnOk result (self.new.out.held ≡ []) }
        ensures err_none { OnOk result (self.new.err.held ≡ []) }
        ensures out_cut { OnErr result
            (Cuts (written_of O.written self.old.out) (written_of O.written self.new.out) []) }
        ensures err_cut { OnErr result (Cuts (written_of E.written self.old.err) (written_of E.written self.new.err)
            line.now) }
        ensures sinks { SinkCounts (is_err result) (faults_of O.faults E.faults self.old)
            (faults_of O.faults E.faults self.new) }
    {
        match self.out.hand_out() {
            Err(failed) => Err(failed),
            Ok(()) => self.err.write_out(line),
        }
    }
}
