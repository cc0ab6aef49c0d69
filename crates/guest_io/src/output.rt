//! Output that is written piece by piece.
ghost use Rattle.std.specs.Prelude.{◌≡◌, [], ◌∷◌, ◌++◌, length, codes, OnOk, OnErr};
ghost use Rattle.acc_io.specs.Cause.{HasCause};
ghost use Rattle.acc_io.specs.Bytes.{Gains, GainsPart};
ghost use Rattle.guest_io.specs.Sights.{written_of};
ghost use Rattle.guest_io.specs.Streams.{Adds, Cuts};
ghost use Rattle.guest_io.specs.Texts.{text_of, IsEnded};

use crate::held_output::HeldOutput;
use crate::text::known_character;
use acc_io::{Failed, Sink, write_all};
use object_store::{Pointer, Store};
use std::marker::Model;

/// A sink, and what is held back for it: never as many bytes as there is room for.
#[derive(Drop)]
pub(crate) struct Output<O> {
    sink: O,
    held: HeldOutput,
}

impl<O> Model for Output<O> {
    ghost use Rattle.std.specs.Prelude.{◌<◌, length};
    ghost use Rattle.guest_io.specs.Buffers.{room};
    ghost use Rattle.guest_io.specs.Views.{OutputView};

    ghost Value = { OutputView O };

    ghost view = { λ output. record { sink = output.sink; held = output.held } };

    ghost invariant = { λ output. length output.held < room };
}

impl<O> Output<O> {
    pub(crate) fn new(sink: O) -> Output<O>
        ensures { result ≡ record { sink = sink; held = [] } }
    {
        Output {
            sink,
            held: HeldOutput::new(),
        }
    }

    pub(crate) fn into_sink(self) -> O
        ensures { result ≡ self.sink }
    {
        let Output { sink, held: _ } = self;
        sink
    }
}

/// Writes all that is held back.
fn write_held<O: Sink>(sink: &mut O, held: &mut HeldOutput) -> Result<(), Failed>
    ensures cause { HasCause (O.faults sink.old) (O.faults sink.new) result }
    ensures written { OnOk result (Gains (O.written sink.old) (O.written sink.new) held.old) }
    ensures part { OnErr result (GainsPart (O.written sink.old) (O.written sink.new) held.old) }
    ensures none { held.new ≡ [] }
{
    let answer = write_all(sink, held.bytes());
    held.clear();
    answer
}

impl<O: Sink> Output<O> {
    /// Writes all that is held back. Where that fails, what was not written is lost.
    pub(crate) fn hand_on(&mut self) -> Result<(), Failed>
        ensures cause { HasCause (O.faults self.old.sink) (O.faults self.new.sink) result }
        ensures added { OnOk result (Adds (written_of O.written self.old) (written_of O.written self.new) []) }
        ensures cut { OnErr result (Cuts (written_of O.written self.old) (written_of O.written self.new) []) }
        ensures none { self.new.held ≡ [] }
    {
        write_held(&mut self.sink, &mut self.held)
    }

    /// Writes a byte: it is held back, and all is written once there is no more room.
    pub(crate) fn put(&mut self, byte: u8) -> Result<(), Failed>
        ensures cause { HasCause (O.faults self.old.sink) (O.faults self.new.sink) result }
        ensures added { OnOk result
            (Adds (written_of O.written self.old) (written_of O.written self.new) (byte ∷ [])) }
        ensures cut { OnErr result
            (Cuts (written_of O.written self.old) (written_of O.written self.new) (byte ∷ [])) }
    {
        self.held.push(byte);
        if self.held.is_full() {
            return write_held(&mut self.sink, &mut self.held);
        }
        Ok(())
    }

    /// Writes these bytes.
    pub(crate) fn put_all(&mut self, bytes: &[u8]) -> Result<(), Failed>
        ensures cause { HasCause (O.faults self.old.sink) (O.faults self.new.sink) result }
        ensures added { OnOk result (Adds (written_of O.written self.old) (written_of O.written self.new) bytes.now) }
        ensures cut { OnErr result (Cuts (written_of O.written self.old) (written_of O.written self.new) bytes.now) }
    {
        for byte in bytes {
            self.put(*byte)?;
        }
        Ok(())
    }

    /// Writes the text at a place, of so many characters.
    fn put_text(&mut self, store: &Store, place: Pointer, len: u32) -> Result<(), Failed>
        requires ended { IsEnded store.now place }
        requires len { length (text_of store.now place) ≡ len }
        ensures cause { HasCause (O.faults self.old.sink) (O.faults self.new.sink) result }
        ensures added { OnOk result
            (Adds (written_of O.written self.old) (written_of O.written self.new) (text_of store.now place)) }
        ensures cut { OnErr result
            (Cuts (written_of O.written self.old) (written_of O.written self.new) (text_of store.now place)) }
    {
        for k in 0..len {
            self.put(known_character(store, place, k))?;
        }
        Ok(())
    }

    /// Writes the text at a place, of so many characters, and a newline.
    pub(crate) fn put_line(&mut self, store: &Store, place: Pointer, len: u32) -> Result<(), Failed>
        requires ended { IsEnded store.now place }
        requires len { length (text_of store.now place) ≡ len }
        ensures cause { HasCause (O.faults self.old.sink) (O.faults self.new.sink) result }
        ensures added { OnOk result (Adds (written_of O.written self.old) (written_of O.written self.new)
            (text_of store.now place ++ codes "\n")) }
        ensures cut { OnErr result (Cuts (written_of O.written self.old) (written_of O.written self.new)
            (text_of store.now place ++ codes "\n")) }
    {
        self.put_text(store, place, len)?;
        self.put(b'\n')
    }

    /// Writes these bytes, the text at a place and a newline, and all that is held back.
    pub(crate) fn put_message(
        &mut self,
        front: &[u8],
        store: &Store,
        place: Pointer,
        len: u32,
    ) -> Result<(), Failed>
        requires ended { IsEnded store.now place }
        requires len { length (text_of store.now place) ≡ len }
        ensures cause { HasCause (O.faults self.old.sink) (O.faults self.new.sink) result }
        ensures added { OnOk result (Adds (written_of O.written self.old) (written_of O.written self.new)
            (front.now ++ (text_of store.now place ++ codes "\n"))) }
        ensures cut { OnErr result (Cuts (written_of O.written self.old) (written_of O.written self.new)
            (front.now ++ (text_of store.now place ++ codes "\n"))) }
        ensures none { OnOk result (self.new.held ≡ []) }
    {
        self.put_all(front)?;
        self.put_line(store, place, len)?;
        self.hand_on()
    }

    /// Writes all that is held back, and these bytes.
    fn write_through(&mut self, bytes: &[u8]) -> Result<(), Failed>
        ensures cause { HasCause (O.faults self.old.sink) (O.faults self.new.sink) result }
        ensures added { OnOk result (Adds (written_of O.written self.old) (written_of O.written self.new) bytes.now) }
        ensures cut { OnErr result (Cuts (written_of O.written self.old) (written_of O.written self.new) bytes.now) }
        ensures none { self.new.held ≡ [] }
    {
        write_held(&mut self.sink, &mut self.held)?;
        write_all(&mut self.sink, bytes)
    }

    /// Writes all that is held back, and these bytes, and has the sink hand them on.
    pub(crate) fn write_out(&mut self, bytes: &[u8]) -> Result<(), Failed>
        ensures cause { HasCause (O.faults self.old.sink) (O.faults self.new.sink) result }
        ensures added { OnOk result (Adds (written_of O.written self.old) (written_of O.written self.new) bytes.now) }
        ensures cut { OnErr result (Cuts (written_of O.written self.old) (written_of O.written self.new) bytes.now) }
        ensures none { OnOk result (self.new.held ≡ []) }
    {
        match self.write_through(bytes) {
            Err(failed) => Err(failed),
            Ok(()) => self.flush(),
        }
    }

    /// Writes all that is held back, and has the sink hand it on.
    pub(crate) fn hand_out(&mut self) -> Result<(), Failed>
        ensures cause { HasCause (O.faults self.old.sink) (O.faults self.new.sink) result }
        ensures added { OnOk result (Adds (written_of O.written self.old) (written_of O.written self.new) []) }
        ensures cut { OnErr result (Cuts (written_of O.written self.old) (written_of O.written self.new) []) }
        ensures none { OnOk result (self.new.held ≡ []) }
    {
        self.write_out(&[])
    }

    /// Hands on what the sink holds back.
    fn flush(&mut self) -> Result<(), Failed>
        ensures cause { HasCause (O.faults self.old.sink) (O.faults self.new.sink) result }
        ensures written { O.written self.new.sink ≡ O.written self.old.sink }
        ensures held { self.new.held ≡ self.old.held }
    {
        self.sink.flush()
    }
}
