//! The listing of code.
ghost use Rattle.std.specs.Prelude.{◌≡◌, ℕ, ◌+◌, ◌<◌, ◌^◌, List, [], ◌∷◌, codes, length, OnOk, OnErr, IsOk};
ghost use Rattle.acc_io.specs.Cause.{HasCause};
ghost use Rattle.acc_io.specs.Bytes.{Gains, GainsPart};
ghost use Rattle.vm_code.specs.Writing.{Told};
ghost use Rattle.vm_code.specs.Listing.{lines, instr_line, function_line, object_line, text_line, called_line};
ghost use Rattle.vm_code.specs.Listing.{listing_text};

use crate::code::Code;
use crate::instr::Instr;
use crate::instr_text::{push_instr, push_number};
use crate::line_parts::{
    put, put_contents, put_length, put_list, put_name, put_number, put_object_marks, put_part,
};
use crate::parts::{CodeCalled, CodeFunction, CodeObject};
use crate::sequence::Sequence;
use crate::valid_code::ValidCode;
use acc_io::{Failed, Sink};
use critical_table::{Line, Pos};

/// Writes the listing of code: a line for each instruction, function, static object, text and called type, each with
/// its number.
///
/// `Failed` comes only where the sink's count of faults rose. Then a front of the listing is written.
pub fn listing<O: Sink>(code: &ValidCode, out: &mut O) -> Result<(), Failed>
    ensures cause { HasCause (O.faults out.old) (O.faults out.new) result }
    ensures written { OnOk result (Gains (O.written out.old) (O.written out.new) (listing_text code.now)) }
    ensures part { OnErr result (GainsPart (O.written out.old) (O.written out.new) (listing_text code.now)) }
    ensures room { (more : ℕ) → O.has_room out.old (length (listing_text code.now) + more)
        → IsOk result × O.has_room out.new more }
{
    code.code().list(out)
}

/// What has a line in a listing.
trait Listed {
    /// Its line, with its number.
    ghost line: { ℕ → Self → List ℕ };

    /// Writes the line.
    fn list<O: Sink>(&self, out: &mut O, number: u64) -> Result<(), Failed>
        ensures { Told (O.faults out.old) (O.faults out.new) (O.written out.old) (O.written out.new)
            (O.has_room out.old) (O.has_room out.new) result (line number self.now) };
}

impl Listed for (Instr, Pos) {
    ghost line = { instr_line };

    fn list<O: Sink>(&self, out: &mut O, number: u64) -> Result<(), Failed> {
        let mut line = Line::new();
        push_line(&mut line, number, *self);
        put(out, line.bytes())
    }
}

fn push_line(line: &mut Line, number: u64, instr: (Instr, Pos))
    requires { line.old ≡ [] }
    ensures { line.new ≡ instr_line number instr }
{
    line.push(b"i");
    push_number(line, number);
    line.push(b" ");
    push_instr(line, instr.0);
    line.push(b"\n");
}

impl Listed for CodeFunction {
    ghost line = { function_line };

    fn list<O: Sink>(&self, out: &mut O, number: u64) -> Result<(), Failed> {
        put(out, b"f")?;
        put_number(out, number)?;
        put(out, b" ")?;
        put_name(out, &self.name)?;
        put_number(out, self.start as u64)?;
        put_list(out, &self.parameters)?;
        put(out, b"\n")
    }
}

impl Listed for CodeObject {
    ghost line = { object_line };

    fn list<O: Sink>(&self, out: &mut O, number: u64) -> Result<(), Failed> {
        put(out, b"s")?;
        put_number(out, number)?;
        put_length(out, &self.bytes)?;
        put_object_marks(out, self)?;
        put_contents(out, &self.bytes)?;
        put(out, b"\n")
    }
}

impl Listed for Sequence<u8> {
    ghost line = { text_line };

    fn list<O: Sink>(&self, out: &mut O, number: u64) -> Result<(), Failed> {
        put(out, b"x")?;
        put_number(out, number)?;
        put_contents(out, self)?;
        put(out, b"\n")
    }
}

impl Listed for CodeCalled {
    ghost line = { called_line };

    fn list<O: Sink>(&self, out: &mut O, number: u64) -> Result<(), Failed> {
        put(out, b"t")?;
        put_number(out, number)?;
        put_part(out, &self.form)?;
        put_length(out, &self.arguments)?;
        put_list(out, &self.arguments)?;
        put_length(out, &self.kinds)?;
        put_list(out, &self.kinds)?;
        put_list(out, &self.functions)?;
        put(out, b"\n")
    }
}

fn list_all<O: Sink, T: Listed>(out: &mut O, first: u64, items: &[T]) -> Result<(), Failed>
    requires { first + length items.now < 2 ^ 64 }
    ensures { Told (O.faults out.old) (O.faults out.new) (O.written out.old) (O.written out.new)
        (O.has_room out.old) (O.has_room out.new) result (lines T.line first items.now) }
{
    let mut number = first;
    let mut left = items;
    while let [item, rest @ ..] = left {
        item.list(out, number)?;
        number += 1;
        left = rest;
    }
    Ok(())
}

impl Code {
    /// Writes the listing.
    pub(crate) fn list<O: Sink>(&self, out: &mut O) -> Result<(), Failed>
        ensures { Told (O.faults out.old) (O.faults out.new) (O.written out.old) (O.written out.new)
            (O.has_room out.old) (O.has_room out.new) result (listing_text self.now) }
    {
        put(out, b"code\n")?;
        list_all(out, 0, self.instr_list())?;
        list_all(out, 1, self.function_list())?;
        list_all(out, 0, self.object_list())?;
        list_all(out, 0, self.text_list())?;
        list_all(out, 0, self.called_list())
    }
}
