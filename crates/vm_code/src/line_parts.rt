//! The parts of a listing's lines.
ghost use Rattle.std.specs.Prelude.{◌≡◌, ℕ, ◌+◌, ◌<◌, ◌≤◌, List, [], ◌∷◌, ◌++◌, codes, length};
ghost use Rattle.vm_code.specs.Writing.{Told};
ghost use Rattle.vm_code.specs.Listing.{number_text, form_text, form_part, arg_part, parameter_part, seal_part};
ghost use Rattle.vm_code.specs.Listing.{unlike_const, hex_digit, byte_part, bytes_text, parts, is_whole_mark, is_whole};
ghost use Rattle.vm_code.specs.Listing.{members_text, mark_whole, marks_text};
ghost use Rattle.run_defs.specs.Lines.{mark_text};

use crate::instr_text::{push_decimal, push_kind, push_number};
use crate::parts::{CodeObject, Parameter};
use crate::sequence::Sequence;
use acc_io::{Failed, Sink, write_all};
use c_core::Form;
use critical_table::{Line, Name};
use lib_defs::ArgKind;
use object_store::Mark;
use run_defs::Seal;

/// What has a part in a line.
pub(crate) trait Part {
    /// Its text.
    ghost text: { Self → List ℕ };

    /// Sets an empty line to the text.
    fn push(&self, line: &mut Line)
        requires { line.old ≡ [] }
        ensures { line.new ≡ text self.now };
}

impl Part for Form {
    ghost text = { form_part };

    fn push(&self, line: &mut Line) {
        line.push(b" ");
        push_form(line, *self);
    }
}

fn push_form(line: &mut Line, form: Form)
    requires { length line.old + 7 ≤ 160 }
    ensures { line.new ≡ line.old ++ form_text form }
{
    match form {
        Form::Number(kind) => push_kind(line, kind),
        Form::Pointer => line.push(b"ptr"),
        Form::Place => line.push(b"place"),
        Form::Nothing => line.push(b"nothing"),
    }
}

impl Part for ArgKind {
    ghost text = { arg_part };

    fn push(&self, line: &mut Line) {
        line.push(b" ");
        match *self {
            ArgKind::Int => line.push(b"int"),
            ArgKind::UInt => line.push(b"uint"),
            ArgKind::Long => line.push(b"long"),
            ArgKind::ULong => line.push(b"ulong"),
            ArgKind::LongLong => line.push(b"longlong"),
            ArgKind::ULongLong => line.push(b"ulonglong"),
            ArgKind::CharPointer => line.push(b"charpointer"),
            ArgKind::OtherPointer => line.push(b"otherpointer"),
        }
    }
}

impl Part for Parameter {
    ghost text = { parameter_part };

    fn push(&self, line: &mut Line) {
        push_number(line, u64::from(self.size));
        line.push(b":");
        push_form(line, self.form);
    }
}

impl Part for Seal {
    ghost text = { seal_part };

    fn push(&self, line: &mut Line) {
        push_number(line, u64::from(self.at));
        line.push(b":");
        push_decimal(line, u64::from(self.len));
        push_unlike_const(line, self.mark);
    }
}

fn push_unlike_const(line: &mut Line, mark: Mark)
    requires { length line.old + 8 ≤ 160 }
    ensures { line.new ≡ line.old ++ unlike_const mark }
{
    match mark {
        Mark::Const => {}
        Mark::Plain => line.push(b":plain"),
        Mark::Literal => line.push(b":literal"),
        Mark::Clash => line.push(b":clash"),
    }
}

impl Part for u32 {
    ghost text = { number_text };

    fn push(&self, line: &mut Line) {
        push_number(line, u64::from(*self));
    }
}

impl Part for u8 {
    ghost text = { byte_part };

    fn push(&self, line: &mut Line) {
        line.push(&[digit(*self / 16), digit(*self % 16)]);
    }
}

/// The hexadecimal digit of a number below 16.
fn digit(number: u8) -> u8
    requires { number < 16 }
    ensures { result ≡ hex_digit number }
{
    if number < 10 {
        b'0' + number
    } else {
        b'a' - 10 + number
    }
}

/// Writes bytes as they are.
pub(crate) fn put<O: Sink>(out: &mut O, bytes: &[u8]) -> Result<(), Failed>
    ensures { Told (O.faults out.old) (O.faults out.new) (O.written out.old) (O.written out.new)
        (O.has_room out.old) (O.has_room out.new) result bytes.now }
{
    write_all(out, bytes)
}

/// Writes a number.
pub(crate) fn put_number<O: Sink>(out: &mut O, number: u64) -> Result<(), Failed>
    ensures { Told (O.faults out.old) (O.faults out.new) (O.written out.old) (O.written out.new)
        (O.has_room out.old) (O.has_room out.new) result (number_text number) }
{
    let mut line = Line::new();
    push_number(&mut line, number);
    put(out, line.bytes())
}

/// Writes parts in order.
fn put_parts<O: Sink, T: Part>(out: &mut O, items: &[T]) -> Result<(), Failed>
    ensures { Told (O.faults out.old) (O.faults out.new) (O.written out.old) (O.written out.new)
        (O.has_room out.old) (O.has_room out.new) result (parts T.text items.now) }
{
    let mut line = Line::new();
    let mut left = items;
    while let [item, rest @ ..] = left {
        line.clear();
        item.push(&mut line);
        put(out, line.bytes())?;
        left = rest;
    }
    Ok(())
}

/// Writes one part.
pub(crate) fn put_part<O: Sink, T: Part>(out: &mut O, item: &T) -> Result<(), Failed>
    ensures { Told (O.faults out.old) (O.faults out.new) (O.written out.old) (O.written out.new)
        (O.has_room out.old) (O.has_room out.new) result (T.text item.now) }
{
    let mut line = Line::new();
    item.push(&mut line);
    put(out, line.bytes())
}

/// Writes the parts of a list.
pub(crate) fn put_list<O: Sink, T: Part>(out: &mut O, items: &Sequence<T>) -> Result<(), Failed>
    ensures { Told (O.faults out.old) (O.faults out.new) (O.written out.old) (O.written out.new)
        (O.has_room out.old) (O.has_room out.new) result (parts T.text items.now) }
{
    put_parts(out, items.as_slice())
}

/// Writes how many elements a list has.
pub(crate) fn put_length<O: Sink, T>(out: &mut O, items: &Sequence<T>) -> Result<(), Failed>
    ensures { Told (O.faults out.old) (O.faults out.new) (O.written out.old) (O.written out.new)
        (O.has_room out.old) (O.has_room out.new) result (number_text (length items.now)) }
{
    put_number(out, items.as_slice().len() as u64)
}

/// Writes a name.
pub(crate) fn put_name<O: Sink>(out: &mut O, name: &Name) -> Result<(), Failed>
    ensures { Told (O.faults out.old) (O.faults out.new) (O.written out.old) (O.written out.new)
        (O.has_room out.old) (O.has_room out.new) result name.now }
{
    put(out, name.bytes())
}

/// Writes the contents of a static object or a text, where there are any.
pub(crate) fn put_bytes<O: Sink>(out: &mut O, bytes: &[u8]) -> Result<(), Failed>
    ensures { Told (O.faults out.old) (O.faults out.new) (O.written out.old) (O.written out.new)
        (O.has_room out.old) (O.has_room out.new) result (bytes_text bytes.now) }
{
    if bytes.is_empty() {
        return Ok(());
    }
    put(out, b" ")?;
    put_parts(out, bytes)
}

/// Writes the contents of a list of bytes.
pub(crate) fn put_contents<O: Sink>(out: &mut O, bytes: &Sequence<u8>) -> Result<(), Failed>
    ensures { Told (O.faults out.old) (O.faults out.new) (O.written out.old) (O.written out.new)
        (O.has_room out.old) (O.has_room out.new) result (bytes_text bytes.now) }
{
    put_bytes(out, bytes.as_slice())
}

/// Writes the marks of a static object.
pub(crate) fn put_object_marks<O: Sink>(out: &mut O, object: &CodeObject) -> Result<(), Failed>
    ensures { Told (O.faults out.old) (O.faults out.new) (O.written out.old) (O.written out.new)
        (O.has_room out.old) (O.has_room out.new) result (marks_text (length object.now.bytes) object.now.seals) }
{
    put_marks(
        out,
        object.bytes.as_slice().len() as u64,
        object.seals.as_slice(),
    )
}

/// Writes the marks of a static object of this size.
fn put_marks<O: Sink>(out: &mut O, size: u64, seals: &[Seal]) -> Result<(), Failed>
    ensures { Told (O.faults out.old) (O.faults out.new) (O.written out.old) (O.written out.new)
        (O.has_room out.old) (O.has_room out.new) result (marks_text size seals.now) }
{
    match seals {
        [] => put(out, b" plain"),
        [seal] => put_mark(out, size, seal),
        _ => put_members(out, seals),
    }
}

fn put_members<O: Sink>(out: &mut O, seals: &[Seal]) -> Result<(), Failed>
    ensures { Told (O.faults out.old) (O.faults out.new) (O.written out.old) (O.written out.new)
        (O.has_room out.old) (O.has_room out.new) result (members_text seals.now) }
{
    put(out, b" members")?;
    put_parts(out, seals)
}

fn put_mark<O: Sink>(out: &mut O, size: u64, seal: &Seal) -> Result<(), Failed>
    ensures { Told (O.faults out.old) (O.faults out.new) (O.written out.old) (O.written out.new)
        (O.has_room out.old) (O.has_room out.new) result (mark_whole size seal.now) }
{
    if !is_whole_seal(size, *seal) {
        return put_members(out, &[*seal]);
    }
    let mut line = Line::new();
    push_whole_mark(&mut line, seal.mark);
    put(out, line.bytes())
}

fn push_whole_mark(line: &mut Line, mark: Mark)
    requires { line.old ≡ [] }
    ensures { line.new ≡ codes " " ++ mark_text mark }
{
    match mark {
        Mark::Plain => line.push(b" plain"),
        Mark::Literal => line.push(b" literal"),
        Mark::Const => line.push(b" const"),
        Mark::Clash => line.push(b" clash"),
    }
}

/// Whether the seal is the one mark of an object of this size.
fn is_whole_seal(size: u64, seal: Seal) -> bool
    ensures { result ≡ is_whole size seal }
{
    seal.at == 0 && u64::from(seal.len) == size && matches!(seal.mark, Mark::Literal | Mark::Const)
}
