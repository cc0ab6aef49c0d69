//! The parts of a journal's lines, each appended to a line.
ghost use Rattle.std.specs.Prelude.{◌≡◌, ℕ, ◌+◌, ◌≤◌, ◌++◌, List, codes, length, decimal};
ghost use Rattle.std.specs.Fmt.{signed_decimal};
ghost use Rattle.std.specs.List.{All};
ghost use Rattle.critical_table.specs.Report.{place_text};
ghost use Rattle.lib_defs.specs.declared.shown.Shown.TheVariants.{Number};
ghost use Rattle.run_defs.specs.Functions.{row_name};
ghost use Rattle.run_defs.specs.Lines.{class_text, mark_text, by_text, value_text, values_text, pointer_text};
ghost use Rattle.run_defs.specs.Lines.{attempt_text, trap_text, end_text};
ghost use Rattle.run_defs.specs.Short.{IsShort};

use crate::attempt::Attempt;
use crate::outcome::End;
use critical_table::{Case, Line, Pos};
use itoa::Buffer;
use lib_defs::{Row, Shown};
use object_store::{By, Class, Mark, Pointer};

pub(crate) fn push_number(line: &mut Line, number: u32)
    requires { length line.old + 10 ≤ 160 }
    ensures text { line.new ≡ line.old ++ decimal number }
    ensures short { length line.new ≤ length line.old + 10 }
{
    let mut buffer = Buffer::new();
    line.push(buffer.format(number).as_bytes());
}

pub(crate) fn push_integer(line: &mut Line, number: i128)
    requires { length line.old + 40 ≤ 160 }
    ensures text { line.new ≡ line.old ++ signed_decimal number }
    ensures long { length line.new ≤ length line.old + 40 }
    ensures short { IsShort (Number number) → length line.new ≤ length line.old + 20 }
{
    let mut buffer = Buffer::new();
    line.push(buffer.format(number).as_bytes());
}

/// ` ` and a number.
pub(crate) fn push_next(line: &mut Line, number: u32)
    requires { length line.old + 11 ≤ 160 }
    ensures text { line.new ≡ line.old ++ (codes " " ++ decimal number) }
    ensures short { length line.new ≤ length line.old + 11 }
{
    line.push(b" ");
    push_number(line, number);
}

/// `LINE:COLUMN`
pub(crate) fn push_pos(line: &mut Line, pos: &Pos)
    requires { length line.old + 21 ≤ 160 }
    ensures text { line.new ≡ line.old ++ place_text pos.now }
    ensures short { length line.new ≤ length line.old + 21 }
{
    push_number(line, pos.line);
    line.push(b":");
    push_number(line, pos.column);
}

pub(crate) fn push_class(line: &mut Line, class: Class)
    requires { length line.old + 1 ≤ 160 }
    ensures text { line.new ≡ line.old ++ class_text class }
    ensures short { length line.new ≤ length line.old + 1 }
{
    line.push(match class {
        Class::Static => b"s",
        Class::Automatic => b"a",
        Class::Allocated => b"h",
    });
}

pub(crate) fn push_mark(line: &mut Line, mark: Mark)
    requires { length line.old + 7 ≤ 160 }
    ensures text { line.new ≡ line.old ++ mark_text mark }
    ensures short { length line.new ≤ length line.old + 7 }
{
    match mark {
        Mark::Plain => line.push(b"plain"),
        Mark::Literal => line.push(b"literal"),
        Mark::Const => line.push(b"const"),
        Mark::Clash => line.push(b"clash"),
    }
}

pub(crate) fn push_by(line: &mut Line, by: By)
    requires { length line.old + 10 ≤ 160 }
    ensures text { line.new ≡ line.old ++ by_text by }
    ensures short { length line.new ≤ length line.old + 10 }
{
    match by {
        By::Star => line.push(b"star"),
        By::Arrow => line.push(b"arrow"),
        By::Store => line.push(b"store"),
        By::TextRead => line.push(b"textread"),
        By::TextWrite => line.push(b"textwrite"),
        By::OtherRead => line.push(b"otherread"),
        By::OtherWrite => line.push(b"otherwrite"),
    }
}

/// The name of a library function: at most 24 bytes.
pub(crate) fn push_row(line: &mut Line, row: Row)
    requires { length line.old + 24 ≤ 160 }
    ensures text { line.new ≡ line.old ++ row_name row }
    ensures short { length line.new ≤ length line.old + 24 }
{
    if let Some(name) = row.name() {
        line.push(name.text().as_bytes());
    }
}

pub(crate) fn push_value(line: &mut Line, value: &Shown)
    requires { length line.old + 64 ≤ 160 }
    ensures text { line.new ≡ line.old ++ value_text value.now }
    ensures long { length line.new ≤ length line.old + 64 }
    ensures short { IsShort value.now → length line.new ≤ length line.old + 21 }
{
    match value {
        Shown::Number(number) => push_integer(line, *number),
        Shown::Function(name) => line.push(name.bytes()),
        Shown::Place { object, offset } => {
            push_number(line, *object);
            line.push(b":");
            push_number(line, *offset);
        }
        Shown::NoValue => line.push(b"-"),
    }
}

/// Values, at most four, each behind a space.
pub(crate) fn push_values(line: &mut Line, values: &[Shown])
    requires few { length values.now ≤ 4 }
    requires short { All IsShort values.now }
    requires room { length line.old ≤ 28 }
    ensures text { line.new ≡ line.old ++ values_text values.now }
    ensures short { length line.new ≤ 116 }
{
    let mut values = values;
    while let [value, rest @ ..] = values {
        line.push(b" ");
        push_value(line, value);
        values = rest;
    }
}

/// ` pointer OBJECT OFFSET LOW HIGH`
fn push_pointer(line: &mut Line, pointer: &Pointer)
    requires { length line.old + 52 ≤ 160 }
    ensures text { line.new ≡ line.old ++ (codes " pointer " ++ pointer_text pointer.now) }
    ensures short { length line.new ≤ length line.old + 52 }
{
    line.push(b" pointer ");
    push_number(line, pointer.object);
    push_next(line, pointer.offset);
    push_next(line, pointer.low);
    push_next(line, pointer.high);
}

pub(crate) fn push_attempt(line: &mut Line, attempt: &Attempt)
    requires { length line.old + 99 ≤ 160 }
    ensures text { line.new ≡ line.old ++ attempt_text attempt.now }
    ensures short { length line.new ≤ length line.old + 99 }
{
    push_pointer(line, &attempt.place);
    line.push(b" size ");
    push_number(line, attempt.len);
    line.push(b" align ");
    push_number(line, attempt.align);
    line.push(b" by ");
    push_by(line, attempt.by);
}

/// `trap CASE at LINE:COLUMN`
pub(crate) fn push_trap(line: &mut Line, case: Case, pos: &Pos)
    requires { length line.old + 40 ≤ 160 }
    ensures text { line.new ≡ line.old ++ trap_text case pos.now }
    ensures short { length line.new ≤ length line.old + 40 }
{
    line.push(b"trap ");
    push_number(line, u32::from(case.number()));
    line.push(b" at ");
    push_pos(line, pos);
}

pub(crate) fn push_end(line: &mut Line, end: End)
    requires { length line.old + 24 ≤ 160 }
    ensures text { line.new ≡ line.old ++ end_text end }
    ensures short { length line.new ≤ length line.old + 24 }
{
    match end {
        End::Exited(status) => {
            line.push(b"exited ");
            push_number(line, u32::from(status));
        }
        End::Aborted => line.push(b"aborted"),
        End::Trapped(case) => {
            line.push(b"trapped ");
            push_number(line, u32::from(case.number()));
        }
        End::Undefined(code) => {
            line.push(b"undefined ");
            line.push(code.name().as_bytes());
        }
        End::OutOfTicks => line.push(b"out of ticks"),
        End::OutOfBytes => line.push(b"out of bytes"),
        End::ReadFault => line.push(b"input failed"),
    }
}
