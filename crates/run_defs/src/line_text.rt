//! The line of an event.
ghost use Rattle.std.specs.Prelude.{◌≡◌, ℕ, ◌+◌, ◌≤◌, [], ◌++◌, codes, length};
ghost use Rattle.run_defs.specs.Lines.{event_text, event_line as the_line};

use crate::attempt::Attempt;
use crate::event::Event;
use crate::parts::{
    push_attempt, push_class, push_end, push_mark, push_next, push_number, push_pos, push_row,
    push_trap, push_value, push_values,
};
use crate::seal::Seal;
use critical_table::{Case, Code, Line, Pos};
use lib_defs::{Row, Shown};
use object_store::{Class, Write};

/// Sets the line to the line of the event, with its newline, whatever was in it.
pub fn event_line(event: &Event, line: &mut Line)
    ensures text { line.new ≡ the_line event.now }
    ensures short { length line.new ≤ 160 }
{
    line.clear();
    push_event(line, event);
    line.push(b"\n");
}

#[tactic(auto, unfolding(crate::specs::Lines::event_text))]
fn push_event(line: &mut Line, event: &Event)
    requires { line.old ≡ [] }
    ensures text { line.new ≡ event_text event.now }
    ensures short { length line.new ≤ 140 }
{
    match event {
        Event::Made {
            object,
            size,
            class,
        } => {
            line.push(b"made ");
            push_number(line, *object);
            push_next(line, *size);
            line.push(b" ");
            push_class(line, *class);
        }
        Event::Sealed { object, seal } => {
            line.push(b"seal ");
            push_number(line, *object);
            push_next(line, seal.at);
            push_next(line, seal.len);
            line.push(b" ");
            push_mark(line, seal.mark);
        }
        Event::Stored(write) => {
            line.push(b"store ");
            push_number(line, write.object);
            push_next(line, write.at);
            push_next(line, write.len);
        }
        Event::Died { object } => {
            line.push(b"dead ");
            push_number(line, *object);
        }
        Event::Called { row, values } => {
            line.push(b"lib ");
            push_row(line, *row);
            push_values(line, values.as_slice());
        }
        Event::Returned { row, value } => {
            line.push(b"ret ");
            push_row(line, *row);
            line.push(b" ");
            push_value(line, value);
        }
        Event::HandlerSet(name) => {
            line.push(b"set ");
            line.push(name.bytes());
        }
        Event::Violated { row, constraint } => {
            line.push(b"violated ");
            push_row(line, *row);
            push_next(line, u32::from(*constraint));
        }
        Event::HandlerCalled(name) => {
            line.push(b"handler ");
            line.push(name.bytes());
        }
        Event::HandlerReturned => line.push(b"handled"),
        Event::ReachFailed { case, pos, attempt } => {
            push_trap(line, *case, pos);
            push_attempt(line, attempt);
        }
        Event::ValueFailed { case, pos, value } => {
            push_trap(line, *case, pos);
            line.push(b" function ");
            push_value(line, value);
        }
        Event::ArgumentFailed { pos, argument } => {
            line.push(b"trap 9 at ");
            push_pos(line, pos);
            line.push(b" argument ");
            push_number(line, *argument);
        }
        Event::Stopped { code, pos } => {
            line.push(b"stop ");
            line.push(code.name().as_bytes());
            line.push(b" at ");
            push_pos(line, pos);
        }
        Event::Ended(end) => {
            line.push(b"end ");
            push_end(line, *end);
        }
    }
}
