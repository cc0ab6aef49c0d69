//! The status and the line by which an end is reported.

ghost use Rattle.std.specs.Prelude.{◌≡◌, ◌+◌, ◌≤◌, [], ◌++◌, codes, length};
ghost use Rattle.critical_table.specs.declared.ended.Ended.TheVariants.{Trapped, Undefined, Refused};
ghost use Rattle.critical_table.specs.declared.refusal.Refusal.TheVariants.{Constraint};
ghost use Rattle.critical_table.specs.Report.{status_of as the_status, report_of, place_text, reason_text};

use crate::case::Case;
use crate::code::Code;
use crate::ended::Ended;
use crate::line::Line;
use crate::number::push_number;
use crate::pos::Pos;
use crate::refusal::Refusal;

/// The status with which the process ends.
pub fn status_of(ended: &Ended) -> u8
    ensures { result ≡ the_status ended.now }
{
    match ended {
        Ended::Exited(status) => *status,
        Ended::Aborted => 134,
        Ended::Trapped(case, _) => 120 + case.number(),
        Ended::Undefined(_, _) => 140,
        Ended::OutOfTicks => 150,
        Ended::OutOfBytes => 155,
        Ended::ReadFault => 152,
        Ended::WriteFault => 153,
        Ended::ShelfFault => 154,
        Ended::Refused(_, _) => 160,
        Ended::Usage => 161,
        Ended::Printed => 0,
        Ended::Memory => 151,
    }
}

/// Sets the line to what is told on the error output, with its newline, or to nothing, whatever was in it.
#[tactic(auto, unfolding(crate::specs::Report::report_of))]
pub fn report_line(ended: &Ended, line: &mut Line)
    ensures text { line.new ≡ report_of ended.now }
    ensures short { length line.new ≤ 160 }
{
    line.clear();
    match ended {
        Ended::Exited(_) | Ended::WriteFault | Ended::Printed => {}
        Ended::Aborted => line.push(b"acc: aborted\n"),
        Ended::Trapped(case, pos) => push_trap(line, *case, pos),
        Ended::Undefined(code, pos) => push_stop(line, *code, pos),
        Ended::OutOfTicks => line.push(b"acc: out of ticks\n"),
        Ended::OutOfBytes => line.push(b"acc: out of bytes\n"),
        Ended::ReadFault => line.push(b"acc: input failed\n"),
        Ended::ShelfFault => line.push(b"acc: file not read\n"),
        Ended::Refused(refusal, pos) => push_refusal(line, refusal, pos),
        Ended::Usage => line.push(
            b"usage: acc run FILE, check FILE, trace FILE, work N, table; --ticks N, --bytes N\n",
        ),
        Ended::Memory => line.push(b"acc: out of memory\n"),
    }
}

#[tactic(auto, unfolding(crate::specs::Report::report_of))]
fn push_trap(line: &mut Line, case: Case, pos: &Pos)
    requires { line.old ≡ [] }
    ensures text { line.new ≡ report_of (Trapped case pos.now) }
    ensures short { length line.new ≤ 160 }
{
    line.push(b"acc: L.3 case ");
    push_number(line, u32::from(case.number()));
    push_place(line, pos);
    line.push(case.text().as_bytes());
    line.push(b"\n");
}

#[tactic(auto, unfolding(crate::specs::Report::report_of))]
fn push_stop(line: &mut Line, code: Code, pos: &Pos)
    requires { line.old ≡ [] }
    ensures text { line.new ≡ report_of (Undefined code pos.now) }
    ensures short { length line.new ≤ 160 }
{
    line.push(b"acc: undefined ");
    line.push(code.name().as_bytes());
    push_place(line, pos);
    line.push(code.text().as_bytes());
    line.push(b"\n");
}

#[tactic(auto, unfolding(crate::specs::Report::report_of))]
fn push_refusal(line: &mut Line, refusal: &Refusal, pos: &Pos)
    requires { line.old ≡ [] }
    ensures text { line.new ≡ report_of (Refused refusal.now pos.now) }
    ensures short { length line.new ≤ 160 }
{
    line.push(b"acc: refused");
    push_place(line, pos);
    push_reason(line, refusal);
    line.push(b"\n");
}

fn push_reason(line: &mut Line, refusal: &Refusal)
    requires { length line.old ≤ 130 }
    ensures text { line.new ≡ line.old ++ reason_text refusal.now }
    ensures short { length line.new ≤ length line.old + 21 }
{
    match refusal {
        Refusal::Size => line.push(b"Size"),
        Refusal::Char => line.push(b"Char"),
        Refusal::Unclosed => line.push(b"Unclosed"),
        Refusal::Literal => line.push(b"Literal"),
        Refusal::Directive => line.push(b"Directive"),
        Refusal::Profile => line.push(b"Profile"),
        Refusal::Syntax => line.push(b"Syntax"),
        Refusal::Deep => line.push(b"Deep"),
        Refusal::Constraint(rule) => push_rule(line, *rule),
    }
}

fn push_rule(line: &mut Line, rule: u16)
    requires { length line.old ≤ 130 }
    ensures text { line.new ≡ line.old ++ reason_text (Constraint rule) }
    ensures short { length line.new ≤ length line.old + 21 }
{
    line.push(b"Constraint ");
    push_number(line, u32::from(rule));
}

/// ` at LINE:COLUMN: `
fn push_place(line: &mut Line, pos: &Pos)
    requires { length line.old ≤ 130 }
    ensures text { line.new ≡ line.old ++ codes " at " ++ place_text pos.now ++ codes ": " }
    ensures short { length line.new ≤ length line.old + 27 }
{
    line.push(b" at ");
    push_number(line, pos.line);
    line.push(b":");
    push_number(line, pos.column);
    line.push(b": ");
}
