//! The table of cases and codes, line by line.

ghost use Rattle.std.specs.Prelude.{◌≡◌, ◌+◌, ◌<◌, ◌≤◌, [], Some, length, slice_get};
ghost use Rattle.critical_table.specs.Table.{table_lines, case_line, code_line};

use crate::case::Case;
use crate::code::Code;
use crate::line::Line;
use crate::number::push_number;

/// Sets the line to the line of the table at the index, from 0 to 23, whatever was in it: the cases, then the codes.
pub fn table_line(index: u8, line: &mut Line)
    requires { index < 24 }
    ensures text { slice_get table_lines index ≡ Some line.new }
    ensures short { length line.new ≤ 160 }
{
    line.clear();
    if index < 12 {
        push_case(line, case_at(index));
    } else {
        push_code(line, code_at(index - 12));
    }
}

/// `L.3 N SECTION TEXT`
#[tactic(auto, unfolding(crate::specs::Table::case_line))]
fn push_case(line: &mut Line, case: Case)
    requires { line.old ≡ [] }
    ensures text { line.new ≡ case_line case }
    ensures short { length line.new ≤ 160 }
{
    line.push(b"L.3 ");
    push_number(line, u32::from(case.number()));
    line.push(b" ");
    line.push(case.section().as_bytes());
    line.push(b" ");
    line.push(case.text().as_bytes());
    line.push(b"\n");
}

/// `UNN TEXT`
#[tactic(auto, unfolding(crate::specs::Table::code_line))]
fn push_code(line: &mut Line, code: Code)
    requires { line.old ≡ [] }
    ensures text { line.new ≡ code_line code }
    ensures short { length line.new ≤ 160 }
{
    line.push(code.name().as_bytes());
    line.push(b" ");
    line.push(code.text().as_bytes());
    line.push(b"\n");
}

/// The case of the line at the index.
#[tactic(auto, unfolding(crate::specs::Table::table_lines))]
fn case_at(index: u8) -> Case
    requires { index < 12 }
    ensures { slice_get table_lines index ≡ Some (case_line result) }
{
    match index {
        0 => Case::L1,
        1 => Case::L2,
        2 => Case::L3,
        3 => Case::L4,
        4 => Case::L5,
        5 => Case::L6,
        6 => Case::L7,
        7 => Case::L8,
        8 => Case::L9,
        9 => Case::L10,
        10 => Case::L11,
        _ => Case::L12,
    }
}

/// The code of the line that stands so far behind the cases.
#[tactic(auto, unfolding(crate::specs::Table::table_lines))]
fn code_at(index: u8) -> Code
    requires { index < 12 }
    ensures { slice_get table_lines (index + 12) ≡ Some (code_line result) }
{
    match index {
        0 => Code::U01,
        1 => Code::U02,
        2 => Code::U03,
        3 => Code::U04,
        4 => Code::U05,
        5 => Code::U06,
        6 => Code::U07,
        7 => Code::U08,
        8 => Code::U09,
        9 => Code::U10,
        10 => Code::U11,
        _ => Code::U12,
    }
}
