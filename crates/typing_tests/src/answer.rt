//! What a unit is answered with, and how a row of the table says it.

use critical_table::Pos;
use std::fmt;

/// What a unit is answered with.
#[derive(Drop)]
pub enum Answer {
    /// A type in words.
    Type(String),
    /// The type of an integer constant expression, and its value (6.6p6).
    Constant(String, i128),
    /// The type of an integer constant expression but for an undefined operation (6.6p4).
    Undefined(String),
    /// The number of the constraint that is broken, and where.
    Refused(u16, Pos),
    /// No tree, or none that is low enough.
    Unparsed(Pos),
    /// No tokens, or no declarations.
    Nothing,
}

impl fmt::Display for Answer {
    fn fmt<W: fmt::Write>(&self, f: &mut fmt::Formatter<W>) -> fmt::Result {
        match self {
            Answer::Type(words) => write!(f, "{words}"),
            Answer::Constant(words, value) => write!(f, "{words}: {value}"),
            Answer::Undefined(words) => write!(f, "{words}: undefined"),
            Answer::Refused(number, at) => {
                write!(f, "{number} at ")?;
                place(f, *at)
            }
            Answer::Unparsed(at) => {
                write!(f, "syntax at ")?;
                place(f, *at)
            }
            Answer::Nothing => write!(f, "nothing"),
        }
    }
}

// The row's text stands in the second line of its unit, and a place there is told by its column alone.
fn place<W: fmt::Write>(f: &mut fmt::Formatter<W>, at: Pos) -> fmt::Result {
    if at.line == 2 {
        write!(f, "{}", at.column)
    } else {
        write!(f, "{}:{}", at.line, at.column)
    }
}
