//! A line of the table: a row, what is given before each row that follows, or of what kind they are.

use std::alloc::{AllocError, Global};

/// What the text of a row is.
#[derive(Clone, Copy, Debug, PartialEq, Eq)]
pub enum Kind {
    TypeName,
    Expression,
    Declaration,
}

/// A line, by what it begins with and what stands in it.
#[derive(Clone, Copy)]
pub enum Line<'a> {
    /// A text, and the answer that it has to have.
    Row(&'a str, &'a str),
    /// Of what kind the rows are that follow.
    Kind(Kind),
    /// The declarations before each of the rows that follow.
    Given(&'a str),
    Comment,
}

/// What a line is.
pub fn line_of(line: &str) -> Line<'_> {
    if let Some(word) = line.strip_prefix("@") {
        return directive_of(word);
    }
    match line.split_once(" => ") {
        Some((text, expected)) => Line::Row(text, expected),
        None => Line::Comment,
    }
}

fn directive_of(word: &str) -> Line<'_> {
    match word {
        "types" => Line::Kind(Kind::TypeName),
        "expressions" => Line::Kind(Kind::Expression),
        "declarations" => Line::Kind(Kind::Declaration),
        given => Line::Given(given),
    }
}

/// A unit of what is given in its first line, and the text in its second.
pub fn unit_of(alloc: Global, kind: Kind, given: &str, text: &str) -> Result<String, AllocError> {
    match kind {
        Kind::TypeName => format!(in alloc; "{given} _Static_assert(sizeof(\n{text}\n), \"\");"),
        Kind::Expression => format!(in alloc; "{given} _Static_assert((\n{text}\n), \"\");"),
        Kind::Declaration => format!(in alloc; "{given}\n{text}\n"),
    }
}
