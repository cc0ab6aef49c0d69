//! The table as far as it was read.

use crate::answering::answer_of;
use crate::rows::{Kind, Line, line_of, unit_of};
use std::alloc::{AllocError, Global};
use std::process::ExitCode;

/// The table as far as it was read.
#[derive(Drop)]
pub struct Table {
    alloc: Global,
    /// The declarations before each of the rows that follow.
    given: String,
    kind: Kind,
    pub rows: u64,
    /// How many rows are answered otherwise.
    pub differences: u64,
}

impl Table {
    pub fn new(alloc: Global) -> Table {
        Table {
            alloc,
            given: String::new(alloc),
            kind: Kind::TypeName,
            rows: 0,
            differences: 0,
        }
    }

    /// The row of this line with its answer, where that is another than the row's own.
    pub fn difference_at(&mut self, line: &str) -> Result<Option<String>, AllocError> {
        match line_of(line) {
            Line::Row(text, expected) => self.row_difference(text, expected),
            Line::Kind(kind) => {
                self.kind = kind;
                Ok(None)
            }
            Line::Given(given) => {
                self.given = String::from_str(self.alloc, given)?;
                Ok(None)
            }
            Line::Comment => Ok(None),
        }
    }

    fn row_difference(&mut self, text: &str, expected: &str) -> Result<Option<String>, AllocError> {
        self.rows = self.rows.saturating_add(1);
        let answer = self.answer_at(text)?;
        if answer.as_str() == expected {
            return Ok(None);
        }
        self.differences = self.differences.saturating_add(1);
        let told = format!(in self.alloc; "{text} => {expected}, answered: {answer}")?;
        Ok(Some(told))
    }

    // The answer of a text behind what is given.
    fn answer_at(&self, text: &str) -> Result<String, AllocError> {
        let unit = unit_of(self.alloc, self.kind, self.given.as_str(), text)?;
        let answer = answer_of(self.alloc, unit.as_str())?;
        format!(in self.alloc; "{answer}")
    }

    /// Success where no row is answered otherwise.
    pub fn exit_code(&self) -> ExitCode {
        if self.differences == 0 {
            ExitCode::SUCCESS
        } else {
            ExitCode::FAILURE
        }
    }
}
