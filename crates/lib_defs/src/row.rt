//! The numbers of the library functions, and their names.
ghost use Rattle.std.specs.Prelude.{◌≡◌, Some, slice_get, IfSome};
ghost use Rattle.std.specs.Option.{option_map};
ghost use Rattle.lib_defs.specs.Names.{name_text};
ghost use Rattle.lib_defs.specs.RowNumbers.{IsRow, name_at, row_named};

use crate::row_name::{ROWS, RowName};

/// A library function by its number: its place among the names of `RowName`, from 0.
#[derive(Clone, Copy, Debug, PartialEq, Eq)]
pub struct Row(pub u16);

/// The library function with this name; `None` exactly where no library function has it.
pub fn row_of(name: &[u8]) -> Option<Row>
    ensures value { result ≡ row_named name.now }
    ensures row { IfSome result IsRow }
{
    let mut number = 0;
    let mut rows: &[RowName] = &ROWS;
    while let [row, rest @ ..] = rows {
        if row.text().as_bytes() == name {
            return Some(Row(number));
        }
        number += 1;
        rows = rest;
    }
    None
}

/// The name of a library function.
pub fn name_of(row: Row) -> &'static str
    requires { IsRow row }
    ensures { option_map name_text (name_at row) ≡ Some result.now }
{
    row.name().unwrap().text()
}

impl Row {
    /// The function with this number, where there is one.
    pub fn name(self) -> Option<RowName>
        ensures { result ≡ name_at self }
    {
        name_in(&ROWS, usize::from(self.0))
    }
}

fn name_in(names: &[RowName], index: usize) -> Option<RowName>
    ensures { result ≡ slice_get names.now index }
{
    names.get(index).copied()
}
