//! The bytes of a range, lent by the store.
ghost use Rattle.std.specs.Prelude.{◌≡◌, ◌+◌, ◌<◌, ◌≤◌};
ghost use Rattle.std.specs.Prelude.{Some, length, position, slice_get, take, drop};
ghost use Rattle.object_store.specs.Steps.{is_null, is_text_end};

use crate::cell::Cell;
use std::marker::Model;

/// The bytes of a range that was reached, as they stand in the store. Contracts see the list of them, with `None` for
/// each indeterminate one.
#[derive(Drop)]
pub struct View<'a> {
    pub(crate) cells: &'a [Cell],
}

impl<'a> Model for View<'a> {
    ghost use Rattle.std.specs.Prelude.{ℕ, List, Option, map};

    ghost Value = { List (Option ℕ) };

    ghost view = { λ view. map (λ c. c.byte) view.cells.now };
}

impl<'a> View<'a> {
    ghost use Rattle.std.specs.Prelude.{map};

    pub(crate) fn new(cells: &'a [Cell]) -> View<'a>
        ensures { result ≡ map (λ c. c.byte) cells.now }
    {
        View { cells }
    }

    /// How many bytes the range has.
    pub fn len(&self) -> usize
        ensures { result ≡ length self.now }
    {
        self.cells.len()
    }

    /// The byte at the index, or `None` where it is indeterminate.
    pub fn byte(&self, index: usize) -> Option<u8>
        requires { index < length self.now }
        ensures { slice_get self.now index ≡ Some result }
    {
        let cells = self.cells;
        cells[index].byte
    }

    /// A part of the bytes, from an index on.
    pub fn part(&self, at: usize, len: usize) -> View<'_>
        requires { at + len ≤ length self.now }
        ensures { result ≡ take len (drop at self.now) }
    {
        View::new(&self.cells[at..at + len])
    }

    /// The index of the first byte that is 0, and not indeterminate; `None` where there is none.
    pub fn zero(&self) -> Option<usize>
        ensures { result ≡ position is_null self.now }
    {
        first_null(self.cells)
    }

    /// The index of the first byte that is 0 or indeterminate: there a text ends, or can't be read on. `None` where
    /// there is none.
    pub fn text_end(&self) -> Option<usize>
        ensures { result ≡ position is_text_end self.now }
    {
        first_text_end(self.cells)
    }
}

/// The index of the first of these cells that is 0.
fn first_null(cells: &[Cell]) -> Option<usize>
    ensures { result ≡ position (λ c. is_null c.byte) cells.now }
{
    cells.iter().position(|c| matches!(c.byte, Some(0)))
}

/// The index of the first of these cells that is 0 or indeterminate.
fn first_text_end(cells: &[Cell]) -> Option<usize>
    ensures { result ≡ position (λ c. is_text_end c.byte) cells.now }
{
    cells.iter().position(|c| matches!(c.byte, None | Some(0)))
}
