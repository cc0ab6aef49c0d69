//! Stores to ranges of cells.
ghost use Rattle.std.specs.Prelude.{◌≡◌, ◌+◌, ◌≤◌, ◌<◌, Some, length, map, replicate};
ghost use Rattle.object_store.specs.Steps.{with_cells, range, stored_cell, mark_cell};

use crate::cell::Cell;
use crate::mark::Mark;

/// Stores the bytes from a place on.
pub(crate) fn put_bytes(cells: &mut [Cell], at: usize, bytes: &[u8])
    requires { at + length bytes.now ≤ length cells.old }
    ensures { cells.new ≡ with_cells cells.old at (map stored_cell (map Some bytes.now)) }
{
    for i in 0..bytes.len() {
        cells[at + i] = Cell::plain(Some(bytes[i]));
    }
}

/// Stores one byte in each cell of a range.
pub(crate) fn fill_byte(cells: &mut [Cell], at: usize, len: usize, byte: u8)
    requires { at + len ≤ length cells.old }
    ensures { cells.new ≡ with_cells cells.old at (map stored_cell (replicate len (Some byte))) }
{
    for i in 0..len {
        cells[at + i] = Cell::plain(Some(byte));
    }
}

/// Gives the cells of a range a mark.
pub(crate) fn mark_cells(cells: &mut [Cell], at: usize, len: usize, mark: Mark)
    requires { at + len ≤ length cells.old }
    ensures { cells.new ≡ with_cells cells.old at (map (mark_cell mark) (range cells.old at len)) }
{
    for i in 0..len {
        let cell = &mut cells[at + i];
        cell.mark = mark;
    }
}

/// Stores the bytes of other cells from a place on, with their indeterminacy.
pub(crate) fn copy_bytes(cells: &mut [Cell], at: usize, source: &[Cell])
    requires { at + length source.now ≤ length cells.old }
    ensures { cells.new ≡ with_cells cells.old at (map stored_cell (map (λ c. c.byte) source.now)) }
{
    for i in 0..source.len() {
        cells[at + i] = Cell::plain(source[i].byte);
    }
}

/// Moves the bytes of a range to another range of the same cells, with their indeterminacy.
pub(crate) fn move_bytes(cells: &mut [Cell], to: usize, from: usize, len: usize)
    requires to { to + len ≤ length cells.old }
    requires from { from + len ≤ length cells.old }
    ensures { cells.new
        ≡ with_cells cells.old to (map stored_cell (map (λ c. c.byte) (range cells.old from len))) }
{
    if to <= from {
        move_down(cells, to, from, len);
    } else {
        move_up(cells, to, from, len);
    }
}

/// The lowest byte is moved first, so that none is stored over before it is moved.
fn move_down(cells: &mut [Cell], to: usize, from: usize, len: usize)
    requires order { to ≤ from }
    requires from { from + len ≤ length cells.old }
    ensures { cells.new
        ≡ with_cells cells.old to (map stored_cell (map (λ c. c.byte) (range cells.old from len))) }
{
    for i in 0..len {
        cells[to + i] = Cell::plain(cells[from + i].byte);
    }
}

/// The highest byte is moved first, so that none is stored over before it is moved.
fn move_up(cells: &mut [Cell], to: usize, from: usize, len: usize)
    requires order { from ≤ to }
    requires to { to + len ≤ length cells.old }
    ensures { cells.new
        ≡ with_cells cells.old to (map stored_cell (map (λ c. c.byte) (range cells.old from len))) }
{
    let mut left = len;
    while left > 0 {
        left -= 1;
        cells[to + left] = Cell::plain(cells[from + left].byte);
    }
}
