//! An object as the store holds it.
ghost use Rattle.std.specs.Prelude.{◌≡◌, ◌+◌, ◌≤◌, ◌<◌, true, false, Some, IfOk, length, map, replicate};
ghost use Rattle.object_store.specs.Object.{place_of};

use crate::cell::Cell;
use crate::cells::{copy_bytes, fill_byte, mark_cells, move_bytes, put_bytes};
use crate::class::Class;
use crate::mark::Mark;
use std::alloc::{AllocError, Global};
use std::marker::Model;

/// An object of the store's list.
#[derive(Drop)]
pub(crate) struct Slot {
    pub(crate) class: Class,
    pub(crate) live: bool,
    pub(crate) cells: Vec<Cell>,
}

impl Model for Slot {
    ghost use Rattle.object_store.specs.Object.{Object};

    ghost Value = { Object };

    ghost view = { λ slot. record { class = slot.class; live = slot.live; cells = slot.cells.items } };
}

impl Slot {
    ghost use Rattle.object_store.specs.Object.{Object, number_of};
    ghost use Rattle.object_store.specs.Messages.{message_object};
    ghost use Rattle.object_store.specs.Steps.{new_object, with_cells, range, stored_cell, mark_cell};

    /// A new object, whose bytes are indeterminate.
    pub(crate) fn new(alloc: Global, size: u32, class: Class) -> Result<Slot, AllocError>
        ensures { IfOk result (λ slot. slot ≡ new_object size class) }
    {
        let cells = vec![in alloc; Cell::plain(None); size as usize]?;
        Ok(Slot {
            class,
            live: true,
            cells,
        })
    }

    /// How many bytes the object has.
    pub(crate) fn size(&self) -> usize
        ensures { result ≡ length self.now.cells }
    {
        self.cells.len()
    }

    /// The number that the object has where it stands at this place of the list.
    pub(crate) fn number(&self, place: u32) -> u32
        requires { place < 2004194305 }
        ensures { result ≡ number_of self.now.class (place + 1) }
    {
        match self.class {
            Class::Static | Class::Automatic => 2 * (place + 1),
            Class::Allocated => 2 * (place + 1) + 1,
        }
    }

    /// Ends the lifetime.
    pub(crate) fn kill(&mut self)
        ensures { self.new ≡ record self.old { live = false } }
    {
        self.live = false;
    }

    /// Gives the cells of a range a mark.
    pub(crate) fn seal(&mut self, at: usize, len: usize, mark: Mark)
        requires { at + len ≤ length self.old.cells }
        ensures { self.new ≡ record self.old {
          cells
              = with_cells self.old.cells at (map (mark_cell mark) (range self.old.cells at len));
        } }
    {
        mark_cells(&mut self.cells, at, len, mark);
    }

    /// Stores the bytes from a place on.
    pub(crate) fn put(&mut self, at: usize, bytes: &[u8])
        requires { at + length bytes.now ≤ length self.old.cells }
        ensures { self.new ≡ record self.old {
          cells
              = with_cells self.old.cells at (map stored_cell (map Some bytes.now));
        } }
    {
        put_bytes(&mut self.cells, at, bytes);
    }

    /// Stores one byte in each cell of a range.
    pub(crate) fn fill(&mut self, at: usize, len: usize, byte: u8)
        requires { at + len ≤ length self.old.cells }
        ensures { self.new ≡ record self.old {
          cells
              = with_cells self.old.cells at (map stored_cell (replicate len (Some byte)));
        } }
    {
        fill_byte(&mut self.cells, at, len, byte);
    }

    /// Stores the bytes of other cells from a place on, with their indeterminacy.
    pub(crate) fn copy(&mut self, at: usize, source: &[Cell])
        requires { at + length source.now ≤ length self.old.cells }
        ensures { self.new ≡ record self.old {
          cells
              = with_cells self.old.cells at (map stored_cell (map (λ c. c.byte) source.now));
        } }
    {
        copy_bytes(&mut self.cells, at, source);
    }

    /// Moves the bytes of a range to another range of the object, with their indeterminacy.
    pub(crate) fn shift(&mut self, to: usize, from: usize, len: usize)
        requires to { to + len ≤ length self.old.cells }
        requires from { from + len ≤ length self.old.cells }
        ensures { self.new ≡ record self.old {
          cells
              = with_cells self.old.cells to (map stored_cell (map (λ c. c.byte) (range self.old.cells from len)));
        } }
    {
        move_bytes(&mut self.cells, to, from, len);
    }
}

/// Where in the list an object with this number stands.
pub(crate) fn index_of(object: u32) -> usize
    ensures { result ≡ place_of object }
{
    (object / 2).saturating_sub(1) as usize
}
