//! What is read and stored in ranges of the listed objects.
ghost use Rattle.std.specs.Prelude.{◌≡◌, ◌≢◌, ◌+◌, ◌<◌, ◌≤◌, [], Some, length, map, replicate, slice_get, slice_set};
ghost use Rattle.object_store.specs.Object.{Object, place_of};
ghost use Rattle.object_store.specs.Ranges.{IsLiveRange};
ghost use Rattle.object_store.specs.Steps.{range, cells_of, bytes_in, with_bytes, with_cells, stored_cell};

use crate::cell::Cell;
use crate::cells::copy_bytes;
use crate::pointer::Pointer;
use crate::slot::{Slot, index_of};
use std::alloc::Global;
use std::mem;

/// The cells of a range.
pub(crate) fn cells_at(slots: &Vec<Slot>, place: Pointer, len: u32) -> &[Cell]
    requires { IsLiveRange slots.now.items place len }
    ensures { result.now ≡ range (cells_of slots.now.items place.object) place.offset len }
{
    let at = place.offset as usize;
    let slot = &slots[index_of(place.object)];
    &slot.cells[at..at + len as usize]
}

/// Stores the bytes in a range.
pub(crate) fn put_at(slots: &mut Vec<Slot>, place: Pointer, bytes: &[u8])
    requires { IsLiveRange slots.old.items place (length bytes.now) }
    ensures { slots.new.items ≡ with_bytes slots.old.items place (map Some bytes.now) }
{
    let slot = &mut slots[index_of(place.object)];
    slot.put(place.offset as usize, bytes);
}

/// Stores one byte everywhere in a range.
pub(crate) fn fill_at(slots: &mut Vec<Slot>, place: Pointer, len: u32, byte: u8)
    requires { IsLiveRange slots.old.items place len }
    ensures { slots.new.items ≡ with_bytes slots.old.items place (replicate len (Some byte)) }
{
    let slot = &mut slots[index_of(place.object)];
    slot.fill(place.offset as usize, len as usize, byte);
}

/// Stores the bytes of one range in another.
pub(crate) fn copy_at(slots: &mut Vec<Slot>, alloc: Global, to: Pointer, from: Pointer, len: u32)
    requires to { IsLiveRange slots.old.items to len }
    requires from { IsLiveRange slots.old.items from len }
    ensures { slots.new.items ≡ with_bytes slots.old.items to (bytes_in slots.old.items from len) }
{
    if index_of(to.object) == index_of(from.object) {
        shift_at(slots, to, from, len);
    } else {
        copy_between(slots, alloc, to, from, len);
    }
}

fn shift_at(slots: &mut Vec<Slot>, to: Pointer, from: Pointer, len: u32)
    requires same { place_of to.object ≡ place_of from.object }
    requires to { IsLiveRange slots.old.items to len }
    requires from { IsLiveRange slots.old.items from len }
    ensures { slots.new.items ≡ with_bytes slots.old.items to (bytes_in slots.old.items from len) }
{
    let slot = &mut slots[index_of(to.object)];
    slot.shift(to.offset as usize, from.offset as usize, len as usize);
}

/// The cells of the object that is stored to are out of the list meanwhile.
fn copy_between(slots: &mut Vec<Slot>, alloc: Global, to: Pointer, from: Pointer, len: u32)
    requires other { place_of to.object ≢ place_of from.object }
    requires to { IsLiveRange slots.old.items to len }
    requires from { IsLiveRange slots.old.items from len }
    ensures { slots.new.items ≡ with_bytes slots.old.items to (bytes_in slots.old.items from len) }
{
    let index = index_of(to.object);
    let mut cells = take_cells(slots, alloc, index);
    copy_into(&mut cells, to.offset as usize, cells_at(slots, from, len));
    give_cells(slots, index, cells);
}

fn copy_into(cells: &mut Vec<Cell>, at: usize, source: &[Cell])
    requires { at + length source.now ≤ length cells.old.items }
    ensures { cells.new.items ≡ with_cells cells.old.items at (map stored_cell (map (λ c. c.byte) source.now)) }
{
    copy_bytes(cells, at, source);
}

fn take_cells(slots: &mut Vec<Slot>, alloc: Global, index: usize) -> Vec<Cell>
    requires { index < length slots.old.items }
    ensures { (o : Object) → slice_get slots.old.items index ≡ Some o
        → (result.items ≡ o.cells) × (slots.new.items ≡ slice_set slots.old.items index (record o { cells = [] })) }
{
    let slot = &mut slots[index];
    mem::replace(&mut slot.cells, Vec::new(alloc))
}

fn give_cells(slots: &mut Vec<Slot>, index: usize, cells: Vec<Cell>)
    requires { index < length slots.old.items }
    ensures { (o : Object) → slice_get slots.old.items index ≡ Some o
        → slots.new.items ≡ slice_set slots.old.items index (record o { cells = cells.items }) }
{
    let slot = &mut slots[index];
    slot.cells = cells;
}
