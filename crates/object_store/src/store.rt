//! The store: the objects of a run, within a budget of bytes.
ghost use Rattle.std.specs.Prelude.{◌≡◌, ◌+◌, ◌-◌, ◌*◌, ◌<◌, ◌≤◌, ◌↔◌, [], Some, None, IfOk, IfSome, IsErr, IsErrOf};
ghost use Rattle.std.specs.Prelude.{OnOk, OnErr, IsTrue, option_copied, length, map, replicate};

use crate::by::By;
use crate::class::Class;
use crate::fault::{MakeFault, OverBytes};
use crate::integers::write_integer;
use crate::mark::Mark;
use crate::messages::messages;
use crate::pointer::Pointer;
use crate::ranges::{cells_at, copy_at, fill_at, put_at};
use crate::slot::{Slot, index_of};
use crate::view::View;
use crate::writes::{Write, Writes};
use acc_num::{IntKind, bytes};
use critical_table::Case;
use std::alloc::{AllocError, Global};
use std::marker::Model;
use std::mem;

/// The objects of a run, within a budget of bytes. Contracts see all objects that were ever made, in order, with their
/// cells, the budget, the number of open calls, and the stores since they were last taken. No object has more than
/// 16,777,216 bytes.
#[derive(Drop)]
pub struct Store {
    alloc: Global,
    slots: Vec<Slot>,
    budget: u64,
    live: u64,
    open_calls: u64,
    writes: Writes,
}

impl Model for Store {
    ghost use Rattle.object_store.specs.Storage.{Storage, IsConsistent};

    ghost Value = { Storage };

    ghost view = { λ store. record {
      objects = store.slots.items;
      budget = store.budget;
      open_calls = store.open_calls;
      writes = store.writes;
    } };

    ghost invariant = { λ store. IsConsistent store.slots.items store.budget store.live store.open_calls };
}

impl Store {
    ghost use Rattle.object_store.specs.Object.{number_of, place_of, object_of};
    ghost use Rattle.object_store.specs.Storage.{is_live, live_bytes, fits, largest_size};
    ghost use Rattle.object_store.specs.Reach.{Tells, reach, stores, IsReached, IsReachedToStore};
    ghost use Rattle.acc_num.specs.Kinds.{bytes_of};
    ghost use Rattle.acc_num.specs.Numbers.{InRange};
    ghost use Rattle.object_store.specs.Load.{integer_bytes, pointer_bytes};
    ghost use Rattle.object_store.specs.Changes.{ChangesOnly, SameReach};
    ghost use Rattle.object_store.specs.Messages.{fresh_store};
    ghost use Rattle.object_store.specs.Steps.{next_number, new_object, with_new, with_dead, with_mark};
    ghost use Rattle.object_store.specs.Steps.{with_call, without_call, cells_of, bytes_at, with_store};

    /// A store with this budget of bytes, that holds the message object alone.
    pub fn new(alloc: Global, bytes: u64) -> Result<Store, AllocError>
        ensures { IfOk result (λ store. store ≡ fresh_store bytes) }
    {
        let mut slots = Vec::new(alloc);
        slots.push(messages(alloc)?)?;
        Ok(Store {
            alloc,
            slots,
            budget: bytes,
            live: 0,
            open_calls: 0,
            writes: Writes::new(),
        })
    }

    /// Makes an object of 1 to 16,777,216 bytes and answers its number. Its bytes are indeterminate (6.2.4p6, 7.22.3.4)
    /// and may be stored to.
    ///
    /// `OverBytes` comes exactly where the live bytes and the size pass the budget, and `Memory` where there was none.
    /// After a fault the store is as before.
    #[tactic(auto, using(crate::proofs::Found::new_found), unfolding(crate::specs::Storage::live_bytes))]
    pub fn make(&mut self, size: u32, class: Class) -> Result<u32, MakeFault>
        requires size { (0 < size) × (size ≤ largest_size) }
        requires few { length self.old.objects < 2004194305 }
        ensures made { OnOk result (self.new ≡ with_new self.old size class) }
        ensures number { IfOk result (λ number. number ≡ next_number self.old class) }
        ensures found { IfOk result (λ number. object_of self.new.objects number ≡ Some (new_object size class)) }
        ensures over { IsErrOf result MakeFault.OverBytes ↔ (self.old.budget < live_bytes self.old + size) }
        ensures fault { OnErr result (self.new ≡ self.old) }
    {
        if !self.fits(0, u64::from(size)) {
            return Err(MakeFault::OverBytes);
        }
        let slot = Slot::new(self.alloc, size, class).map_err(MakeFault::Memory)?;
        let number = slot.number(self.slots.len() as u32);
        self.slots
            .push(slot)
            .map_err(|_| MakeFault::Memory(AllocError))?;
        self.live += u64::from(size);
        Ok(number)
    }

    /// Ends the lifetime of a live object (6.2.4p2).
    #[tactic(auto, unfolding(crate::specs::Storage::live_bytes))]
    pub fn kill(&mut self, object: u32)
        requires { IsTrue (is_live self.old object) }
        ensures { self.new ≡ with_dead self.old object }
    {
        let index = index_of(object);
        let slot = &mut self.slots[index];
        slot.kill();
        if index > 0 {
            let size = slot.size() as u64;
            self.live -= size;
        }
    }

    /// Gives the bytes of a range of a live object a mark, which stops stores to them.
    pub fn seal(&mut self, object: u32, at: u32, len: u32, mark: Mark)
        requires live { IsTrue (is_live self.old object) }
        requires range { at + len ≤ length (cells_of self.old.objects object) }
        ensures { self.new ≡ with_mark self.old object at len mark }
    {
        let slot = &mut self.slots[index_of(object)];
        slot.seal(at as usize, len as usize, mark);
    }

    /// Counts 256 bytes for a call that is entered.
    ///
    /// `OverBytes` comes exactly where the live bytes and these pass the budget. Then the store is as before.
    #[tactic(auto, unfolding(crate::specs::Storage::live_bytes))]
    pub fn enter(&mut self) -> Result<(), OverBytes>
        ensures entered { OnOk result (self.new ≡ with_call self.old) }
        ensures over { IsErr result ↔ (self.old.budget < live_bytes self.old + 256) }
        ensures fault { OnErr result (self.new ≡ self.old) }
    {
        if !self.fits(0, 256) {
            return Err(OverBytes);
        }
        self.live += 256;
        self.open_calls += 1;
        Ok(())
    }

    /// Gives back the bytes of a call that is left.
    #[tactic(auto, unfolding(crate::specs::Storage::live_bytes))]
    pub fn leave(&mut self)
        requires { 0 < self.old.open_calls }
        ensures { self.new ≡ without_call self.old }
    {
        self.live -= 256;
        self.open_calls -= 1;
    }

    /// Whether the number is that of an object whose lifetime goes on.
    pub fn is_live(&self, object: u32) -> bool
        ensures { result ≡ is_live self.now object }
    {
        match self.find(object) {
            Some(slot) => slot.live,
            None => false,
        }
    }

    /// The sizes of all live objects but the message object, and 256 for each open call.
    #[tactic(auto, unfolding(crate::specs::Storage::live_bytes))]
    pub fn live_bytes(&self) -> u64
        ensures value { result ≡ live_bytes self.now }
        ensures within { result ≤ self.now.budget }
    {
        self.live
    }

    /// Whether so many bytes more stay within the budget, once `released` bytes are given back.
    #[tactic(auto, unfolding(crate::specs::Storage::live_bytes))]
    pub fn fits(&self, released: u64, size: u64) -> bool
        ensures { result ≡ fits self.now released size }
    {
        size <= self.budget - self.live.saturating_sub(released)
    }

    /// Answers the critical case of Annex L that an access is, or that it reaches its range of `len` bytes: the first
    /// row of the table of reaches that holds, in the column of `by` (L.3p2).
    #[tactic(auto, unfolding(crate::specs::Reach::reach_table))]
    pub fn reach(&self, place: Pointer, len: u32, align: u32, by: By) -> Result<(), Case>
        ensures table { Tells result (reach self.now place len align by) }
        ensures reached { OnOk result (IsReached self.now place len) }
        ensures stores { OnOk result (IsTrue (stores by) → IsReachedToStore self.now place len) }
        ensures len { OnOk result (len ≤ largest_size) }
    {
        match self.find(place.object) {
            Some(slot) => slot.reach(place, len, align, by),
            None => Err(by.invalid()),
        }
    }

    /// The bytes of a range that was reached, as they stand in the store: nothing is copied.
    pub fn view(&self, place: Pointer, len: u32) -> View<'_>
        requires { IsReached self.now place len }
        ensures bytes { result ≡ bytes_at self.now place len }
        ensures len { length result ≡ len }
    {
        View::new(cells_at(&self.slots, place, len))
    }

    /// Stores the bytes in a range that was reached by an access that stores.
    pub fn put(&mut self, place: Pointer, bytes: &[u8])
        requires reached { IsReachedToStore self.old place (length bytes.now) }
        requires room { 0 < length bytes.now → length self.old.writes < 4 }
        ensures stored { self.new ≡ with_store self.old place (map Some bytes.now) }
        ensures alone { ChangesOnly self.old self.new place (length bytes.now) }
        ensures reach { SameReach self.old self.new }
        ensures noted { length self.new.writes ≤ length self.old.writes + 1 }
    {
        if bytes.is_empty() {
            return;
        }
        put_at(&mut self.slots, place, bytes);
        self.writes.push(Write {
            object: place.object,
            at: place.offset,
            len: bytes.len() as u32,
        });
    }

    /// Stores an integer of the kind in a range that was reached by an access that stores.
    pub fn put_integer(&mut self, place: Pointer, kind: IntKind, value: i128)
        requires reached { IsReachedToStore self.old place (bytes_of kind) }
        requires in_range { InRange kind value }
        requires room { length self.old.writes < 4 }
        ensures stored { self.new ≡ with_store self.old place (map Some (integer_bytes kind value)) }
        ensures alone { ChangesOnly self.old self.new place (bytes_of kind) }
        ensures reach { SameReach self.old self.new }
        ensures noted { length self.new.writes ≤ length self.old.writes + 1 }
    {
        let mut room = [0; 8];
        let part = &mut room[..bytes(kind) as usize];
        write_integer(part, kind, value);
        self.put(place, part);
    }

    /// Stores a pointer in a range of sixteen bytes that was reached by an access that stores.
    pub fn put_pointer(&mut self, place: Pointer, pointer: Pointer)
        requires reached { IsReachedToStore self.old place 16 }
        requires room { length self.old.writes < 4 }
        ensures stored { self.new ≡ with_store self.old place (map Some (pointer_bytes pointer)) }
        ensures alone { ChangesOnly self.old self.new place 16 }
        ensures reach { SameReach self.old self.new }
        ensures noted { length self.new.writes ≤ length self.old.writes + 1 }
    {
        self.put(place, &pointer.bytes());
    }

    /// Stores one byte everywhere in a range that was reached by an access that stores.
    pub fn fill(&mut self, place: Pointer, len: u32, byte: u8)
        requires reached { IsReachedToStore self.old place len }
        requires room { 0 < len → length self.old.writes < 4 }
        ensures stored { self.new ≡ with_store self.old place (replicate len (Some byte)) }
        ensures alone { ChangesOnly self.old self.new place len }
        ensures reach { SameReach self.old self.new }
        ensures noted { length self.new.writes ≤ length self.old.writes + 1 }
    {
        if len == 0 {
            return;
        }
        fill_at(&mut self.slots, place, len, byte);
        self.writes.push(Write {
            object: place.object,
            at: place.offset,
            len,
        });
    }

    /// Moves the bytes of one range to another, as if through a second copy; the indeterminate ones stay indeterminate.
    pub fn copy_within(&mut self, to: Pointer, from: Pointer, len: u32)
        requires to { IsReachedToStore self.old to len }
        requires from { IsReached self.old from len }
        requires room { 0 < len → length self.old.writes < 4 }
        ensures stored { self.new ≡ with_store self.old to (bytes_at self.old from len) }
        ensures alone { ChangesOnly self.old self.new to len }
        ensures reach { SameReach self.old self.new }
        ensures noted { length self.new.writes ≤ length self.old.writes + 1 }
    {
        if len == 0 {
            return;
        }
        copy_at(&mut self.slots, self.alloc, to, from, len);
        self.writes.push(Write {
            object: to.object,
            at: to.offset,
            len,
        });
    }

    /// Hands over the stores since this was last called, in order; those of length 0 are none.
    pub fn taken(&mut self) -> Writes
        ensures given { result ≡ self.old.writes }
        ensures rest { self.new ≡ record self.old { writes = [] } }
    {
        mem::replace(&mut self.writes, Writes::new())
    }

    /// The object with this number.
    fn find(&self, object: u32) -> Option<&Slot>
        ensures found { option_copied result ≡ object_of self.now.objects object }
        ensures size { IfSome (option_copied result) (λ o. length o.cells ≤ largest_size) }
    {
        let index = index_of(object);
        let slot = self.slots.get(index)?;
        if slot.number(index as u32) == object {
            Some(slot)
        } else {
            None
        }
    }
}
