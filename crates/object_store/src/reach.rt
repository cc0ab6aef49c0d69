//! The tests of an access, in the order of the table of reaches.
ghost use Rattle.std.specs.Prelude.{◌≡◌, ◌+◌, ◌≤◌, ◌==◌, ◌%◌, ◌&&◌, ◌||◌, not, nat_lt, length, Some, OnOk, drop};
ghost use Rattle.std.specs.List.{list_any};
ghost use Rattle.object_store.specs.Reach.{Tells, first_case, reach_table, is_clash, is_literal, is_const};
ghost use Rattle.object_store.specs.Marks.{marked_case};

use crate::by::By;
use crate::cell::Cell;
use crate::mark::Mark;
use crate::pointer::Pointer;
use crate::slot::Slot;
use critical_table::Case;

impl Slot {
    /// Answers the case that an access to the object is, or that the access reaches its range.
    #[tactic(auto, unfolding(crate::specs::Reach::reach_table))]
    pub(crate) fn reach(&self, place: Pointer, len: u32, align: u32, by: By) -> Result<(), Case>
        ensures table { Tells result (first_case reach_table (record {
          object = Some self.now;
          place = place;
          len = len;
          align = align;
        }) by) }
        ensures within { OnOk result (len ≤ length self.now.cells) }
    {
        if !self.live {
            return Err(if place.object % 2 == 0 {
                Case::L1
            } else {
                Case::L11
            });
        }
        self.reach_bounds(place, len, align, by)
    }

    /// The same of a live object: the rows that come behind those of its lifetime.
    #[tactic(auto, unfolding(crate::specs::Reach::reach_table))]
    fn reach_bounds(&self, place: Pointer, len: u32, align: u32, by: By) -> Result<(), Case>
        ensures table { Tells result (first_case (drop 3 reach_table) (record {
          object = Some self.now;
          place = place;
          len = len;
          align = align;
        }) by) }
        ensures within { OnOk result (len ≤ length self.now.cells) }
    {
        if has_wrong_bounds(place, self.size()) {
            return Err(by.invalid());
        }
        if is_at_end(place, len) {
            return Err(by.at_end());
        }
        if is_outside(place, len) {
            return Err(by.outside());
        }
        if is_misaligned(place, align) {
            return Err(by.invalid());
        }
        if by.stores() {
            let at = place.offset as usize;
            reach_marks(&self.cells[at..at + len as usize])
        } else {
            Ok(())
        }
    }
}

/// Answers the case that a store to these cells is, or that they may be stored to.
fn reach_marks(cells: &[Cell]) -> Result<(), Case>
    ensures { Tells result (marked_case cells.now) }
{
    if has_clash(cells) {
        return Err(Case::L2);
    }
    if has_literal(cells) {
        return Err(Case::L5);
    }
    if has_const(cells) {
        return Err(Case::L8);
    }
    Ok(())
}

fn has_clash(cells: &[Cell]) -> bool
    ensures { result ≡ list_any (λ c. is_clash c.mark) cells.now }
{
    cells.iter().any(|c| matches!(c.mark, Mark::Clash))
}

fn has_literal(cells: &[Cell]) -> bool
    ensures { result ≡ list_any (λ c. is_literal c.mark) cells.now }
{
    cells.iter().any(|c| matches!(c.mark, Mark::Literal))
}

fn has_const(cells: &[Cell]) -> bool
    ensures { result ≡ list_any (λ c. is_const c.mark) cells.now }
{
    cells.iter().any(|c| matches!(c.mark, Mark::Const))
}

fn has_wrong_bounds(place: Pointer, size: usize) -> bool
    ensures { result ≡ (nat_lt place.high place.low || nat_lt size place.high) }
{
    place.high < place.low || size < place.high as usize
}

fn is_at_end(place: Pointer, len: u32) -> bool
    ensures { result ≡ ((place.offset == place.high) && nat_lt 0 len) }
{
    place.offset == place.high && 0 < len
}

fn is_outside(place: Pointer, len: u32) -> bool
    ensures { result ≡ (nat_lt place.offset place.low || nat_lt place.high (place.offset + len)) }
{
    let end = u64::from(place.offset) + u64::from(len);
    place.offset < place.low || u64::from(place.high) < end
}

fn is_misaligned(place: Pointer, align: u32) -> bool
    ensures { result ≡ not (place.offset % align == 0) }
{
    !place.offset.is_multiple_of(align)
}
