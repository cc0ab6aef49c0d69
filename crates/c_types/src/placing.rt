//! Where the members of a structure or union stand, and how large it is.

ghost use Rattle.std.specs.Prelude.{◌≡◌, ◌^◌, ◌<◌, ◌≤◌, ◌+◌, length, true, false, Some, MatchOption, IfOk};
ghost use Rattle.std.specs.Result.{result_err};
ghost use Rattle.c_types.specs.Layouts.{round_up, strictest, end_from, largest_from, end_with, size_with};
ghost use Rattle.c_types.specs.Layouts.{compound_fault, places_from, places_with, largest};
ghost use Rattle.c_types.specs.Compounds.{members_with};

use crate::fault::LayoutFault;
use crate::layout::{LARGEST, Layout};
use crate::member::Member;
use crate::shape::TypeId;
use critical_table::Name;
use std::alloc::{AllocError, Global};

// The multiple of the alignment that is next from a byte on.
fn round_up(from: u64, align: u32) -> u64
    requires { from < 2 ^ 40 }
    ensures value { result ≡ round_up from align }
    ensures bound { result < 2 ^ 41 }
{
    let align = u64::from(align);
    if align == 0 {
        return from;
    }
    from + (align - from % align) % align
}

/// The alignment of a structure or union: that of its strictest member (6.7.2.1p14).
pub fn strictest(layouts: &[Layout]) -> u32
    ensures { result ≡ strictest layouts.now }
{
    let mut align = 1;
    for layout in layouts {
        align = align.max(layout.align);
    }
    align
}

// The size of the largest member.
fn largest_size(layouts: &[Layout]) -> u32
    ensures { result ≡ largest_from 0 layouts.now }
{
    let mut size = 0;
    for layout in layouts {
        size = size.max(layout.size);
    }
    size
}

// The byte behind the last member of a structure; none where it is past the largest object.
fn end_of(layouts: &[Layout]) -> Option<u64>
    ensures { MatchOption result (largest < end_from 0 layouts.now)
        (λ end. (end ≡ end_from 0 layouts.now) × (end ≤ largest)) }
{
    let mut end = 0;
    for layout in layouts {
        end = round_up(end, layout.align) + u64::from(layout.size);
        if end > u64::from(LARGEST) {
            return None;
        }
    }
    Some(end)
}

// The byte behind the last member of a structure, or behind the largest one of a union.
fn end_with(is_union: bool, layouts: &[Layout]) -> Option<u64>
    ensures { MatchOption result (largest < end_with is_union layouts.now)
        (λ end. (end ≡ end_with is_union layouts.now) × (end < 2 ^ 32)) }
{
    if is_union {
        return Some(u64::from(largest_size(layouts)));
    }
    end_of(layouts)
}

/// The size of a structure or union with the padding at its end (6.7.2.1p17).
///
/// `TooLarge` comes exactly where it would pass the largest size.
pub fn size_with(is_union: bool, layouts: &[Layout]) -> Result<u32, LayoutFault>
    ensures value { IfOk result (λ size. size ≡ size_with is_union layouts.now) }
    ensures bound { IfOk result (λ size. size ≤ largest) }
    ensures fault { compound_fault is_union (Some layouts.now) ≡ result_err result }
{
    let Some(end) = end_with(is_union, layouts) else {
        return Err(LayoutFault::TooLarge);
    };
    let size = round_up(end, strictest(layouts));
    if size > u64::from(LARGEST) {
        return Err(LayoutFault::TooLarge);
    }
    Ok(size as u32)
}

// The places of the members of a structure.
fn places_in_order(alloc: Global, layouts: &[Layout]) -> Result<Vec<u32>, AllocError>
    requires { end_from 0 layouts.now ≤ largest }
    ensures places { IfOk result (λ places. places.items ≡ places_from 0 layouts.now) }
    ensures count { IfOk result (λ places. length places.items ≡ length layouts.now) }
{
    let mut places = Vec::new(alloc);
    let mut from = 0;
    for layout in layouts {
        let at = round_up(from, layout.align);
        from = at + u64::from(layout.size);
        places.push(at as u32)?;
    }
    Ok(places)
}

// The places of the members of a union.
fn places_at_zero(alloc: Global, layouts: &[Layout]) -> Result<Vec<u32>, AllocError>
    ensures places { IfOk result (λ places. places.items ≡ places_with true layouts.now) }
    ensures count { IfOk result (λ places. length places.items ≡ length layouts.now) }
{
    layouts.iter().map(|_| 0).collect(alloc)
}

/// The places of the members, of a structure in order and of a union at 0 (6.7.2.1p15 and p16).
pub fn places_with(
    alloc: Global,
    is_union: bool,
    layouts: &[Layout],
) -> Result<Vec<u32>, AllocError>
    requires { is_union ≡ false → end_from 0 layouts.now ≤ largest }
    ensures places { IfOk result (λ places. places.items ≡ places_with is_union layouts.now) }
    ensures count { IfOk result (λ places. length places.items ≡ length layouts.now) }
{
    if is_union {
        return places_at_zero(alloc, layouts);
    }
    places_in_order(alloc, layouts)
}

/// Members of these names, types and places.
pub fn members_with(
    alloc: Global,
    names: &[Name],
    types: &[TypeId],
    places: &[u32],
) -> Result<Vec<Member>, AllocError>
    requires types { length types.now ≡ length names.now }
    requires places { length places.now ≡ length names.now }
    ensures members { IfOk result (λ members. members.items ≡ members_with names.now types.now places.now) }
{
    let mut members = Vec::new(alloc);
    for i in 0..names.len() {
        let name = Name::new(alloc, names[i].bytes())?;
        members.push(Member {
            name,
            of: types[i],
            at: places[i],
        })?;
    }
    Ok(members)
}
