//! Which bytes of an object are const.

ghost use Rattle.std.specs.Prelude.{◌≡◌, ◌++◌, [], IfOk, OnOk};
ghost use Rattle.c_types.specs.CType.{type_of};
ghost use Rattle.c_types.specs.Compounds.{IsCompound, number_in};
ghost use Rattle.c_types.specs.Structures.{structures_of};
ghost use Rattle.c_core.specs.Ids.{IdIn};
ghost use Rattle.c_initial_rules.specs.Seals as spec;

use c_conversions::content::size;
use c_core::Range;
use c_types::{Shape, TypeId, TypeTable};
use std::alloc::{AllocError, Global};

// How deep structures may lie in one another.
const MOST_NESTED: u32 = 4096;

// More ranges than the largest object has bytes are want of memory.
const MOST_RANGES: usize = 16_777_216;

// The ranges, so many bytes later, behind others.
fn push_later(all: &mut Vec<Range>, by: u32, ranges: &[Range]) -> Result<(), AllocError>
    ensures { OnOk result (all.new.items ≡ all.old.items ++ spec.all_later by ranges.now) }
{
    for range in ranges {
        let Some(at) = by.checked_add(range.at) else {
            return Err(AllocError);
        };
        if all.len() >= MOST_RANGES {
            return Err(AllocError);
        }
        all.push(Range { at, len: range.len })?;
    }
    Ok(())
}

// The ranges of so many elements of a size.
fn element_seals(
    alloc: Global,
    count: u64,
    size: u32,
    ranges: &[Range],
) -> Result<Vec<Range>, AllocError>
    ensures { IfOk result (λ all. all.items ≡ spec.of_elements count 0 size ranges.now) }
{
    let mut all = Vec::new(alloc);
    if ranges.is_empty() {
        return Ok(all);
    }
    let mut at: u32 = 0;
    let mut left = count;
    while left > 0 {
        push_later(&mut all, at, ranges)?;
        let Some(next) = at.checked_add(size) else {
            return Err(AllocError);
        };
        at = next;
        left -= 1;
    }
    Ok(all)
}

fn count_or_none(length: Option<u64>) -> u64
    ensures { result ≡ spec.count_in length }
{
    match length {
        None => 0,
        Some(n) => n,
    }
}

fn whole_range(alloc: Global, len: u32) -> Result<Vec<Range>, AllocError>
    ensures { IfOk result (λ all. all.items ≡ spec.whole_range len) }
{
    let mut all = Vec::new(alloc);
    all.push(Range { at: 0, len })?;
    Ok(all)
}

// The const parts of a type, where structures may lie so deep in it.
#[cycle(seals)]
fn type_seals(types: &TypeTable, depth: u32, of: TypeId) -> Result<Vec<Range>, AllocError>
    requires { IdIn types.now of }
    ensures { IfOk result (λ all. all.items ≡ spec.type_sealed
        (spec.structure_sealed depth (structures_of types.now)) (type_of types.now of) (structures_of types.now)) }
{
    if types.quals(of).constant {
        return whole_range(types.alloc(), size(types.layout(of)));
    }
    match types.shape(of) {
        Shape::Array(element, length) => {
            let ranges = type_seals(types, depth, element)?;
            let step = size(types.layout(element));
            element_seals(types.alloc(), count_or_none(length), step, &ranges)
        }
        Shape::Compound(_) => {
            if types.has_const(of) {
                structure_seals(types, depth, of)
            } else {
                Ok(Vec::new(types.alloc()))
            }
        }
        Shape::Basic(_) => Ok(Vec::new(types.alloc())),
        Shape::Pointer(_) => Ok(Vec::new(types.alloc())),
        Shape::Function(_) => Ok(Vec::new(types.alloc())),
        Shape::Enumerated(_) => Ok(Vec::new(types.alloc())),
    }
}

// The const members of a structure or union.
#[cycle(seals)]
fn structure_seals(types: &TypeTable, depth: u32, of: TypeId) -> Result<Vec<Range>, AllocError>
    requires of { IdIn types.now of }
    requires compound { IsCompound (type_of types.now of) }
    ensures { IfOk result (λ all. all.items ≡ spec.structure_sealed depth (structures_of types.now)
        (number_in (type_of types.now of))) }
{
    if depth == 0 {
        return Err(AllocError);
    }
    let mut all = Vec::new(types.alloc());
    let Some(members) = types.members(of) else {
        return Ok(all);
    };
    for member in members {
        let ranges = type_seals(types, depth - 1, member.of)?;
        push_later(&mut all, member.at, &ranges)?;
    }
    Ok(all)
}

/// The const parts of an object of a type, in order of declaration: the whole of what is const, and nothing inside it
/// (6.7.3p6).
///
/// Structures that lie more than 4,096 deep in one another are want of memory, and so are more than 16,777,216 parts.
pub fn const_parts(types: &TypeTable, of: TypeId) -> Result<Vec<Range>, AllocError>
    requires { IdIn types.now of }
    ensures { IfOk result (λ all. all.items ≡ spec.const_parts (type_of types.now of) (structures_of types.now)) }
{
    type_seals(types, MOST_NESTED, of)
}

// The ranges in rising place; where places are equal they keep their order.
fn put_in_place(all: &mut Vec<Range>) -> Result<(), AllocError>
    ensures { OnOk result (all.new.items ≡ spec.put_in_place [] all.old.items) }
{
    all.sort_by_key(|range| range.at)?;
    Ok(())
}

/// The const parts of an object of a type in the order in which they are sealed: in rising place, and in order of
/// declaration where places are equal, which they are in unions (6.7.2.1p16, 6.7.3p6).
///
/// What `const_parts` says of want of memory holds here too.
pub fn seals(types: &TypeTable, of: TypeId) -> Result<Vec<Range>, AllocError>
    requires { IdIn types.now of }
    ensures { IfOk result (λ all. all.items ≡ spec.seals_of (type_of types.now of) (structures_of types.now)) }
{
    let mut all = const_parts(types, of)?;
    put_in_place(&mut all)?;
    Ok(all)
}
