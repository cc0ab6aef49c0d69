//! The parts of an object that a list initializes, in order, and the parts that designators are for (6.7.9).

ghost use Rattle.std.specs.Prelude.{◌≡◌, ◌+◌, ◌*◌, map, length, slice_get, IfOk, IfSome, option_map};
ghost use Rattle.c_types.specs.CType.{Array, CType, type_of};
ghost use Rattle.c_types.specs.Compounds.{IsCompound};
ghost use Rattle.c_types.specs.Structures.{members_of, structures_of};
ghost use Rattle.c_core.specs.Ids.{IdIn};
ghost use Rattle.c_scopes.specs.Clauses.{Settles};
ghost use Rattle.c_initial_rules.specs.Parts as spec;
ghost use Rattle.c_initial_rules.specs.Parts.{TargetIn, target_of};
ghost use Rattle.c_types.specs.declared.member.Member.{Member};

use c_conversions::content::size;
use c_conversions::versions::{is_array, is_compound};
use c_core::TypeFault;
use c_types::{Member, Shape, TypeId, TypeTable};
use critical_table::{Name, Pos};
use std::alloc::AllocError;

/// An object, or a part of one: its type, and the byte where it begins.
#[derive(Clone, Copy, Debug)]
pub struct Target {
    pub of: TypeId,
    pub at: u128,
}

/// The type is one of an array, a structure or a union (6.2.5p20).
pub fn has_parts(types: &TypeTable, of: TypeId) -> bool
    requires { IdIn types.now of }
    ensures { result ≡ spec.has_parts (type_of types.now of) }
{
    is_array(types, of) || is_compound(types, of)
}

fn is_counted(length: Option<u64>, index: u128) -> bool
    ensures { result ≡ spec.is_counted length index }
{
    match length {
        None => true,
        Some(n) => index < u128::from(n),
    }
}

fn byte_at(at: u128, index: u128, size: u32) -> Result<u128, AllocError>
    ensures { IfOk result (λ byte. byte ≡ at + index * size) }
{
    let Some(further) = index.checked_mul(u128::from(size)) else {
        return Err(AllocError);
    };
    match at.checked_add(further) {
        None => Err(AllocError),
        Some(byte) => Ok(byte),
    }
}

// The element of that number of an array that begins at a byte.
fn element_target(
    types: &TypeTable,
    element: TypeId,
    at: u128,
    index: u128,
) -> Result<Target, AllocError>
    requires { IdIn types.now element }
    ensures is_in { IfOk result (λ part. TargetIn types.now part) }
    ensures part { IfOk result (λ part. target_of types.now part
        ≡ spec.element_target (structures_of types.now) (type_of types.now element) at index) }
{
    let byte = byte_at(at, index, size(types.layout(element)))?;
    Ok(Target {
        of: element,
        at: byte,
    })
}

// The member of that number of an object that begins at a byte.
fn member_target(at: u128, members: &[Member], index: u128) -> Result<Option<Target>, AllocError>
    ensures { IfOk result (λ part. part ≡ option_map (λ (member : Member). record {
      of = member.of;
      at = at + member.at;
    }) (slice_get members.now index)) }
{
    let Ok(number) = usize::try_from(index) else {
        return Err(AllocError);
    };
    match members.get(number) {
        None => Ok(None),
        Some(member) => match at.checked_add(u128::from(member.at)) {
            None => Err(AllocError),
            Some(byte) => Ok(Some(Target {
                of: member.of,
                at: byte,
            })),
        },
    }
}

// The part of that number of a structure or union.
fn compound_part(
    types: &TypeTable,
    object: Target,
    index: u128,
) -> Result<Option<Target>, AllocError>
    requires of { TargetIn types.now object }
    requires compound { IsCompound (type_of types.now object.of) }
    ensures is_in { IfOk result (λ part. IfSome part (TargetIn types.now)) }
    ensures part { IfOk result (λ part. option_map (target_of types.now) part
        ≡ spec.part_of (structures_of types.now) (type_of types.now object.of) object.at index) }
{
    match types.members(object.of) {
        None => Ok(None),
        Some(members) => member_target(object.at, members, index),
    }
}

/// The part of that number, from 0, of an object; none where it has no such part.
///
/// Want of memory stands for a byte that no `u128` holds.
pub fn part(types: &TypeTable, object: Target, index: u128) -> Result<Option<Target>, AllocError>
    requires { TargetIn types.now object }
    ensures is_in { IfOk result (λ part. IfSome part (TargetIn types.now)) }
    ensures part { IfOk result (λ part. option_map (target_of types.now) part
        ≡ spec.part_of (structures_of types.now) (type_of types.now object.of) object.at index) }
{
    match types.shape(object.of) {
        Shape::Array(element, length) => {
            if !is_counted(length, index) {
                return Ok(None);
            }
            let part = element_target(types, element, object.at, index)?;
            Ok(Some(part))
        }
        Shape::Compound(_) => compound_part(types, object, index),
        Shape::Basic(_) => Ok(None),
        Shape::Pointer(_) => Ok(None),
        Shape::Function(_) => Ok(None),
        Shape::Enumerated(_) => Ok(None),
    }
}

fn is_union(types: &TypeTable, of: TypeId) -> bool
    requires { IdIn types.now of }
    ensures { result ≡ spec.is_union (type_of types.now of) (structures_of types.now) }
{
    match types.shape(of) {
        Shape::Compound(_) => types.is_union(of),
        Shape::Array(_, _) => false,
        Shape::Basic(_) => false,
        Shape::Pointer(_) => false,
        Shape::Function(_) => false,
        Shape::Enumerated(_) => false,
    }
}

// How many members a structure or union has.
fn member_count(types: &TypeTable, of: TypeId) -> usize
    requires of { IdIn types.now of }
    requires compound { IsCompound (type_of types.now of) }
    ensures { result ≡ length (members_of (type_of types.now of) (structures_of types.now)) }
{
    match types.members(of) {
        None => 0,
        Some(members) => members.len(),
    }
}

/// The number of the part behind one (6.7.9p17).
///
/// Want of memory stands for a number that no `u128` holds.
pub fn next_part(types: &TypeTable, of: TypeId, index: u128) -> Result<u128, AllocError>
    requires { IdIn types.now of }
    ensures { IfOk result (λ next. next ≡ spec.next_part (structures_of types.now) (type_of types.now of) index) }
{
    if is_union(types, of) {
        return Ok(member_count(types, of) as u128);
    }
    match index.checked_add(1) {
        None => Err(AllocError),
        Some(next) => Ok(next),
    }
}

/// The number of the element that an index designates, by the value of its expression (6.7.9p6).
///
/// Constraint 17 where the type is none of an array, there is no value, or the array has no such element.
pub fn index(
    types: &TypeTable,
    pos: Pos,
    of: TypeId,
    value: Option<i128>,
) -> Result<u128, TypeFault>
    requires { IdIn types.now of }
    ensures { Settles (spec.index_rule (type_of types.now of) value) pos result }
{
    match types.shape(of) {
        Shape::Array(_, length) => element_index(pos, length, value),
        Shape::Compound(_) => Err(TypeFault::Constraint(17, pos)),
        Shape::Basic(_) => Err(TypeFault::Constraint(17, pos)),
        Shape::Pointer(_) => Err(TypeFault::Constraint(17, pos)),
        Shape::Function(_) => Err(TypeFault::Constraint(17, pos)),
        Shape::Enumerated(_) => Err(TypeFault::Constraint(17, pos)),
    }
}

// The number of an element of an array of that length.
fn element_index(pos: Pos, length: Option<u64>, value: Option<i128>) -> Result<u128, TypeFault>
    ensures { (element : CType) → Settles (spec.index_rule (Array element length) value) pos result }
{
    let Some(n) = value else {
        return Err(TypeFault::Constraint(17, pos));
    };
    if n < 0 || !is_counted(length, n.unsigned_abs()) {
        return Err(TypeFault::Constraint(17, pos));
    }
    Ok(n.unsigned_abs())
}

// The number of the first member of that name.
fn number_among(members: &[Member], name: &Name) -> Option<usize>
    ensures { result ≡ spec.number_among (map (λ (member : Member). member.name) members.now) name.now }
{
    for (number, member) in members.iter().enumerate() {
        if member.name == *name {
            return Some(number);
        }
    }
    None
}

// The number of the member of that name of a structure or union.
fn member_number(types: &TypeTable, of: TypeId, name: &Name) -> Option<usize>
    requires of { IdIn types.now of }
    requires compound { IsCompound (type_of types.now of) }
    ensures { result ≡ spec.member_number (structures_of types.now) (type_of types.now of) name.now }
{
    match types.members(of) {
        None => None,
        Some(members) => number_among(members, name),
    }
}

fn numbered(pos: Pos, number: Option<usize>) -> Result<u128, TypeFault>
    ensures { Settles (spec.numbered_rule number) pos result }
{
    match number {
        None => Err(TypeFault::Constraint(17, pos)),
        Some(n) => Ok(n as u128),
    }
}

/// The number of the member that a name designates (6.7.9p7).
///
/// Constraint 17 where the type has no such member.
pub fn member(types: &TypeTable, pos: Pos, of: TypeId, name: &Name) -> Result<u128, TypeFault>
    requires { IdIn types.now of }
    ensures { Settles (spec.member_rule (structures_of types.now) (type_of types.now of) name.now) pos result }
{
    match types.shape(of) {
        Shape::Compound(_) => numbered(pos, member_number(types, of, name)),
        Shape::Array(_, _) => Err(TypeFault::Constraint(17, pos)),
        Shape::Basic(_) => Err(TypeFault::Constraint(17, pos)),
        Shape::Pointer(_) => Err(TypeFault::Constraint(17, pos)),
        Shape::Function(_) => Err(TypeFault::Constraint(17, pos)),
        Shape::Enumerated(_) => Err(TypeFault::Constraint(17, pos)),
    }
}
