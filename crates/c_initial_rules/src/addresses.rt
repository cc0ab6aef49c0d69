//! Address constants.

ghost use Rattle.std.specs.Prelude.{◌≡◌, ◌*ℤ◌, MatchOption, pos};
ghost use Rattle.c_types.specs.CType.{type_of};
ghost use Rattle.c_types.specs.Structures.{structures_of};
ghost use Rattle.c_core.specs.Ids.{CoreIn, IdIn};
ghost use Rattle.c_core.specs.View.{core_of};
ghost use Rattle.c_initial_rules.specs.Addresses as spec;

use c_core::{
    Address, Bounds, ConstFault, CoreExpr, CoreNode, FunctionName, ObjectName, Stride, constant,
};
use c_types::{TypeId, TypeTable};
use critical_table::Pos;

/// Where an address constant points (6.6p9).
#[derive(Clone, Copy, Debug)]
pub struct Location {
    /// The token of the static object.
    pub object: Pos,
    /// The byte in it.
    pub offset: u32,
    /// The bounds of the pointer, where they are not those of the object.
    pub bounds: Option<Bounds>,
    /// The size of the object, where it is known here.
    pub size: Option<u32>,
}

/// A pointer that is a constant.
#[derive(Clone, Copy, Debug)]
pub enum PointerConstant {
    Null,
    Address(Address),
    Function(FunctionName),
}

fn is_between(low: u32, high: u32, byte: i128) -> bool
    ensures { result ≡ spec.is_between low high byte }
{
    low as i128 <= byte && byte <= high as i128
}

fn is_in_object(size: Option<u32>, byte: i128) -> bool
    ensures { result ≡ spec.is_in_object size byte }
{
    match size {
        None => is_between(0, 0, byte),
        Some(size) => is_between(0, size, byte),
    }
}

fn is_inside(bounds: Option<Bounds>, size: Option<u32>, byte: i128) -> bool
    ensures { result ≡ spec.is_inside bounds size byte }
{
    match bounds {
        None => is_in_object(size, byte),
        Some(bounds) => is_between(bounds.low, bounds.high, byte),
    }
}

fn placed(location: Location, byte: i128) -> Option<Location>
    ensures { result ≡ spec.placed location byte }
{
    if is_inside(location.bounds, location.size, byte) {
        let offset = byte as u32;
        Some(Location { offset, ..location })
    } else {
        None
    }
}

fn has_room(bounds: Option<Bounds>, known: Option<u32>, offset: u32, size: u32) -> bool
    ensures { result ≡ spec.has_room bounds known offset size }
{
    let end = offset as i128 + size as i128;
    match (bounds, known) {
        (None, None) => offset == 0,
        (None, Some(_)) => is_inside(bounds, known, end),
        (Some(_), _) => is_inside(bounds, known, end),
    }
}

// The bounds are those of an array of that many bytes.
fn narrow(size: u32, location: Location) -> Option<Location>
    ensures { result ≡ spec.narrow size location }
{
    let Location { offset, .. } = location;
    if has_room(location.bounds, location.size, offset, size) {
        let high = offset + size;
        Some(Location {
            bounds: Some(Bounds { low: offset, high }),
            ..location
        })
    } else {
        None
    }
}

// So many bytes further.
fn moved(location: Location, by: i128) -> Option<Location>
    ensures { result ≡ spec.moved (Some location) by }
{
    let byte = (location.offset as i128).checked_add(by)?;
    placed(location, byte)
}

// So many elements further; a product that no `i128` has is beyond each object.
fn stepped(stride: Stride, location: Location, number: i128) -> Option<Location>
    ensures { result ≡ spec.moved (Some location) (spec.distance stride number) }
{
    let product = number.checked_mul(stride.size as i128)?;
    if stride.back {
        let by = product.checked_neg()?;
        return moved(location, by);
    }
    moved(location, product)
}

fn located_object(types: &TypeTable, of: TypeId, name: ObjectName) -> Option<Location>
    requires { IdIn types.now of }
    ensures { result ≡ spec.located_object (structures_of types.now) (type_of types.now of) name }
{
    match name {
        ObjectName::Static(token) => Some(Location {
            object: token,
            offset: 0,
            bounds: None,
            size: types.size_of(of),
        }),
        ObjectName::Slot(_) => None,
    }
}

/// Where a place is, or to where a pointer points, in a static object (6.6p9).
pub fn located(types: &TypeTable, core: &CoreExpr) -> Option<Location>
    requires { CoreIn types.now core.now }
    ensures { result ≡ spec.located (structures_of types.now) (core_of types.now core.now) }
{
    match &core.node {
        CoreNode::Object(name) => located_object(types, core.of, *name),
        CoreNode::Member(at, place) => {
            let location = located(types, place)?;
            placed(location, location.offset as i128 + *at as i128)
        }
        CoreNode::Narrow(size, place) => narrow(*size, located(types, place)?),
        CoreNode::Step(stride, _, pointer, number) => {
            let location = located(types, pointer)?;
            match constant(types, number) {
                Ok(number) => stepped(*stride, location, number),
                Err(ConstFault::NotConstant | ConstFault::Value) => None,
            }
        }
        CoreNode::Reach(_, _, _, pointer) | CoreNode::Retype(pointer) => located(types, pointer),
        CoreNode::AddressOf(place) => located(types, place),
        _ => None,
    }
}

fn address_constant(location: Option<Location>) -> Option<PointerConstant>
    ensures { result ≡ spec.address_constant location }
{
    let location = location?;
    Some(PointerConstant::Address(Address {
        object: location.object,
        offset: location.offset,
        bounds: location.bounds,
    }))
}

/// A pointer as a constant: null, to a function, or to a static object (6.6p9).
pub fn pointer_constant(types: &TypeTable, core: &CoreExpr) -> Option<PointerConstant>
    requires { CoreIn types.now core.now }
    ensures { result ≡ spec.pointer_constant (structures_of types.now) (core_of types.now core.now) }
{
    match &core.node {
        CoreNode::Null => Some(PointerConstant::Null),
        CoreNode::Function(name) => Some(PointerConstant::Function(*name)),
        CoreNode::Retype(pointer) => pointer_constant(types, pointer),
        _ => address_constant(located(types, core)),
    }
}
