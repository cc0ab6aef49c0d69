//! What an expression stores as the initializer of an object, or of a part of one.

ghost use Rattle.std.specs.Prelude.{◌≡◌, IfOk, IfSome};
ghost use Rattle.c_types.specs.CType.{type_of};
ghost use Rattle.c_types.specs.Structures.{structures_of};
ghost use Rattle.c_core.specs.Ids.{IdIn};
ghost use Rattle.c_scopes.specs.Clauses.{BreaksAt, Makes, OptionIn, Rules, Settles, type_or_none};
ghost use Rattle.c_scopes.specs.Ruled.{verdict};
ghost use Rattle.c_conversions.specs.Parts.{PartIn, part_of};
ghost use Rattle.c_initial_rules.specs.Constants.{as_constant};
ghost use Rattle.c_initial_rules.specs.Initials as spec;
ghost use Rattle.c_initial_rules.specs.Stored.{InitialIn, initial_of};

use crate::constants::{as_constant, is_constant, is_defined, static_value};
use c_conversions::content::content;
use c_conversions::converting::{assigned, converts};
use c_conversions::operand::Operand;
use c_conversions::versions::{are_versions, is_array, is_compound};
use c_core::{Content, CoreExpr, StaticValue, TypeFault};
use c_types::{TypeId, TypeTable};
use critical_table::Pos;
use std::alloc::AllocError;

/// What an item stores.
#[derive(Drop)]
pub enum Initial {
    /// A value of an automatic object.
    Valued(Content, CoreExpr),
    /// A constant of a static object.
    Fixed(StaticValue),
    /// The bytes of a literal.
    Spelled(Vec<u8>),
}

/// Where an expression stands as an initializer.
#[derive(Clone, Copy, Debug)]
pub struct ItemPlace {
    pub pos: Pos,
    /// The object is static.
    pub fixed: bool,
    /// It stands in a list.
    pub nested: bool,
}

// The expression may initialize an object of the type, but for its value.
fn takes(types: &TypeTable, nested: bool, of: TypeId, operand: &Operand) -> bool
    requires of { IdIn types.now of }
    requires operand { PartIn types.now operand.now }
    ensures { result ≡ spec.takes nested (Some (type_of types.now of)) (part_of types.now operand.now) }
{
    !is_array(types, of)
        && (!nested || !is_compound(types, of) || are_versions(types, of, operand.core.of))
}

// The constraints on the expression for a part of that type.
fn may_store(
    types: &TypeTable,
    place: ItemPlace,
    of: TypeId,
    operand: &Operand,
) -> Result<(), TypeFault>
    requires of { IdIn types.now of }
    requires operand { PartIn types.now operand.now }
    ensures { Settles (verdict (spec.item_demands place.fixed place.nested
        (as_constant (structures_of types.now) (part_of types.now operand.now)) (Some (type_of types.now of))
        (part_of types.now operand.now))) place.pos result }
{
    let constancy = as_constant(types, operand);
    if place.fixed && !is_constant(constancy) {
        return Err(TypeFault::Constraint(16, place.pos));
    }
    if !takes(types, place.nested, of, operand) {
        return Err(TypeFault::Constraint(17, place.pos));
    }
    if !converts(types, of, operand) {
        return Err(TypeFault::Constraint(30, place.pos));
    }
    if place.fixed && !is_defined(constancy) {
        return Err(TypeFault::Constraint(42, place.pos));
    }
    Ok(())
}

// What an automatic object of the type holds.
fn content_or_none(content: Option<Content>) -> Content
    ensures { result ≡ spec.content_or_none content }
{
    match content {
        None => Content::Whole(0),
        Some(content) => content,
    }
}

// The value of an automatic object.
fn value_stored(types: &mut TypeTable, of: TypeId, operand: Operand) -> Result<Initial, AllocError>
    requires of { IdIn types.old of }
    requires operand { PartIn types.old operand }
    ensures { IfOk result (Makes initial_of InitialIn (spec.value_stored (structures_of types.old)
        (type_of types.old of) (part_of types.old operand)) types.old types.new) }
{
    let content = content_or_none(content(types, of));
    let core = assigned(types, of, operand)?;
    Ok(Initial::Valued(content, core))
}

// What an expression stores in a part of that type.
#[tactic(auto, using(c_scopes::proofs::Keeps::keeps_own))]
fn stored(
    types: &mut TypeTable,
    fixed: bool,
    of: TypeId,
    operand: Operand,
) -> Result<Initial, AllocError>
    requires of { IdIn types.old of }
    requires operand { PartIn types.old operand }
    ensures { IfOk result (Makes initial_of InitialIn (spec.item_stored (structures_of types.old) fixed
        (as_constant (structures_of types.old) (part_of types.old operand)) (type_of types.old of)
        (part_of types.old operand)) types.old types.new) }
{
    if fixed {
        let constancy = as_constant(types, &operand);
        return Ok(Initial::Fixed(static_value(types, of, constancy)));
    }
    value_stored(types, of, operand)
}

// An expression for a part of that type.
fn part_value(
    types: &mut TypeTable,
    place: ItemPlace,
    of: TypeId,
    operand: Operand,
) -> Result<Initial, TypeFault>
    requires of { IdIn types.old of }
    requires operand { PartIn types.old operand }
    ensures { Rules initial_of InitialIn (spec.item_rule (structures_of types.old) place.fixed place.nested
        (Some (type_of types.old of)) (part_of types.old operand)) place.pos types.old types.new result }
{
    match may_store(types, place, of, &operand) {
        Err(fault) => Err(fault),
        Ok(()) => match stored(types, place.fixed, of, operand) {
            Ok(stored) => Ok(stored),
            Err(cause) => Err(TypeFault::Memory(cause)),
        },
    }
}

// Why an expression for no part is refused.
fn surplus(types: &TypeTable, place: ItemPlace, operand: &Operand) -> TypeFault
    requires { PartIn types.now operand.now }
    ensures { BreaksAt (spec.item_rule (structures_of types.now) place.fixed place.nested None
        (part_of types.now operand.now)) place.pos result }
{
    let constancy = as_constant(types, operand);
    if place.fixed && !is_constant(constancy) {
        return TypeFault::Constraint(16, place.pos);
    }
    TypeFault::Constraint(17, place.pos)
}

/// An expression for a part of that type, or for none (6.7.9p4, p11, p13, p20).
///
/// Constraint 16 where a static object gets no constant, 17 where there is no part, or the expression can't initialize
/// one of that type, 30 where its value doesn't convert, 42 for a constant with an undefined operation.
pub fn item_value(
    types: &mut TypeTable,
    place: ItemPlace,
    target: Option<TypeId>,
    operand: Operand,
) -> Result<Initial, TypeFault>
    requires target { OptionIn types.old target }
    requires operand { PartIn types.old operand }
    ensures { Rules initial_of InitialIn (spec.item_rule (structures_of types.old) place.fixed place.nested
        (type_or_none types.old target) (part_of types.old operand)) place.pos types.old types.new result }
{
    match target {
        None => Err(surplus(types, place, &operand)),
        Some(of) => part_value(types, place, of, operand),
    }
}
