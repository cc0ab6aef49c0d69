//! Which type a tag stands for.

ghost use Rattle.std.specs.Prelude.{◌≡◌, ◌<◌, IfSome, option_map};
ghost use Rattle.c_types.specs.CType.{type_of};
ghost use Rattle.c_types.specs.Structures.{structures_of};
ghost use Rattle.c_types.specs.Types.{Types, count_of};
ghost use Rattle.c_scopes.specs.Clauses.{RulesOption, RulesType, Settles};
ghost use Rattle.c_scopes.specs.Env.{BindingIn};
ghost use Rattle.c_scopes.specs.Named.{named_of};
ghost use Rattle.c_type_rules.specs.Tags as spec;

use c_core::TypeFault;
use c_scopes::{Binding, TagState};
use c_types::{Shape, TypeId, TypeTable};
use critical_table::Pos;

// The type is a union, or a structure.
pub(crate) fn is_compound(types: &TypeTable, is_union: bool, id: TypeId) -> bool
    requires { id.0 < count_of types.now }
    ensures { result ≡ spec.is_compound is_union (type_of types.now id) (structures_of types.now) }
{
    match types.shape(id) {
        Shape::Compound(_) => {
            if is_union {
                types.is_union(id)
            } else {
                !types.is_union(id)
            }
        }
        Shape::Basic(_) => false,
        Shape::Pointer(_) => false,
        Shape::Array(_, _) => false,
        Shape::Function(_) => false,
        Shape::Enumerated(_) => false,
    }
}

fn is_enumerated(types: &TypeTable, id: TypeId) -> bool
    requires { id.0 < count_of types.now }
    ensures { result ≡ spec.is_enumerated (type_of types.now id) }
{
    match types.shape(id) {
        Shape::Enumerated(_) => true,
        Shape::Basic(_) => false,
        Shape::Pointer(_) => false,
        Shape::Array(_, _) => false,
        Shape::Function(_) => false,
        Shape::Compound(_) => false,
    }
}

fn is_without_body(state: TagState) -> bool
    ensures { result ≡ spec.is_without_body state }
{
    match state {
        TagState::Declared => true,
        TagState::Begun | TagState::Complete => false,
    }
}

fn is_with_body(state: TagState) -> bool
    ensures { result ≡ spec.is_with_body state }
{
    match state {
        TagState::Complete => true,
        TagState::Begun | TagState::Declared => false,
    }
}

/// The structure or union of a tag without a body, by what the tag stands for; none where it is to be declared
/// (6.7.2.3p8).
///
/// Constraint 6 for the tag of another kind.
pub fn compound_tag(
    types: &TypeTable,
    pos: Pos,
    is_union: bool,
    found: Option<Binding>,
) -> Result<Option<TypeId>, TypeFault>
    requires { IfSome found (λ binding. BindingIn types.now binding) }
    ensures { RulesOption (spec.compound_tag_rule (structures_of types.now) is_union
        (option_map (named_of types.now) found)) pos types.now types.now result }
{
    match found {
        None => Ok(None),
        Some(Binding::Tag(of, _)) => {
            if is_compound(types, is_union, of) {
                Ok(Some(of))
            } else {
                Err(TypeFault::Constraint(6, pos))
            }
        }
        Some(Binding::Object(_, _)) => Ok(None),
        Some(Binding::Function(_, _)) => Ok(None),
        Some(Binding::Typedef(_)) => Ok(None),
        Some(Binding::Constant(_, _)) => Ok(None),
        Some(Binding::NullPointer(_)) => Ok(None),
    }
}

/// The structure or union that a body completes, by what its tag stands for in the innermost scope; none where the tag
/// is to be declared (6.7.2.3p1, p4).
///
/// Constraint 6 for the tag of another kind, and for a second body.
pub fn compound_body(
    types: &TypeTable,
    pos: Pos,
    is_union: bool,
    here: Option<Binding>,
) -> Result<Option<TypeId>, TypeFault>
    requires { IfSome here (λ binding. BindingIn types.now binding) }
    ensures { RulesOption (spec.compound_body_rule (structures_of types.now) is_union
        (option_map (named_of types.now) here)) pos types.now types.now result }
{
    match here {
        None => Ok(None),
        Some(Binding::Tag(of, state)) => {
            if is_compound(types, is_union, of) && is_without_body(state) {
                Ok(Some(of))
            } else {
                Err(TypeFault::Constraint(6, pos))
            }
        }
        Some(Binding::Object(_, _)) => Ok(None),
        Some(Binding::Function(_, _)) => Ok(None),
        Some(Binding::Typedef(_)) => Ok(None),
        Some(Binding::Constant(_, _)) => Ok(None),
        Some(Binding::NullPointer(_)) => Ok(None),
    }
}

/// The enumerated type of a tag without a body, by what the tag stands for (6.7.2.3p3).
///
/// Constraint 6 for the tag of another kind, 7 where no body of it has ended.
pub fn enumerated_tag(
    types: &TypeTable,
    pos: Pos,
    found: Option<Binding>,
) -> Result<TypeId, TypeFault>
    requires { IfSome found (λ binding. BindingIn types.now binding) }
    ensures { RulesType (spec.enumerated_tag_rule (option_map (named_of types.now) found)) pos
        types.now types.now result }
{
    match found {
        None => Err(TypeFault::Constraint(7, pos)),
        Some(Binding::Tag(of, state)) => {
            if !is_enumerated(types, of) {
                Err(TypeFault::Constraint(6, pos))
            } else if is_with_body(state) {
                Ok(of)
            } else {
                Err(TypeFault::Constraint(7, pos))
            }
        }
        Some(Binding::Object(_, _)) => Err(TypeFault::Constraint(7, pos)),
        Some(Binding::Function(_, _)) => Err(TypeFault::Constraint(7, pos)),
        Some(Binding::Typedef(_)) => Err(TypeFault::Constraint(7, pos)),
        Some(Binding::Constant(_, _)) => Err(TypeFault::Constraint(7, pos)),
        Some(Binding::NullPointer(_)) => Err(TypeFault::Constraint(7, pos)),
    }
}

/// The tag of an enumeration with a body, by what it stands for in the innermost scope (6.7.2.3p1).
///
/// Constraint 6 where it stands for something there: another kind, or one that has a body.
pub fn enumerated_body(pos: Pos, here: Option<Binding>) -> Result<(), TypeFault>
    ensures { (types : Types) → Settles (spec.enumerated_body_rule (option_map (named_of types) here)) pos result }
{
    if here.is_some() {
        return Err(TypeFault::Constraint(6, pos));
    }
    Ok(())
}
