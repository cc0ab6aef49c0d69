//! What the declaration of an object makes of its name.

ghost use Rattle.std.specs.Prelude.{◌≡◌, IfOk, IfSome, option_map};
ghost use Rattle.c_types.specs.CType.{type_of};
ghost use Rattle.c_types.specs.Structures.{structures_of};
ghost use Rattle.c_core.specs.Ids.{IdIn};
ghost use Rattle.c_scopes.specs.Clauses.{Makes, OptionIn, Settles, type_or_none};
ghost use Rattle.c_scopes.specs.Env.{BindingIn};
ghost use Rattle.c_scopes.specs.Named.{named_of};
ghost use Rattle.c_scopes.specs.Ruled.{verdict};
ghost use Rattle.c_type_rules.specs.Arrays.{is_no_incomplete};
ghost use Rattle.c_decl_rules.specs.Clauses as view;
ghost use Rattle.c_decl_rules.specs.DeclaredNames as spec;

use crate::declaring::{Declaring, Manner, Visible};
use crate::functions::{agrees, function_before, is_library, type_behind};
use crate::linkage::{denote_one, is_at_file, linkage_in, linkage_of};
use c_conversions::versions::{is_function, is_void};
use c_core::{ObjectName, TypeFault};
use c_scopes::{Binding, DeclaredObject, Linkage, Standing};
use c_syntax::Storage;
use c_type_rules::arrays::is_without_length;
use c_types::{TypeId, TypeTable};
use std::alloc::AllocError;

/// An earlier declaration of an object.
#[derive(Clone, Copy, Debug)]
pub struct KnownObject {
    pub of: TypeId,
    pub object: DeclaredObject,
}

/// What the name stands for, where that is an object of this linkage (6.2.2p2).
pub fn object_before(
    types: &TypeTable,
    linkage: Linkage,
    binding: Option<Binding>,
) -> Option<KnownObject>
    requires { IfSome binding (λ b. BindingIn types.now b) }
    ensures is { option_map (view.object_of types.now) result
        ≡ spec.object_before linkage (option_map (named_of types.now) binding) }
    ensures is_in { view.KnownObjectIn types.now result }
{
    let _types = types;
    match binding {
        Some(Binding::Object(of, object)) => {
            if denote_one(linkage, object.linkage) {
                Some(KnownObject { of, object })
            } else {
                None
            }
        }
        None => None,
        Some(Binding::Function(_, _)) => None,
        Some(Binding::Typedef(_)) => None,
        Some(Binding::Constant(_, _)) => None,
        Some(Binding::NullPointer(_)) => None,
        Some(Binding::Tag(_, _)) => None,
    }
}

fn object_type(types: &TypeTable, before: Option<KnownObject>) -> Option<TypeId>
    requires { view.KnownObjectIn types.now before }
    ensures is { type_or_none types.now result ≡ spec.object_type (option_map (view.object_of types.now) before) }
    ensures is_in { OptionIn types.now result }
{
    let _types = types;
    Some(before?.of)
}

fn is_extern(storage: Option<Storage>) -> bool
    ensures { result ≡ spec.is_extern storage }
{
    match storage {
        Some(Storage::Extern) => true,
        _ => false,
    }
}

fn is_static(storage: Option<Storage>) -> bool
    ensures { result ≡ spec.is_static storage }
{
    match storage {
        Some(Storage::Static) => true,
        _ => false,
    }
}

fn is_register(storage: Option<Storage>) -> bool
    ensures { result ≡ spec.is_register storage }
{
    match storage {
        Some(Storage::Register) => true,
        _ => false,
    }
}

/// The declaration makes an object, tentatively or not (6.9.2p1, p2).
pub fn makes_object(manner: Manner) -> bool
    ensures { result ≡ spec.makes_object manner }
{
    !is_extern(manner.storage) || manner.initialized
}

/// The object is automatic (6.2.4p5).
pub fn is_automatic(manner: Manner) -> bool
    ensures { result ≡ spec.is_automatic manner }
{
    !is_at_file(manner.setting) && !is_static(manner.storage) && !is_extern(manner.storage)
}

// The type is complete, but for a length that is left out, or is a function's.
fn is_no_incomplete(types: &TypeTable, of: TypeId) -> bool
    requires { IdIn types.now of }
    ensures { result ≡ is_no_incomplete (type_of types.now of) (structures_of types.now) }
{
    types.layout(of).is_some() || is_function(types, of) || is_without_length(types, of)
}

fn may_be_object(types: &TypeTable, name: &Declaring) -> bool
    requires { IdIn types.now name.now.of }
    ensures { result ≡ spec.may_be_object (structures_of types.now) (view.declares_of types.now name.now) }
{
    if makes_object(name.manner) {
        is_no_incomplete(types, name.of)
    } else {
        !is_void(types, name.of)
    }
}

fn has_length(types: &TypeTable, name: &Declaring) -> bool
    requires { IdIn types.now name.now.of }
    ensures { result ≡ spec.has_length (view.declares_of types.now name.now) }
{
    !(is_without_length(types, name.of) && makes_object(name.manner) && !name.manner.initialized)
}

fn is_defined_standing(standing: Standing) -> bool
    ensures { result ≡ spec.is_defined_standing standing }
{
    match standing {
        Standing::Defined => true,
        Standing::Declared | Standing::Tentative => false,
    }
}

fn was_initialized(types: &TypeTable, before: Option<KnownObject>) -> bool
    ensures { result ≡ spec.was_initialized (option_map (view.object_of types.now) before) }
{
    let _types = types;
    match before {
        None => false,
        Some(known) => is_defined_standing(known.object.standing),
    }
}

fn object_name(types: &TypeTable, name: &Declaring, before: Option<KnownObject>) -> ObjectName
    ensures { result ≡ spec.object_name (view.declares_of types.now name.now)
        (option_map (view.object_of types.now) before) }
{
    let _types = types;
    match before {
        None => {
            if is_automatic(name.manner) {
                ObjectName::Slot(name.slot)
            } else {
                ObjectName::Static(name.at)
            }
        }
        Some(known) => known.object.name,
    }
}

fn standing_now(manner: Manner) -> Standing
    ensures { result ≡ spec.standing_now manner }
{
    if !makes_object(manner) {
        Standing::Declared
    } else if is_at_file(manner.setting) && !manner.initialized {
        Standing::Tentative
    } else {
        Standing::Defined
    }
}

fn further(one: Standing, other: Standing) -> Standing
    ensures { result ≡ spec.further one other }
{
    match one {
        Standing::Defined => Standing::Defined,
        Standing::Declared => other,
        Standing::Tentative => match other {
            Standing::Defined => Standing::Defined,
            Standing::Declared | Standing::Tentative => Standing::Tentative,
        },
    }
}

fn standing_behind(types: &TypeTable, before: Option<KnownObject>, now: Standing) -> Standing
    ensures { result ≡ spec.standing_behind (option_map (view.object_of types.now) before) now }
{
    let _types = types;
    match before {
        None => now,
        Some(known) => further(known.object.standing, now),
    }
}

// The constraints on the declaration of an object with that linkage.
fn may_declare(
    types: &TypeTable,
    name: &Declaring,
    visible: &Visible,
    linkage: Linkage,
) -> Result<(), TypeFault>
    requires of { IdIn types.now name.now.of }
    requires visible { view.VisibleIn types.now visible.now }
    ensures { Settles (verdict (spec.object_demands (structures_of types.now)
        (view.declares_of types.now name.now) (view.seen_of types.now visible.now) linkage)) name.now.at result }
{
    let before = object_before(types, linkage, visible.binding);
    let library = is_library(types, function_before(types, linkage, visible.binding));
    if visible.here && !agrees(types, object_type(types, before), name.of) {
        return Err(TypeFault::Constraint(2, name.at));
    }
    if !may_be_object(types, name) {
        return Err(TypeFault::Constraint(7, name.at));
    }
    if !has_length(types, name) {
        return Err(TypeFault::Constraint(9, name.at));
    }
    if library {
        return Err(TypeFault::Constraint(18, name.at));
    }
    if name.manner.initialized && was_initialized(types, before) {
        return Err(TypeFault::Constraint(20, name.at));
    }
    if !is_at_file(name.manner.setting) && is_extern(name.manner.storage) {
        return Err(TypeFault::Constraint(47, name.at));
    }
    Ok(())
}

fn object_linkage(types: &TypeTable, manner: Manner, visible: &Visible) -> Linkage
    ensures { result ≡ spec.object_linkage manner (view.seen_of types.now visible.now) }
{
    let prior = linkage_in(types, visible.binding);
    linkage_of(is_at_file(manner.setting), manner.storage, false, prior)
}

// What the name stands for, by the declaration before.
fn object_declared(
    types: &mut TypeTable,
    name: &Declaring,
    linkage: Linkage,
    before: Option<KnownObject>,
) -> Result<Binding, AllocError>
    requires of { IdIn types.old name.now.of }
    requires before { view.KnownObjectIn types.old before }
    ensures { IfOk result (Makes named_of BindingIn (spec.object_declared (view.declares_of types.old name.now)
        linkage (option_map (view.object_of types.old) before)) types.old types.new) }
{
    let object = DeclaredObject {
        name: object_name(types, name, before),
        register: is_register(name.manner.storage),
        linkage,
        standing: standing_behind(types, before, standing_now(name.manner)),
    };
    let known = object_type(types, before);
    let of = type_behind(types, known, name.of)?;
    Ok(Binding::Object(of, object))
}

// The declaration of an object with that linkage.
fn declare_linked(
    types: &mut TypeTable,
    name: &Declaring,
    visible: &Visible,
    linkage: Linkage,
) -> Result<Binding, TypeFault>
    requires of { IdIn types.old name.now.of }
    requires visible { view.VisibleIn types.old visible.now }
    ensures { view.RulesName (spec.linked_object (structures_of types.old) (view.declares_of types.old name.now)
        (view.seen_of types.old visible.now) linkage) name.now.at types.old types.new result }
{
    may_declare(types, name, visible, linkage)?;
    let before = object_before(types, linkage, visible.binding);
    let declared = object_declared(types, name, linkage, before)?;
    Ok(declared)
}

/// The declaration of an object (6.2.2, 6.7p4, p7, 6.9.2).
///
/// Constraint 2 where the scope has the name for something else, 7 for an incomplete type, 9 for a length that nothing
/// gives, 18 for the name of a library function, 20 for a second initializer, 47 for `extern` in a block.
pub fn declare_object(
    types: &mut TypeTable,
    name: &Declaring,
    visible: &Visible,
) -> Result<Binding, TypeFault>
    requires of { IdIn types.old name.now.of }
    requires visible { view.VisibleIn types.old visible.now }
    ensures { view.RulesName (spec.object_rule (structures_of types.old) (view.declares_of types.old name.now)
        (view.seen_of types.old visible.now)) name.now.at types.old types.new result }
{
    let linkage = object_linkage(types, name.manner, visible);
    declare_linked(types, name, visible, linkage)
}
