//! What the declaration of a function makes of its name.

ghost use Rattle.std.specs.Prelude.{◌≡◌, IfOk, IfSome, option_map};
ghost use Rattle.c_types.specs.CType.{type_of};
ghost use Rattle.c_types.specs.Structures.{structures_of};
ghost use Rattle.c_core.specs.Ids.{IdIn};
ghost use Rattle.c_scopes.specs.Clauses.{Makes, OptionIn, Settles, type_or_none};
ghost use Rattle.c_scopes.specs.Env.{BindingIn};
ghost use Rattle.c_scopes.specs.Named.{named_of};
ghost use Rattle.c_scopes.specs.Ruled.{verdict};
ghost use Rattle.c_decl_rules.specs.Clauses as view;
ghost use Rattle.c_decl_rules.specs.DeclaredNames as spec;

use crate::declaring::{Declaring, Manner, Visible};
use crate::linkage::{denote_one, is_at_file, linkage_in, linkage_of};
use c_conversions::value::composite;
use c_core::{FunctionName, TypeFault};
use c_scopes::{Binding, DeclaredFunction, Linkage};
use c_type_rules::Setting;
use c_types::{TypeId, TypeTable};
use critical_table::Pos;
use std::alloc::AllocError;

/// An earlier declaration of a function.
#[derive(Clone, Copy, Debug)]
pub struct KnownFunction {
    pub of: TypeId,
    pub function: DeclaredFunction,
}

/// What the name stands for, where that is a function of this linkage (6.2.2p2).
pub fn function_before(
    types: &TypeTable,
    linkage: Linkage,
    binding: Option<Binding>,
) -> Option<KnownFunction>
    requires { IfSome binding (λ b. BindingIn types.now b) }
    ensures is { option_map (view.function_of types.now) result
        ≡ spec.function_before linkage (option_map (named_of types.now) binding) }
    ensures is_in { view.KnownFunctionIn types.now result }
{
    let _types = types;
    match binding {
        Some(Binding::Function(of, function)) => {
            if denote_one(linkage, function.linkage) {
                Some(KnownFunction { of, function })
            } else {
                None
            }
        }
        None => None,
        Some(Binding::Object(_, _)) => None,
        Some(Binding::Typedef(_)) => None,
        Some(Binding::Constant(_, _)) => None,
        Some(Binding::NullPointer(_)) => None,
        Some(Binding::Tag(_, _)) => None,
    }
}

/// An earlier declaration has a compatible type (6.7p4).
pub fn agrees(types: &TypeTable, before: Option<TypeId>, of: TypeId) -> bool
    requires before { OptionIn types.now before }
    requires of { IdIn types.now of }
    ensures { result ≡ spec.agrees (type_or_none types.now before) (type_of types.now of) }
{
    match before {
        None => false,
        Some(before) => types.compatible(before, of),
    }
}

/// The type that a name has behind two declarations (6.2.7p4).
pub fn type_behind(
    types: &mut TypeTable,
    before: Option<TypeId>,
    of: TypeId,
) -> Result<TypeId, AllocError>
    requires before { OptionIn types.old before }
    requires of { IdIn types.old of }
    ensures { IfOk result (Makes type_of IdIn
        (spec.type_behind (type_or_none types.old before) (type_of types.old of)) types.old types.new) }
{
    let Some(before) = before else {
        return Ok(of);
    };
    if types.compatible(before, of) {
        composite(types, before, of)
    } else {
        Ok(of)
    }
}

fn function_type(types: &TypeTable, before: Option<KnownFunction>) -> Option<TypeId>
    requires { view.KnownFunctionIn types.now before }
    ensures is { type_or_none types.now result
        ≡ spec.function_type (option_map (view.function_of types.now) before) }
    ensures is_in { OptionIn types.now result }
{
    let _types = types;
    Some(before?.of)
}

fn is_definition(setting: Setting) -> bool
    ensures { result ≡ spec.is_definition setting }
{
    match setting {
        Setting::Definition => true,
        _ => false,
    }
}

/// The declaration before is that of a library function.
pub fn is_library(types: &TypeTable, before: Option<KnownFunction>) -> bool
    ensures { result ≡ spec.is_library (option_map (view.function_of types.now) before) }
{
    let _types = types;
    match before {
        None => false,
        Some(known) => match known.function.name {
            FunctionName::Library(_) => true,
            FunctionName::Unit(_) => false,
        },
    }
}

fn was_defined(types: &TypeTable, before: Option<KnownFunction>) -> bool
    ensures { result ≡ spec.was_defined (option_map (view.function_of types.now) before) }
{
    let _types = types;
    match before {
        None => false,
        Some(known) => known.function.is_defined,
    }
}

fn function_name(types: &TypeTable, before: Option<KnownFunction>, at: Pos) -> FunctionName
    ensures { result ≡ spec.function_name (option_map (view.function_of types.now) before) at }
{
    let _types = types;
    match before {
        None => FunctionName::Unit(at),
        Some(known) => known.function.name,
    }
}

// The constraints on the declaration of a function with that linkage.
fn may_declare(
    types: &TypeTable,
    name: &Declaring,
    visible: &Visible,
    linkage: Linkage,
) -> Result<(), TypeFault>
    requires of { IdIn types.now name.now.of }
    requires visible { view.VisibleIn types.now visible.now }
    ensures { Settles (verdict (spec.function_demands (view.declares_of types.now name.now)
        (view.seen_of types.now visible.now) linkage)) name.now.at result }
{
    let before = function_before(types, linkage, visible.binding);
    let agrees = agrees(types, function_type(types, before), name.of);
    let defines = is_definition(name.manner.setting);
    if visible.here && !agrees {
        return Err(TypeFault::Constraint(2, name.at));
    }
    if name.manner.initialized {
        return Err(TypeFault::Constraint(7, name.at));
    }
    if is_library(types, before) && (!agrees || defines) {
        return Err(TypeFault::Constraint(18, name.at));
    }
    if defines && was_defined(types, before) {
        return Err(TypeFault::Constraint(20, name.at));
    }
    if !is_at_file(name.manner.setting) {
        return Err(TypeFault::Constraint(47, name.at));
    }
    Ok(())
}

fn function_linkage(types: &TypeTable, manner: Manner, visible: &Visible) -> Linkage
    ensures { result ≡ spec.function_linkage manner (view.seen_of types.now visible.now) }
{
    let prior = linkage_in(types, visible.binding);
    linkage_of(is_at_file(manner.setting), manner.storage, true, prior)
}

// What the name stands for, by the declaration before.
fn function_declared(
    types: &mut TypeTable,
    name: &Declaring,
    linkage: Linkage,
    before: Option<KnownFunction>,
) -> Result<Binding, AllocError>
    requires of { IdIn types.old name.now.of }
    requires before { view.KnownFunctionIn types.old before }
    ensures { IfOk result (Makes named_of BindingIn (spec.function_declared (view.declares_of types.old name.now)
        linkage (option_map (view.function_of types.old) before)) types.old types.new) }
{
    let function = DeclaredFunction {
        name: function_name(types, before, name.at),
        linkage,
        is_defined: was_defined(types, before) || is_definition(name.manner.setting),
    };
    let known = function_type(types, before);
    let of = type_behind(types, known, name.of)?;
    Ok(Binding::Function(of, function))
}

// The declaration of a function with that linkage.
fn declare_linked(
    types: &mut TypeTable,
    name: &Declaring,
    visible: &Visible,
    linkage: Linkage,
) -> Result<Binding, TypeFault>
    requires of { IdIn types.old name.now.of }
    requires visible { view.VisibleIn types.old visible.now }
    ensures { view.RulesName (spec.linked_function (view.declares_of types.old name.now)
        (view.seen_of types.old visible.now) linkage) name.now.at types.old types.new result }
{
    may_declare(types, name, visible, linkage)?;
    let before = function_before(types, linkage, visible.binding);
    let declared = function_declared(types, name, linkage, before)?;
    Ok(declared)
}

/// The declaration of a function (6.2.2, 6.7p4, 6.9.1).
///
/// Constraint 2 where the scope has the name for something else, 7 for an initializer, 18 for a library function that
/// is defined or has another type, 20 for a second definition, 47 in a block.
pub fn declare_function(
    types: &mut TypeTable,
    name: &Declaring,
    visible: &Visible,
) -> Result<Binding, TypeFault>
    requires of { IdIn types.old name.now.of }
    requires visible { view.VisibleIn types.old visible.now }
    ensures { view.RulesName (spec.function_rule (view.declares_of types.old name.now)
        (view.seen_of types.old visible.now)) name.now.at types.old types.new result }
{
    let linkage = function_linkage(types, name.manner, visible);
    declare_linked(types, name, visible, linkage)
}
