//! The predeclared names of pointers and functions.

ghost use Rattle.std.specs.Prelude.{◌≡◌, [], ◌∷◌, map, IfOk, OnOk};
ghost use Rattle.c_types.specs.CType.{type_of};
ghost use Rattle.c_core.specs.Ids.{IdIn};
ghost use Rattle.c_scopes.specs.Clauses.{Makes};
ghost use Rattle.c_scopes.specs.Env.{ScopesIn};
ghost use Rattle.library_types.specs.LibraryTypes.{handler_type, to};
ghost use Rattle.c_predeclared.specs.Binds.{Binds};
ghost use Rattle.c_predeclared.specs.Predeclared as spec;
ghost use Rattle.c_predeclared.specs.Prototypes.{prototyped};

use crate::binding::bind_one;
use crate::prototypes::{Part, object_pointer, prototype_type};
use c_conversions::value::pointer_to;
use c_core::FunctionName;
use c_scopes::{Binding, DeclaredFunction, Linkage, Scopes};
use c_types::{TypeId, TypeTable};
use lib_defs::RowName;
use std::alloc::AllocError;

/// The library functions that a unit may call, each with its number, what it gives and its parameters (7.21.7).
const FUNCTIONS: [(RowName, u16, Part, &[Part]); 3] = [
    (RowName::Putchar, 49, Part::Int, &[Part::Int]),
    (RowName::Puts, 50, Part::Int, &[Part::Text]),
    (RowName::Getchar, 51, Part::Int, &[]),
];

/// The parameters of a handler (K.3.6p2).
const HANDLED: [Part; 3] = [Part::Text, Part::Object, Part::Int];

// The type of a `constraint_handler_t`.
fn handler_pointer(types: &mut TypeTable) -> Result<TypeId, AllocError>
    ensures { IfOk result (Makes type_of IdIn (to handler_type) types.old types.new) }
{
    let handler = prototype_type(types, Part::Void, &HANDLED)?;
    let pointer = pointer_to(types, handler)?;
    Ok(pointer)
}

/// `NULL` (7.19p3).
pub(crate) fn bind_null(scopes: &mut Scopes, types: &mut TypeTable) -> Result<(), AllocError>
    requires { ScopesIn types.old scopes.old }
    ensures { OnOk result (Binds (spec.null_name ∷ []) scopes.old types.old scopes.new types.new) }
{
    let of = object_pointer(types)?;
    bind_one(scopes, types, "NULL", Binding::NullPointer(of))?;
    Ok(())
}

/// `constraint_handler_t` (K.3.6p2).
pub(crate) fn bind_handler(scopes: &mut Scopes, types: &mut TypeTable) -> Result<(), AllocError>
    requires { ScopesIn types.old scopes.old }
    ensures { OnOk result (Binds (spec.handler_name ∷ []) scopes.old types.old scopes.new types.new) }
{
    let of = handler_pointer(types)?;
    bind_one(scopes, types, "constraint_handler_t", Binding::Typedef(of))?;
    Ok(())
}

// The library function with that number.
fn known_function(number: u16) -> DeclaredFunction
    ensures { result ≡ spec.known_function number }
{
    DeclaredFunction {
        name: FunctionName::Library(number),
        linkage: Linkage::External,
        is_defined: false,
    }
}

fn bind_function(
    scopes: &mut Scopes,
    types: &mut TypeTable,
    function: (RowName, u16, Part, &[Part]),
) -> Result<(), AllocError>
    requires { ScopesIn types.old scopes.old }
    ensures { OnOk result (Binds (prototyped function.entry.0 function.entry.1 function.entry.2 function.entry.3.now
        ∷ [])
        scopes.old
        types.old scopes.new types.new) }
{
    let (row, number, gives, parameters) = function;
    let of = prototype_type(types, gives, parameters)?;
    let binding = Binding::Function(of, known_function(number));
    bind_one(scopes, types, row.text(), binding)?;
    Ok(())
}

// Library functions are bound in order.
fn bind_functions(
    scopes: &mut Scopes,
    types: &mut TypeTable,
    functions: &[(RowName, u16, Part, &[Part])],
) -> Result<(), AllocError>
    requires { ScopesIn types.old scopes.old }
    ensures { OnOk result (Binds (map (λ row. prototyped row.0 row.1 row.2 row.3.now) functions.now) scopes.old
        types.old scopes.new types.new) }
{
    for function in functions {
        bind_function(scopes, types, *function)?;
    }
    Ok(())
}

/// The functions of the library.
pub(crate) fn bind_library(scopes: &mut Scopes, types: &mut TypeTable) -> Result<(), AllocError>
    requires { ScopesIn types.old scopes.old }
    ensures { OnOk result (Binds spec.function_names scopes.old types.old scopes.new types.new) }
{
    bind_functions(scopes, types, &FUNCTIONS)
}
