//! How names of basic types and of constants come into a scope.

ghost use Rattle.std.specs.Prelude.{◌≡◌, [], ◌∷◌, false, map, OnOk};
ghost use Rattle.c_scopes.specs.Env.{BindingIn, ScopesIn};
ghost use Rattle.c_scopes.specs.Named.{named_of};
ghost use Rattle.c_scopes.specs.Scopes.{is_tag};
ghost use Rattle.c_predeclared.specs.Binds.{Binds};
ghost use Rattle.c_predeclared.specs.Predeclared as spec;

use c_scopes::{Binding, Scopes};
use c_types::{Basic, TypeTable};
use critical_table::Name;
use std::alloc::AllocError;

/// The name, which is no tag, is bound in the innermost scope.
pub(crate) fn bind_one(
    scopes: &mut Scopes,
    types: &TypeTable,
    name: &str,
    binding: Binding,
) -> Result<(), AllocError>
    requires here { ScopesIn types.now scopes.old }
    requires binding { BindingIn types.now binding }
    requires name { is_tag binding ≡ false }
    ensures { OnOk result (Binds ((name.now, named_of types.now binding) ∷ []) scopes.old types.now
        scopes.new types.now) }
{
    let name = Name::new(scopes.alloc(), name.as_bytes())?;
    scopes.bind(name, binding)?;
    Ok(())
}

/// Names of basic types are bound in order.
pub(crate) fn bind_types(
    scopes: &mut Scopes,
    types: &TypeTable,
    names: &[(&str, Basic)],
) -> Result<(), AllocError>
    requires { ScopesIn types.now scopes.old }
    ensures { OnOk result (Binds (map (λ row. spec.type row.0.now row.1) names.now) scopes.old types.now
        scopes.new types.now) }
{
    for entry in names {
        let (name, basic) = *entry;
        bind_one(scopes, types, name, Binding::Typedef(types.basic(basic)))?;
    }
    Ok(())
}

/// Names of constants are bound in order.
pub(crate) fn bind_constants(
    scopes: &mut Scopes,
    types: &TypeTable,
    names: &[(&str, Basic, i128)],
) -> Result<(), AllocError>
    requires { ScopesIn types.now scopes.old }
    ensures { OnOk result (Binds (map (λ row. spec.constant row.0.now row.1 row.2) names.now) scopes.old types.now
        scopes.new types.now) }
{
    for entry in names {
        let (name, basic, value) = *entry;
        let binding = Binding::Constant(types.basic(basic), value);
        bind_one(scopes, types, name, binding)?;
    }
    Ok(())
}
