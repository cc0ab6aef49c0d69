//! How names, structures and enumerations come into an environment.

ghost use Rattle.std.specs.Prelude.{◌≡◌, IfOk, OnOk};
ghost use Rattle.c_types.specs.Structures.{structures_of};
ghost use Rattle.c_scopes.specs.Env.{BindingIn, ScopesIn, env_of};
ghost use Rattle.c_scopes.specs.Named.{named_of};
ghost use Rattle.c_type_rules.specs.Tags.{next_compound, next_enumerated};
ghost use Rattle.c_type_parts.specs.Clauses.{Becomes, BecomesWith};
ghost use Rattle.c_type_parts.specs.Environments.{with_name, with_compound, with_enumeration};

use c_scopes::{Binding, Scopes};
use c_types::{TypeId, TypeTable};
use critical_table::Name;
use std::alloc::AllocError;

/// The name is in scope from here on (6.2.1p7).
pub fn bind_name(
    scopes: &mut Scopes,
    types: &TypeTable,
    name: &Name,
    binding: Binding,
) -> Result<(), AllocError>
    requires here { ScopesIn types.now scopes.old }
    requires binding { BindingIn types.now binding }
    ensures { OnOk result (Becomes (with_name name.now (named_of types.now binding) (env_of scopes.old types.now))
        types.now scopes.new types.now) }
{
    let name = Name::new(scopes.alloc(), name.bytes())?;
    scopes.bind(name, binding)?;
    Ok(())
}

/// One more structure or union, which is incomplete (6.7.2.3p5).
pub fn new_compound(
    scopes: &Scopes,
    types: &mut TypeTable,
    is_union: bool,
) -> Result<TypeId, AllocError>
    requires { ScopesIn types.old scopes.now }
    ensures { IfOk result (λ id. BecomesWith (next_compound (structures_of types.old))
        (with_compound is_union (env_of scopes.now types.old)) types.old scopes.now types.new id) }
{
    let _scopes = scopes;
    let id = types.compound(is_union)?;
    Ok(id)
}

/// One more enumerated type (6.7.2.2p4).
pub fn new_enumeration(scopes: &Scopes, types: &mut TypeTable) -> Result<TypeId, AllocError>
    requires { ScopesIn types.old scopes.now }
    ensures { IfOk result (λ id. BecomesWith (next_enumerated types.old.enumerations)
        (with_enumeration (env_of scopes.now types.old)) types.old scopes.now types.new id) }
{
    let _scopes = scopes;
    let id = types.enumerated()?;
    Ok(id)
}
