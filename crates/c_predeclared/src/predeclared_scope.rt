//! The scope around the file scope.

ghost use Rattle.std.specs.Prelude.{IfOk, OnOk};
ghost use Rattle.c_scopes.specs.Env.{ScopesIn};
ghost use Rattle.c_predeclared.specs.Binds.{Binds, IsPredeclared};
ghost use Rattle.c_predeclared.specs.Predeclared as spec;

use crate::functions::{bind_handler, bind_library, bind_null};
use crate::names::bind_basic_names;
use c_scopes::Scopes;
use c_types::TypeTable;
use std::alloc::{AllocError, Global};

// The names of pointers and functions.
fn bind_derived_names(scopes: &mut Scopes, types: &mut TypeTable) -> Result<(), AllocError>
    requires { ScopesIn types.old scopes.old }
    ensures { OnOk result (Binds spec.derived_names scopes.old types.old scopes.new types.new) }
{
    bind_null(scopes, types)?;
    bind_handler(scopes, types)?;
    bind_library(scopes, types)?;
    Ok(())
}

/// The scope around the file scope, with the names of the library (7.1.2). A unit may declare each of them anew.
pub fn predeclared(alloc: Global, types: &mut TypeTable) -> Result<Scopes, AllocError>
    ensures { IfOk result (λ scopes. IsPredeclared scopes types.old types.new) }
{
    let mut scopes = Scopes::new(alloc)?;
    bind_basic_names(&mut scopes, types)?;
    bind_derived_names(&mut scopes, types)?;
    Ok(scopes)
}
