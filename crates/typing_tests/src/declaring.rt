//! Declarations bind their names: without linkage, initializers and whatever else is for the walk over declarations.

ghost use Rattle.std.specs.Prelude.{IfOk};
ghost use Rattle.c_core.specs.Ids.{IdIn};
ghost use Rattle.c_scopes.specs.Env.{ScopesIn};

use crate::binding::{Words, bind_declared};
use crate::storage::context_of;
use c_core::TypeFault;
use c_expr::declarators::{Base, declared_type};
use c_expr::specifiers::specified;
use c_scopes::Scopes;
use c_syntax::{Declaration, Declarator, External, InitDeclarator};
use c_type_parts::derivations::Around;
use c_types::{TypeId, TypeTable};
use critical_table::Pos;

// A declared name may be that of the function with `...`.
const OUTSIDE: Around = Around {
    at: Pos { line: 1, column: 1 },
    may_vary: true,
};

/// Binds what the declarations among these declare.
pub fn declare_all(
    scopes: &mut Scopes,
    types: &mut TypeTable,
    externals: &[External],
) -> Result<(), TypeFault>
    requires { ScopesIn types.old scopes.old }
    ensures { IfOk result (λ _. ScopesIn types.new scopes.new) }
{
    for external in externals {
        match declare_external(scopes, types, external) {
            Ok(()) => {}
            Err(fault) => return Err(fault),
        }
    }
    Ok(())
}

fn declare_external(
    scopes: &mut Scopes,
    types: &mut TypeTable,
    external: &External,
) -> Result<(), TypeFault>
    requires { ScopesIn types.old scopes.old }
    ensures { IfOk result (λ _. ScopesIn types.new scopes.new) }
{
    if let External::Declaration(declaration) = external {
        declare(scopes, types, declaration)?;
    }
    Ok(())
}

/// Binds what a declaration declares. The type of its last declarator; without one that of its specifiers.
pub fn declare(
    scopes: &mut Scopes,
    types: &mut TypeTable,
    declaration: &Declaration,
) -> Result<TypeId, TypeFault>
    requires { ScopesIn types.old scopes.old }
    ensures here { IfOk result (λ _. ScopesIn types.new scopes.new) }
    ensures id { IfOk result (λ id. IdIn types.new id) }
{
    let specifiers = declaration.specifiers.as_slice();
    let of = specified(scopes, types, context_of(declaration), specifiers)?;
    let words = Words { specifiers, of };
    declare_names(scopes, types, words, declaration.declarators.as_slice())
}

// The type of the last declarator; without one that of the specifiers.
fn declare_names(
    scopes: &mut Scopes,
    types: &mut TypeTable,
    words: Words<'_>,
    declarators: &[InitDeclarator],
) -> Result<TypeId, TypeFault>
    requires here { ScopesIn types.old scopes.old }
    requires id { IdIn types.old words.of }
    ensures here { IfOk result (λ _. ScopesIn types.new scopes.new) }
    ensures id { IfOk result (λ id. IdIn types.new id) }
{
    let mut last = words.of;
    for each in declarators {
        match declare_name(scopes, types, words, &each.declarator) {
            Ok(of) => last = of,
            Err(fault) => return Err(fault),
        }
    }
    Ok(last)
}

// The type of the declared name.
fn declare_name(
    scopes: &mut Scopes,
    types: &mut TypeTable,
    words: Words<'_>,
    declarator: &Declarator,
) -> Result<TypeId, TypeFault>
    requires here { ScopesIn types.old scopes.old }
    requires id { IdIn types.old words.of }
    ensures here { IfOk result (λ _. ScopesIn types.new scopes.new) }
    ensures id { IfOk result (λ id. IdIn types.new id) }
    ensures words { IfOk result (λ _. IdIn types.new words.entry.of) }
{
    let base = Base {
        of: words.of,
        around: OUTSIDE,
    };
    let of = declared_type(scopes, types, base, declarator)?;
    let declared = Words {
        specifiers: words.specifiers,
        of,
    };
    bind_declared(scopes, types, declarator, declared)?;
    Ok(of)
}
