//! Enumerators come into scope.

ghost use Rattle.std.specs.Prelude.{◌≡◌};
ghost use Rattle.c_scopes.specs.Env.{ScopesIn, env_of};
ghost use Rattle.c_type_parts.specs.Clauses.{AnswersNumber};
ghost use Rattle.c_type_parts.specs.Declaring as spec;

use crate::naming::bind_name;
use c_core::TypeFault;
use c_scopes::{Binding, Scopes};
use c_syntax::Enumerator;
use c_type_rules::enumerator as ruled_value;
use c_types::{Basic, TypeTable};

/// An enumerator of that value comes into scope (6.7.2.2p2, p3).
///
/// Constraint 2 where its name stands for something in the innermost scope, 14 where there is no value, or none that an
/// `int` has.
pub fn bind_enumerator(
    scopes: &mut Scopes,
    types: &TypeTable,
    enumerator: &Enumerator,
    value: Option<i128>,
) -> Result<i128, TypeFault>
    requires { ScopesIn types.now scopes.old }
    ensures { AnswersNumber (spec.enumerator_bound enumerator.now.pos enumerator.now.name value
        (env_of scopes.old types.now)) types.now scopes.new types.now result }
{
    let known = scopes.here(&enumerator.name, false).copied();
    let n = match ruled_value(enumerator.pos, known, value) {
        Err(fault) => return Err(fault),
        Ok(n) => n,
    };
    match bind_name(
        scopes,
        types,
        &enumerator.name,
        Binding::Constant(types.basic(Basic::Int), n),
    ) {
        Err(cause) => Err(TypeFault::Memory(cause)),
        Ok(()) => Ok(n),
    }
}
