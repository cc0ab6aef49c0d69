//! Type names (6.7.7).

ghost use Rattle.c_scopes.specs.Env.{ScopesIn, env_of};
ghost use Rattle.c_syntax.specs.View.{type_name_of};
ghost use Rattle.c_type_parts.specs.Clauses.{AnswersType};
ghost use Rattle.c_expr.specs.Typing as spec;

use crate::around::{bare_context, no_ellipsis};
use crate::declarators::{Base, declared_type};
use crate::specifiers::specified;
use c_core::TypeFault;
use c_scopes::Scopes;
use c_syntax::TypeName;
use c_type_rules::Setting;
use c_types::{TypeId, TypeTable};
use critical_table::Pos;

/// The type that a type name names (6.7.7); a constraint on it that has no place of its own is told at the operator
/// around it.
#[cycle(typing)]
pub fn named(
    scopes: &mut Scopes,
    types: &mut TypeTable,
    around: Pos,
    name: &TypeName,
) -> Result<TypeId, TypeFault>
    requires { ScopesIn types.old scopes.old }
    ensures { AnswersType (spec.named around (type_name_of name.now) (env_of scopes.old types.old)) types.old scopes.new
        types.new result }
{
    let context = bare_context(Setting::TypeName);
    let of = specified(scopes, types, context, name.specifiers.as_slice())?;
    let base = Base {
        of,
        around: no_ellipsis(around),
    };
    declared_type(scopes, types, base, &name.declarator)
}
