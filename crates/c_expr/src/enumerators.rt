//! Enumerators and their values (6.7.2.2).

ghost use Rattle.std.specs.Prelude.{map};
ghost use Rattle.c_scopes.specs.Env.{ScopesIn, env_of};
ghost use Rattle.c_syntax.specs.View as view;
ghost use Rattle.c_type_parts.specs.Clauses.{AnswersUnit, AnswersValue};
ghost use Rattle.c_core.specs.Constant.{constant_of};
ghost use Rattle.c_conversions.specs.Parts.{part_of};
ghost use Rattle.c_scopes.specs.Clauses.{Settles};
ghost use Rattle.c_type_rules.specs.Enumerators.{first_value, given_value_rule};
ghost use Rattle.c_expr.specs.Typing as spec;

use crate::expression::value_operand;
use crate::operators::place_of;
use c_conversions::operand::Operand;
use c_core::{TypeFault, constant};
use c_scopes::Scopes;
use c_syntax::{Enumerator, Expr};
use c_type_parts::enumerating::bind_enumerator;
use c_type_rules::given_value;
use c_types::TypeTable;
use critical_table::Pos;

/// The enumerators of a body, each in scope behind its own value (6.2.1p7).
#[cycle(typing)]
pub(crate) fn enumerated(
    scopes: &mut Scopes,
    types: &mut TypeTable,
    list: &[Enumerator],
) -> Result<(), TypeFault>
    requires { ScopesIn types.old scopes.old }
    ensures { AnswersUnit (spec.enumerated (view.enumerators (map view.enumerator_of list.now)) first_value
        (env_of scopes.old types.old)) types.old scopes.new types.new result }
{
    let mut next: i128 = 0;
    for each in list {
        let value = match enumerator_value(scopes, types, &each.value, next) {
            Ok(value) => value,
            Err(fault) => return Err(fault),
        };
        match bind_enumerator(scopes, types, each, value) {
            Ok(n) => next = n + 1,
            Err(fault) => return Err(fault),
        }
    }
    Ok(())
}

// The value of an enumerator; `next` without an expression; none where its expression is no constant.
#[cycle(typing)]
fn enumerator_value(
    scopes: &mut Scopes,
    types: &mut TypeTable,
    given: &Option<Box<Expr>>,
    next: i128,
) -> Result<Option<i128>, TypeFault>
    requires { ScopesIn types.old scopes.old }
    ensures { AnswersValue (spec.enumerator_value (view.value_of given.now) next (env_of scopes.old types.old))
        types.old scopes.new types.new result }
{
    match given {
        None => Ok(Some(next)),
        Some(expr) => match value_operand(scopes, types, expr) {
            Ok(operand) => stated_value(types, place_of(expr), operand),
            Err(fault) => Err(fault),
        },
    }
}

// The value that a typed expression gives (6.7.2.2p2).
fn stated_value(types: &TypeTable, pos: Pos, operand: Operand) -> Result<Option<i128>, TypeFault>
    ensures { Settles (given_value_rule (constant_of (part_of types.now operand).core)) pos result }
{
    given_value(pos, constant(types, &operand.core))
}
