//! Jump statements.

ghost use Rattle.std.specs.Prelude.{◌≡◌};
ghost use Rattle.c_types.specs.CType.{type_of};
ghost use Rattle.c_types.specs.Structures.{structures_of};
ghost use Rattle.c_core.specs.Ids.{ActionIn, CoreIn, IdIn};
ghost use Rattle.c_core.specs.View.{core_of};
ghost use Rattle.c_core.specs.ViewUnit.{action_of};
ghost use Rattle.c_scopes.specs.Clauses.{Settles};
ghost use Rattle.c_statement_rules.specs.Jumps as rule;

use c_conversions::content::content;
use c_conversions::versions::is_void;
use c_core::{Content, CoreAction, CoreExpr, TypeFault};
use c_types::{TypeId, TypeTable};
use critical_table::Pos;

/// A `break` or `continue` at that place; `has_target` tells that a statement stands around it which it may leave or go
/// on with (6.8.6.2p1, 6.8.6.3p1).
///
/// Constraint 40 where none does.
pub fn jump(pos: Pos, has_target: bool) -> Result<(), TypeFault>
    ensures { Settles (rule.jump_rule has_target) pos result }
{
    if !has_target {
        return Err(TypeFault::Constraint(40, pos));
    }
    Ok(())
}

/// A `return` at that place, with an expression or without one, in a function that gives a value of the type
/// (6.8.6.4p1).
///
/// Constraint 41 where it has an expression and the type is `void`, or none and the type is another.
pub fn returned(
    types: &TypeTable,
    pos: Pos,
    gives: TypeId,
    with_value: bool,
) -> Result<(), TypeFault>
    requires { IdIn types.now gives }
    ensures { Settles (rule.return_rule (type_of types.now gives) with_value) pos result }
{
    if with_value == is_void(types, gives) {
        return Err(TypeFault::Constraint(41, pos));
    }
    Ok(())
}

// What is done with a value that a function gives as this.
fn hands_over(types: &TypeTable, content: Option<Content>, value: CoreExpr) -> CoreAction
    requires { CoreIn types.now value }
    ensures is { action_of types.now result ≡ rule.hands_over content (core_of types.now value) }
    ensures is_in { ActionIn types.now result }
{
    let _types = types;
    match content {
        None => CoreAction::ReturnValue(value),
        Some(Content::Scalar(_)) => CoreAction::ReturnValue(value),
        Some(Content::Whole(size)) => CoreAction::ReturnWhole(size, value),
    }
}

/// What a `return` does with a value that was converted to the type that its function gives (6.8.6.4p3).
pub fn returning(types: &TypeTable, gives: TypeId, value: CoreExpr) -> CoreAction
    requires gives { IdIn types.now gives }
    requires value { CoreIn types.now value }
    ensures is { action_of types.now result
        ≡ rule.returning (structures_of types.now) (type_of types.now gives) (core_of types.now value) }
    ensures is_in { ActionIn types.now result }
{
    hands_over(types, content(types, gives), value)
}
