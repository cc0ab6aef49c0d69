//! Enumerators and their values.

ghost use Rattle.std.specs.Prelude.{◌≡◌, option_map};
ghost use Rattle.c_types.specs.Types.{Types};
ghost use Rattle.c_scopes.specs.Clauses.{Settles};
ghost use Rattle.c_scopes.specs.Named.{named_of};
ghost use Rattle.c_type_rules.specs.Enumerators as spec;

use c_core::{ConstFault, TypeFault};
use c_scopes::Binding;
use critical_table::Pos;

/// The value that an expression gives an enumerator, by what it is as an integer constant expression; none where it is
/// none (6.7.2.2p2).
///
/// Constraint 42 where an operation in it is undefined.
pub fn given_value(pos: Pos, constant: Result<i128, ConstFault>) -> Result<Option<i128>, TypeFault>
    ensures { Settles (spec.given_value_rule constant) pos result }
{
    match constant {
        Ok(n) => Ok(Some(n)),
        Err(ConstFault::NotConstant) => Ok(None),
        Err(ConstFault::Value) => Err(TypeFault::Constraint(42, pos)),
    }
}

/// An enumerator of that value; `here` is what its name stands for in the innermost scope (6.7.2.2p2, p3).
///
/// Constraint 2 where the name stands for something there, 14 where there is no value, or none that an `int` has.
pub fn enumerator(pos: Pos, here: Option<Binding>, value: Option<i128>) -> Result<i128, TypeFault>
    ensures { (types : Types) → Settles (spec.enumerator_rule (option_map (named_of types) here) value) pos result }
{
    if here.is_some() {
        return Err(TypeFault::Constraint(2, pos));
    }
    let Some(n) = value else {
        return Err(TypeFault::Constraint(14, pos));
    };
    if n < -2_147_483_648 || 2_147_483_647 < n {
        return Err(TypeFault::Constraint(14, pos));
    }
    Ok(n)
}
