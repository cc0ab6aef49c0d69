//! Static assertions.

ghost use Rattle.std.specs.Prelude.{◌≡◌};
ghost use Rattle.c_scopes.specs.Clauses.{Settles};
ghost use Rattle.c_statement_rules.specs.Assertions as rule;

use c_core::TypeFault;
use critical_table::Pos;

/// An assertion at that place, by the value of its integer constant expression, or none where it is no such expression
/// (6.7.10p2, p3).
///
/// Constraint 15 where the value is 0, or where there is none.
pub fn assertion(pos: Pos, value: Option<i128>) -> Result<(), TypeFault>
    ensures { Settles (rule.assertion_rule value) pos result }
{
    match value {
        None => Err(TypeFault::Constraint(15, pos)),
        Some(n) => {
            if n == 0 {
                return Err(TypeFault::Constraint(15, pos));
            }
            Ok(())
        }
    }
}
