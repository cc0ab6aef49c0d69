//! Constants, names and string literals (6.5.1).

ghost use Rattle.std.specs.Prelude.{◌≡◌, ◌≤◌, ◌^◌, MatchOption, false};
ghost use Rattle.c_scopes.specs.Clauses.{Rules};
ghost use Rattle.c_scopes.specs.Env.{ScopesIn, env_of};
ghost use Rattle.c_scopes.specs.Scopes.{found};
ghost use Rattle.c_conversions.specs.Parts.{part_of, PartIn};
ghost use Rattle.c_expr_rules.specs.Primary as primary;
ghost use Rattle.c_expr.specs.Operands as rule;

use c_conversions::operand::Operand;
use c_core::TypeFault;
use c_expr_rules::primary::{character, literal, name, number};
use c_scopes::Scopes;
use c_syntax::{Constant, Literals};
use c_types::TypeTable;
use critical_table::{Name, Pos};

/// An integer or character constant (6.4.4).
pub fn constant(types: &TypeTable, at: Pos, constant: Constant) -> Result<Operand, TypeFault>
    ensures { Rules part_of PartIn (rule.constant_rule at constant) at types.now types.now result }
{
    match constant {
        Constant::Number(written) => number(types, at, written),
        Constant::Character(n, _) => Ok(character(types, at, n)),
    }
}

/// A name (6.5.1p2).
pub fn identifier(
    scopes: &Scopes,
    types: &mut TypeTable,
    at: Pos,
    x: &Name,
) -> Result<Operand, TypeFault>
    requires { ScopesIn types.old scopes.now }
    ensures { Rules part_of PartIn (primary.name_rule at (found (env_of scopes.now types.old).scopes false x.now)) at
        types.old types.new result }
{
    let found = scopes.find(x, false).copied();
    name(types, at, found)
}

/// How many units adjacent literals have together, if a `u32` holds it (6.4.5p6).
pub fn units_among(text: &Literals) -> Option<u32>
    ensures { MatchOption result (2 ^ 32 ≤ rule.units_among text.now.units.items)
        (λ n. n ≡ rule.units_among text.now.units.items) }
{
    let mut count: u32 = 0;
    for piece in text.units.iter() {
        let Ok(more) = u32::try_from(piece.len()) else {
            return None;
        };
        match count.checked_add(more) {
            None => return None,
            Some(sum) => count = sum,
        }
    }
    Some(count)
}

/// Adjacent string literals (6.4.5p6).
pub fn string_literal(types: &mut TypeTable, at: Pos, text: &Literals) -> Result<Operand, TypeFault>
    ensures { Rules part_of PartIn (primary.literal_rule at text.now.wide (rule.units_among text.now.units.items)) at
        types.old types.new result }
{
    match units_among(text) {
        None => Err(TypeFault::Constraint(8, at)),
        Some(units) => literal(types, at, text.wide, units),
    }
}
