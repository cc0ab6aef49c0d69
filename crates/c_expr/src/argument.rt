//! Arguments by the function that is called (6.5.2.2).

ghost use Rattle.std.specs.Prelude.{◌≡◌};
ghost use Rattle.std.specs.List.{slice_get};
ghost use Rattle.c_types.specs.Structures.{structures_of};
ghost use Rattle.c_core.specs.Ids.{CoreIn};
ghost use Rattle.c_core.specs.View.{core_of};
ghost use Rattle.c_scopes.specs.Clauses.{OptionIn, Rules, type_or_none};
ghost use Rattle.c_conversions.specs.Parts.{part_of, PartIn};
ghost use Rattle.c_expr.specs.Operands as rule;

use c_conversions::operand::Operand;
use c_conversions::versions::is_function;
use c_core::{CoreExpr, TypeFault};
use c_expr_rules::calls::{pass, pass_further};
use c_expr_rules::targets::target;
use c_expr_rules::uses::{used, value};
use c_types::{TypeId, TypeTable};
use critical_table::Pos;

/// What an argument is for: the parameter at its place, if there is one, and whether the function takes more arguments
/// than it has parameters.
#[derive(Clone, Copy, Debug, PartialEq, Eq)]
pub struct Expected {
    pub parameter: Option<TypeId>,
    pub variadic: bool,
}

// The parameter at that place, if there is one.
fn nth(parameters: &[TypeId], index: usize) -> Option<TypeId>
    ensures { result ≡ slice_get parameters.now index }
{
    parameters.get(index).copied()
}

/// What the argument at that place, counted from 0, is for.
pub fn expected_at(types: &TypeTable, function: &Operand, index: usize) -> Expected
    requires { PartIn types.now function.now }
    ensures is_in { OptionIn types.now result.parameter }
    ensures parameter { type_or_none types.now result.parameter
        ≡ rule.first_of (rule.types_behind index (rule.callee_parameters (part_of types.now function.now))) }
    ensures variadic { result.variadic ≡ rule.callee_varies (part_of types.now function.now) }
{
    let of = target(types, function.core.of);
    if !is_function(types, of) {
        return Expected {
            parameter: None,
            variadic: false,
        };
    }
    let parameter = nth(types.parameters(of), index);
    Expected {
        parameter,
        variadic: types.is_variadic(of),
    }
}

/// An argument at that place as a value.
pub fn argument_value(
    types: &mut TypeTable,
    at: Pos,
    parameter: Option<TypeId>,
    operand: Operand,
) -> Result<Operand, TypeFault>
    requires { PartIn types.old operand }
    ensures { Rules part_of PartIn (rule.argument_value_rule (structures_of types.old)
        (type_or_none types.old parameter) (part_of types.old operand)) at types.old types.new result }
{
    match parameter {
        None => value(types, at, operand),
        Some(_) => used(types, at, operand),
    }
}

/// A value at that place as an argument.
pub fn argument_core(
    types: &mut TypeTable,
    at: Pos,
    place: Expected,
    operand: Operand,
) -> Result<CoreExpr, TypeFault>
    requires parameter { OptionIn types.old place.parameter }
    requires operand { PartIn types.old operand }
    ensures { Rules core_of CoreIn (rule.argument_rule (structures_of types.old)
        (type_or_none types.old place.parameter) place.variadic (part_of types.old operand)) at types.old types.new
        result }
{
    match place.parameter {
        Some(to) => pass(types, at, to, operand),
        None => {
            if place.variadic {
                pass_further(types, at, operand)
            } else {
                Ok(operand.core)
            }
        }
    }
}
