//! Calls (6.5.2.2).
ghost use Rattle.std.specs.Prelude.{◌≡◌, map, IfOk};
ghost use Rattle.c_types.specs.CType.{type_of};
ghost use Rattle.c_types.specs.Functions.{IsFunction, gives_of, parameters_of, variadic_of};
ghost use Rattle.c_types.specs.Structures.{structures_of};
ghost use Rattle.c_core.specs.Ids.{CoreIn, CoresIn, IdIn};
ghost use Rattle.c_core.specs.Tree.{At, cores};
ghost use Rattle.c_core.specs.Tree as tree;
ghost use Rattle.c_core.specs.View.{core_of};
ghost use Rattle.c_scopes.specs.Clauses.{Makes, Rules};
ghost use Rattle.c_conversions.specs.Parts as part;
ghost use Rattle.c_conversions.specs.Parts.{part_of, PartIn};
ghost use Rattle.c_expr_rules.specs.Calls as rule;

use crate::operand::value;
use crate::targets::target;
use c_conversions::content::given;
use c_conversions::converting::{converts, passed, promoted_value};
use c_conversions::operand::Operand;
use c_conversions::versions::{is_compound, is_function, is_pointer};
use c_core::{Content, CoreExpr, CoreNode, TypeFault};
use c_types::{Basic, TypeId, TypeTable};
use critical_table::Pos;
use std::alloc::AllocError;

/// A value at that place that is an argument for a parameter of that type.
///
/// Constraint 30 breaks exactly where it may not be converted.
pub fn pass(
    types: &mut TypeTable,
    pos: Pos,
    to: TypeId,
    operand: Operand,
) -> Result<CoreExpr, TypeFault>
    requires to { IdIn types.old to }
    requires operand { PartIn types.old operand }
    ensures { Rules core_of CoreIn (rule.pass_rule (structures_of types.old) (type_of types.old to)
        (part_of types.old operand)) pos types.old types.new result }
{
    if !converts(types, to, &operand) {
        return Err(TypeFault::Constraint(30, pos));
    }
    let made = passed(types, to, operand)?;
    Ok(made)
}

/// A value at that place that is an argument behind the parameters of a variadic function.
///
/// Constraint 30 breaks exactly where it is a structure or union.
pub fn pass_further(types: &TypeTable, pos: Pos, operand: Operand) -> Result<CoreExpr, TypeFault>
    requires { PartIn types.now operand }
    ensures { Rules core_of CoreIn (rule.further_rule (part_of types.now operand)) pos types.now types.now result }
{
    if is_compound(types, operand.core.of) {
        return Err(TypeFault::Constraint(30, pos));
    }
    let made = promoted_value(types, operand.core)?;
    Ok(made)
}

// A pointer to a function.
fn may_call(types: &TypeTable, function: &Operand) -> bool
    requires { PartIn types.now function.now }
    ensures { result ≡ rule.may_call (part_of types.now function.now) }
{
    is_pointer(types, function.core.of) && is_function(types, target(types, function.core.of))
}

// What a function gives; `void` stands for what is none.
fn result_type(types: &TypeTable, function: TypeId) -> TypeId
    requires { IdIn types.now function }
    ensures is_there { IdIn types.now result }
    ensures stands_for { type_of types.now result ≡ gives_of (type_of types.now function) }
{
    if is_function(types, function) {
        return types.gives(function);
    }
    types.basic(Basic::Void)
}

fn has_result(types: &TypeTable, function: &Operand) -> bool
    requires { PartIn types.now function.now }
    ensures { result ≡ rule.has_result (structures_of types.now) (part_of types.now function.now) }
{
    let gives = result_type(types, target(types, function.core.of));
    !may_call(types, function) || given(types, gives).is_some()
}

fn is_enough(variadic: bool, wanted: usize, given: usize) -> bool
    ensures { result ≡ rule.is_enough variadic wanted given }
{
    wanted == given || (variadic && wanted < given)
}

// As many arguments as parameters, or more where the function is variadic.
#[tactic(auto, using(crate::proofs::Counting::count_of_parameters, crate::proofs::Counting::count_of_arguments))]
fn are_as_many(types: &TypeTable, function: TypeId, arguments: &[CoreExpr]) -> bool
    requires is_there { IdIn types.now function }
    requires is_function { IsFunction (type_of types.now function) }
    ensures { result ≡ rule.are_as_many (parameters_of (type_of types.now function))
        (variadic_of (type_of types.now function)) (cores (map (core_of types.now) arguments.now)) }
{
    let wanted = types.parameters(function).len();
    is_enough(types.is_variadic(function), wanted, arguments.len())
}

fn or_nothing(given: Option<Option<Content>>) -> Option<Content>
    ensures { result ≡ rule.or_nothing given }
{
    match given {
        None => None,
        Some(given) => given,
    }
}

/// A function that is called, and its arguments.
#[derive(Drop)]
pub struct Called {
    pub function: Operand,
    pub arguments: Vec<CoreExpr>,
}

// A call that gives this, as a value of that type.
fn call_at(
    types: &TypeTable,
    at: (TypeId, Pos),
    how: (bool, Option<Content>),
    called: Called,
) -> Result<Operand, AllocError>
    requires of { IdIn types.now at.0 }
    requires function { PartIn types.now called.function }
    requires arguments { CoresIn types.now called.arguments.items }
    ensures { IfOk result (Makes part_of PartIn (part.value (At (type_of types.now at.0) at.1 (tree.Call how.0 how.1
        (part_of types.now called.function).core (cores (map (core_of types.now) called.arguments.items)))))
        types.now types.now) }
{
    let (of, pos) = at;
    let (used, gives) = how;
    let function = Box::new(types.alloc(), called.function.core)?;
    let node = CoreNode::Call(used, gives, function, called.arguments);
    Ok(value(CoreExpr { of, pos, node }))
}

// The call of a function.
fn call_value(
    types: &TypeTable,
    pos: Pos,
    used: bool,
    called: Called,
) -> Result<Operand, AllocError>
    requires function { PartIn types.now called.function }
    requires arguments { CoresIn types.now called.arguments.items }
    ensures { IfOk result (Makes part_of PartIn (rule.call_part (structures_of types.now) pos used
        (part_of types.now called.function) (cores (map (core_of types.now) called.arguments.items)))
        types.now types.now) }
{
    let of = result_type(types, target(types, called.function.core.of));
    let gives = or_nothing(given(types, of));
    let used = used && gives.is_some();
    let made = call_at(types, (of, pos), (used, gives), called)?;
    Ok(made)
}

/// A call of an expression that is converted as a value, with arguments that are values of their parameters' types. The
/// flag tells that the value of the call is used.
///
/// Constraint 7 breaks where a function gives an incomplete type, else 32 where it is no function, else 33 where the
/// arguments are too few or too many.
pub fn call(types: &TypeTable, pos: Pos, used: bool, call: Called) -> Result<Operand, TypeFault>
    requires function { PartIn types.now call.function }
    requires arguments { CoresIn types.now call.arguments.items }
    ensures { Rules part_of PartIn (rule.call_rule (structures_of types.now) pos used
        (part_of types.now call.function) (cores (map (core_of types.now) call.arguments.items)))
        pos types.now types.now result }
{
    if !has_result(types, &call.function) {
        return Err(TypeFault::Constraint(7, pos));
    }
    if !may_call(types, &call.function) {
        return Err(TypeFault::Constraint(32, pos));
    }
    let function = target(types, call.function.core.of);
    if !are_as_many(types, function, &call.arguments) {
        return Err(TypeFault::Constraint(33, pos));
    }
    let made = call_value(types, pos, used, call)?;
    Ok(made)
}
