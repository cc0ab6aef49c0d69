//! Functions and their parameters.

ghost use Rattle.std.specs.Prelude.{◌≡◌, ◌<◌, All, IfOk};
ghost use Rattle.c_types.specs.declared.shape.TypeId.{TypeId};
ghost use Rattle.c_types.specs.CType.{all_types, type_of, types_at};
ghost use Rattle.c_types.specs.Types.{count_of};
ghost use Rattle.c_core.specs.Ids.{IdIn};
ghost use Rattle.c_scopes.specs.Clauses.{Makes, RulesType};
ghost use Rattle.c_type_rules.specs.Functions as spec;

use c_conversions::versions::{is_array, is_function, is_void};
use c_core::TypeFault;
use c_types::{Shape, TypeId, TypeTable};
use critical_table::Pos;
use std::alloc::AllocError;

/// The parameters of a function, each with its adjusted type.
#[derive(Drop)]
pub struct ParameterList {
    pub types: Vec<TypeId>,
    /// `...` stands behind them.
    pub variadic: bool,
    /// The function may have `...`.
    pub may_vary: bool,
}

// The type of a parameter that was declared with this one.
fn adjusted(types: &mut TypeTable, id: TypeId) -> Result<TypeId, AllocError>
    requires { id.0 < count_of types.old }
    ensures { IfOk result
        (λ made. Makes type_of IdIn (spec.adjusted (type_of types.old id)) types.old types.new made) }
{
    match types.shape(id) {
        Shape::Array(of, _) => {
            let made = types.pointer(of)?;
            Ok(made)
        }
        Shape::Function(_) => {
            let made = types.pointer(id)?;
            Ok(made)
        }
        Shape::Basic(_) => Ok(id),
        Shape::Pointer(_) => Ok(id),
        Shape::Enumerated(_) => Ok(id),
        Shape::Compound(_) => Ok(id),
    }
}

/// The type of a parameter that was declared with this one (6.7.6.3p7, p8).
///
/// Constraint 45 for `void`, unless it stands alone and is no parameter.
pub fn parameter_type(types: &mut TypeTable, pos: Pos, of: TypeId) -> Result<TypeId, TypeFault>
    requires { of.0 < count_of types.old }
    ensures { RulesType (spec.parameter_rule (type_of types.old of)) pos types.old types.new result }
{
    if is_void(types, of) {
        return Err(TypeFault::Constraint(45, pos));
    }
    let made = adjusted(types, of)?;
    Ok(made)
}

/// A function of these parameters (6.7.6.3p1).
///
/// Constraint 10 where it gives an array or a function, 43 where it has `...` and may not.
pub fn function_type(
    types: &mut TypeTable,
    pos: Pos,
    gives: TypeId,
    parameters: &ParameterList,
) -> Result<TypeId, TypeFault>
    requires gives { gives.0 < count_of types.old }
    requires parameters { All (λ (p : TypeId). p.0 < count_of types.old) parameters.now.types.items }
    ensures { RulesType (spec.function_rule (type_of types.old gives)
        (types_at (all_types types.old) parameters.now.types.items)
        parameters.now.variadic parameters.now.may_vary) pos types.old types.new result }
{
    if is_array(types, gives) || is_function(types, gives) {
        return Err(TypeFault::Constraint(10, pos));
    }
    if parameters.variadic && !parameters.may_vary {
        return Err(TypeFault::Constraint(43, pos));
    }
    let made = types.function(gives, parameters.types.as_slice(), parameters.variadic)?;
    Ok(made)
}
