//! Arrays and their lengths.

ghost use Rattle.std.specs.Prelude.{◌≡◌, ◌<◌, IfSome};
ghost use Rattle.c_types.specs.CType.{type_of};
ghost use Rattle.c_types.specs.Structures.{structures_of};
ghost use Rattle.c_types.specs.Types.{count_of};
ghost use Rattle.c_scopes.specs.Clauses.{RulesType, Settles};
ghost use Rattle.c_type_rules.specs.Arrays as spec;

use c_conversions::versions::is_function;
use c_core::{ConstFault, TypeFault};
use c_types::{BuildFault, LayoutFault, Shape, TypeId, TypeTable};
use critical_table::Pos;

/// The length of an array by what its expression is as an integer constant expression (6.7.6.2p1).
///
/// Constraint 9 where it is none, or none above 0; 42 where an operation in it is undefined.
pub fn length(pos: Pos, constant: Result<i128, ConstFault>) -> Result<u64, TypeFault>
    ensures { Settles (spec.length_rule constant) pos result }
{
    match constant {
        Ok(n) => {
            if 0 < n && n < 1 << 64 {
                Ok(n as u64)
            } else {
                Err(TypeFault::Constraint(9, pos))
            }
        }
        Err(ConstFault::NotConstant) => Err(TypeFault::Constraint(9, pos)),
        Err(ConstFault::Value) => Err(TypeFault::Constraint(42, pos)),
    }
}

/// The type is an array whose length was left out (6.2.5p22).
pub fn is_without_length(types: &TypeTable, id: TypeId) -> bool
    requires { id.0 < count_of types.now }
    ensures { result ≡ spec.is_without_length (type_of types.now id) }
{
    match types.shape(id) {
        Shape::Array(_, None) => true,
        Shape::Array(_, Some(_)) => false,
        Shape::Pointer(_) => false,
        Shape::Basic(_) => false,
        Shape::Enumerated(_) => false,
        Shape::Function(_) => false,
        Shape::Compound(_) => false,
    }
}

/// An array of that many elements, or one whose length is left out (6.7.6.2).
///
/// Constraint 7 where the type of an element is incomplete, 8 where the array is too large, 9 where the length of an
/// element was left out, 10 where elements are functions.
#[tactic(auto, using(crate::proofs::Elements::verdicts))]
pub fn array_type(
    types: &mut TypeTable,
    pos: Pos,
    of: TypeId,
    length: Option<u64>,
) -> Result<TypeId, TypeFault>
    requires of { of.0 < count_of types.old }
    requires length { IfSome length (λ n. 0 < n) }
    ensures { RulesType (spec.array_rule (structures_of types.old) (type_of types.old of) length) pos
        types.old types.new result }
{
    if is_function(types, of) {
        return Err(TypeFault::Constraint(10, pos));
    }
    if is_without_length(types, of) {
        return Err(TypeFault::Constraint(9, pos));
    }
    match types.array(of, length) {
        Ok(made) => Ok(made),
        Err(BuildFault::Layout(LayoutFault::Incomplete)) => Err(TypeFault::Constraint(7, pos)),
        Err(BuildFault::Layout(LayoutFault::TooLarge)) => Err(TypeFault::Constraint(8, pos)),
        Err(BuildFault::Memory(cause)) => Err(TypeFault::Memory(cause)),
    }
}
