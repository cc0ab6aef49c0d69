//! Expressions as values (6.3.2.1).
ghost use Rattle.std.specs.Prelude.{◌≡◌, ◌<◌, true, IfOk};
ghost use Rattle.c_types.specs.CType.{type_of};
ghost use Rattle.c_types.specs.Compatible.{compatible};
ghost use Rattle.c_types.specs.Composite.{composite_of};
ghost use Rattle.c_types.specs.Qualified.{with_quals, without_quals};
ghost use Rattle.c_types.specs.Structures.{structures_of};
ghost use Rattle.c_types.specs.Types.{count_of};
ghost use Rattle.c_core.specs.Ids.{CoreIn, IdIn};
ghost use Rattle.c_core.specs.Tree.{At};
ghost use Rattle.c_core.specs.View.{core_of};
ghost use Rattle.c_scopes.specs.Clauses.{Makes};
ghost use Rattle.c_conversions.specs.Kinds as kinds;
ghost use Rattle.c_conversions.specs.Versions.{own_unqualified};
ghost use Rattle.c_conversions.specs.Parts as spec;
ghost use Rattle.c_conversions.specs.Parts.{part_of, PartIn};

use crate::content::scalar;
use crate::operand::{Category, Operand};
use c_core::{CoreExpr, CoreNode, Scalar};
use c_types::{Layout, Quals, Shape, TypeId, TypeTable};
use std::alloc::AllocError;

/// A pointer to that type.
pub fn pointer_to(types: &mut TypeTable, to: TypeId) -> Result<TypeId, AllocError>
    requires { to.0 < count_of types.old }
    ensures { IfOk result (Makes type_of IdIn (kinds.pointer_to (type_of types.old to)) types.old types.new) }
{
    types.pointer(to)
}

/// The unqualified version of a type.
pub fn unqualified(types: &mut TypeTable, of: TypeId) -> Result<TypeId, AllocError>
    requires { of.0 < count_of types.old }
    ensures { IfOk result (Makes type_of IdIn (without_quals (type_of types.old of)) types.old types.new) }
{
    types.unqualified(of)
}

/// A type with more qualifiers.
pub fn qualified(types: &mut TypeTable, of: TypeId, quals: Quals) -> Result<TypeId, AllocError>
    requires { of.0 < count_of types.old }
    ensures { IfOk result (Makes type_of IdIn (with_quals quals (type_of types.old of)) types.old types.new) }
{
    types.qualified(of, quals)
}

/// The type without the qualifiers that it has itself; an array stays as it is (6.7.3p9).
#[tactic(auto, using(c_scopes::proofs::Keeps::keeps_own))]
pub fn own_unqualified(types: &mut TypeTable, of: TypeId) -> Result<TypeId, AllocError>
    requires { of.0 < count_of types.old }
    ensures { IfOk result (Makes type_of IdIn (own_unqualified (type_of types.old of)) types.old types.new) }
{
    match types.shape(of) {
        Shape::Array(_, _) => Ok(of),
        _ => types.unqualified(of),
    }
}

/// The composite type of two compatible types (6.2.7p3).
pub fn composite(types: &mut TypeTable, a: TypeId, b: TypeId) -> Result<TypeId, AllocError>
    requires a { a.0 < count_of types.old }
    requires b { b.0 < count_of types.old }
    requires compatible { compatible (type_of types.old a) (type_of types.old b) ≡ true }
    ensures { IfOk result (Makes type_of IdIn (composite_of (type_of types.old a) (type_of types.old b))
        types.old types.new) }
{
    types.composite(a, b)
}

// What an object that is no array holds, as a value of that type.
#[tactic(auto, using(c_scopes::proofs::Keeps::keeps_own))]
fn held_value(
    types: &TypeTable,
    held: Option<Scalar>,
    of: TypeId,
    core: CoreExpr,
) -> Result<CoreExpr, AllocError>
    requires of { of.0 < count_of types.now }
    requires core { CoreIn types.now core }
    ensures { IfOk result (Makes core_of CoreIn (spec.held_value held (type_of types.now of) (core_of types.now core))
        types.now types.now) }
{
    let pos = core.pos;
    match held {
        None => Ok(CoreExpr {
            of,
            pos,
            node: core.node,
        }),
        Some(scalar) => {
            let node = CoreNode::Load(scalar, Box::new(types.alloc(), core)?);
            Ok(CoreExpr { of, pos, node })
        }
    }
}

// The value of an object that is no array, in the unqualified version of its type.
fn loaded(
    types: &mut TypeTable,
    held: Option<Scalar>,
    core: CoreExpr,
) -> Result<CoreExpr, AllocError>
    requires { CoreIn types.old core }
    ensures { IfOk result (Makes core_of CoreIn (spec.loaded held (core_of types.old core)) types.old types.new) }
{
    let of = unqualified(types, core.of)?;
    let made = held_value(types, held, of, core)?;
    Ok(made)
}

// The pointer to the first element of an array with this layout, as that type.
#[tactic(auto, using(c_scopes::proofs::Keeps::keeps_own))]
fn first_element(
    types: &TypeTable,
    of: TypeId,
    layout: Option<Layout>,
    core: CoreExpr,
) -> Result<CoreExpr, AllocError>
    requires of { of.0 < count_of types.now }
    requires core { CoreIn types.now core }
    ensures { IfOk result (Makes core_of CoreIn (At (type_of types.now of) core.pos
        (spec.first_element layout (core_of types.now core))) types.now types.now) }
{
    let pos = core.pos;
    let place = Box::new(types.alloc(), core)?;
    match layout {
        None => Ok(CoreExpr {
            of,
            pos,
            node: CoreNode::AddressOf(place),
        }),
        Some(layout) => Ok(CoreExpr {
            of,
            pos,
            node: CoreNode::Narrow(layout.size, place),
        }),
    }
}

// The pointer to the first element of an array.
fn decayed(types: &mut TypeTable, element: TypeId, core: CoreExpr) -> Result<CoreExpr, AllocError>
    requires element { element.0 < count_of types.old }
    requires core { CoreIn types.old core }
    ensures { IfOk result (Makes core_of CoreIn (spec.decayed (structures_of types.old) (type_of types.old element)
        (core_of types.old core)) types.old types.new) }
{
    let layout = types.layout(core.of);
    let of = pointer_to(types, element)?;
    let made = first_element(types, of, layout, core)?;
    Ok(made)
}

fn object_value(types: &mut TypeTable, core: CoreExpr) -> Result<CoreExpr, AllocError>
    requires { CoreIn types.old core }
    ensures { IfOk result (Makes core_of CoreIn (spec.object_value (structures_of types.old) (core_of types.old core))
        types.old types.new) }
{
    match types.shape(core.of) {
        Shape::Array(of, _) => decayed(types, of, core),
        _ => {
            let held = scalar(types, core.of);
            loaded(types, held, core)
        }
    }
}

/// An expression that is used as a value: an object becomes what it holds, an array the pointer to its first element
/// (6.3.2.1p2 to p4).
#[tactic(auto, using(c_scopes::proofs::Keeps::keeps_own))]
pub fn as_value(types: &mut TypeTable, operand: Operand) -> Result<Operand, AllocError>
    requires { PartIn types.old operand }
    ensures { IfOk result (Makes part_of PartIn (spec.as_value (structures_of types.old) (part_of types.old operand))
        types.old types.new) }
{
    let Operand {
        category,
        null,
        core,
    } = operand;
    let core = match category {
        Category::Value | Category::Designator => core,
        Category::Temporary | Category::Lvalue(_) => object_value(types, core)?,
    };
    Ok(Operand {
        category: Category::Value,
        null,
        core,
    })
}
