//! Members of structures and unions (6.5.2.3).
ghost use Rattle.std.specs.Prelude.{◌≡◌, IfOk};
ghost use Rattle.c_types.specs.CType.{type_of};
ghost use Rattle.c_types.specs.Structures.{structures_of};
ghost use Rattle.c_core.specs.Ids.{CoreIn, IdIn};
ghost use Rattle.c_core.specs.Tree.{At};
ghost use Rattle.c_core.specs.Tree as tree;
ghost use Rattle.c_core.specs.View.{core_of};
ghost use Rattle.c_scopes.specs.Clauses.{Makes, Rules};
ghost use Rattle.c_conversions.specs.Parts.{part_of, PartIn};
ghost use Rattle.c_expr_rules.specs.Members as rule;

use crate::operand::lvalue;
use crate::pointers::reached;
use crate::targets::target;
use c_conversions::operand::{Category, Operand};
use c_conversions::value::qualified;
use c_core::{By, CoreExpr, CoreNode, TypeFault};
use c_types::{TypeId, TypeTable};
use critical_table::{Name, Pos};
use std::alloc::AllocError;

// A member, as that type.
#[tactic(auto, using(c_scopes::proofs::Keeps::keeps_own))]
fn member_at(
    types: &TypeTable,
    pos: Pos,
    member: (TypeId, u32),
    whole: CoreExpr,
) -> Result<CoreExpr, AllocError>
    requires of { IdIn types.now member.0 }
    requires whole { CoreIn types.now whole }
    ensures { IfOk result (Makes core_of CoreIn (At (type_of types.now member.0) pos
        (tree.Member member.1 (core_of types.now whole))) types.now types.now) }
{
    let (of, at) = member;
    let node = CoreNode::Member(at, Box::new(types.alloc(), whole)?);
    Ok(CoreExpr { of, pos, node })
}

// A member of that type and place, with the qualifiers of the whole.
fn member(
    types: &mut TypeTable,
    pos: Pos,
    member: (TypeId, u32),
    whole: CoreExpr,
) -> Result<CoreExpr, AllocError>
    requires of { IdIn types.old member.0 }
    requires whole { CoreIn types.old whole }
    ensures { IfOk result (Makes core_of CoreIn (rule.member_core pos (type_of types.old member.0, member.1)
        (core_of types.old whole)) types.old types.new) }
{
    let (of, at) = member;
    let quals = types.quals(whole.of);
    let of = qualified(types, of, quals)?;
    let made = member_at(types, pos, (of, at), whole)?;
    Ok(made)
}

fn member_category(category: Category) -> Category
    ensures { result ≡ rule.member_category category }
{
    match category {
        Category::Lvalue(register) => Category::Lvalue(register),
        Category::Temporary => Category::Temporary,
        Category::Value => Category::Temporary,
        Category::Designator => Category::Temporary,
    }
}

/// `E.name` of an expression that is not converted.
///
/// Constraint 34 breaks exactly where its type is no structure or union with such a member.
pub fn dot(
    types: &mut TypeTable,
    pos: Pos,
    name: &Name,
    operand: Operand,
) -> Result<Operand, TypeFault>
    requires { PartIn types.old operand }
    ensures { Rules part_of PartIn (rule.dot_rule (structures_of types.old) pos name.now (part_of types.old operand))
        pos types.old types.new result }
{
    let Some(found) = types.member(operand.core.of, name) else {
        return Err(TypeFault::Constraint(34, pos));
    };
    let category = member_category(operand.category);
    let core = member(types, pos, found, operand.core)?;
    Ok(Operand {
        category,
        null: false,
        core,
    })
}

/// `E->name` of an expression that is converted as a value.
///
/// Constraint 34 breaks exactly where its type is no pointer to a structure or union with such a member.
pub fn arrow(
    types: &mut TypeTable,
    pos: Pos,
    name: &Name,
    operand: Operand,
) -> Result<Operand, TypeFault>
    requires { PartIn types.old operand }
    ensures { Rules part_of PartIn (rule.arrow_rule (structures_of types.old) pos name.now
        (part_of types.old operand)) pos types.old types.new result }
{
    let of = target(types, operand.core.of);
    let Some(found) = types.member(of, name) else {
        return Err(TypeFault::Constraint(34, pos));
    };
    let whole = reached(types, pos, By::Arrow, operand.core)?;
    let core = member(types, pos, found, whole)?;
    Ok(lvalue(core))
}
