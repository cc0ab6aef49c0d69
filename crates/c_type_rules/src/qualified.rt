//! Qualified types and pointers.

ghost use Rattle.std.specs.Prelude.{◌≡◌, ◌<◌, IfSome};
ghost use Rattle.c_types.specs.declared.shape.TypeId.{TypeId};
ghost use Rattle.c_types.specs.CType.{type_of};
ghost use Rattle.c_types.specs.Types.{count_of};
ghost use Rattle.c_scopes.specs.Clauses.{RulesType, Settles, type_or_none};
ghost use Rattle.c_type_rules.specs.Qualified as spec;

use c_conversions::versions::is_function;
use c_core::TypeFault;
use c_syntax::Qualifier;
use c_types::{Quals, Shape, TypeId, TypeTable};
use critical_table::Pos;

fn with_qualifier(quals: Quals, word: Qualifier) -> Quals
    ensures { result ≡ spec.with_qualifier quals word }
{
    match word {
        Qualifier::Const => Quals {
            constant: true,
            ..quals
        },
        Qualifier::Volatile => Quals {
            volatile: true,
            ..quals
        },
        Qualifier::Restrict => Quals {
            restricted: true,
            ..quals
        },
    }
}

/// The qualifiers that some words name (6.7.3p5).
pub fn qualifiers(words: &[Qualifier]) -> Quals
    ensures { result ≡ spec.quals_of_words words.now }
{
    let mut quals = Quals::NONE;
    for word in words {
        quals = with_qualifier(quals, *word);
    }
    quals
}

// A pointer to an object type, or an array of such.
fn may_be_restricted(types: &TypeTable, id: TypeId) -> bool
    requires { id.0 < count_of types.now }
    ensures { result ≡ spec.may_be_restricted (type_of types.now id) }
{
    match types.shape(id) {
        Shape::Pointer(to) => !is_function(types, to),
        Shape::Array(of, _) => may_be_restricted(types, of),
        Shape::Basic(_) => false,
        Shape::Enumerated(_) => false,
        Shape::Function(_) => false,
        Shape::Compound(_) => false,
    }
}

fn may_known_be_restricted(types: &TypeTable, known: Option<TypeId>) -> bool
    requires { IfSome known (λ (id : TypeId). id.0 < count_of types.now) }
    ensures { result ≡ spec.may_known_be_restricted (type_or_none types.now known) }
{
    match known {
        None => false,
        Some(id) => may_be_restricted(types, id),
    }
}

/// A qualifier among specifiers; `known` is what their typedef name stands for, where they have one (6.7.3p2).
///
/// Constraint 12 for `restrict` on anything but a pointer to an object type.
pub fn restrict(
    types: &TypeTable,
    pos: Pos,
    known: Option<TypeId>,
    word: Qualifier,
) -> Result<(), TypeFault>
    requires { IfSome known (λ (id : TypeId). id.0 < count_of types.now) }
    ensures { Settles (spec.restrict_rule (type_or_none types.now known) word) pos result }
{
    match word {
        Qualifier::Const | Qualifier::Volatile => Ok(()),
        Qualifier::Restrict => {
            if may_known_be_restricted(types, known) {
                Ok(())
            } else {
                Err(TypeFault::Constraint(12, pos))
            }
        }
    }
}

/// A pointer to that type, with these qualifiers (6.7.6.1).
///
/// Constraint 12 for `restrict` on a pointer to a function.
pub fn pointer_type(
    types: &mut TypeTable,
    pos: Pos,
    to: TypeId,
    quals: Quals,
) -> Result<TypeId, TypeFault>
    requires { to.0 < count_of types.old }
    ensures { RulesType (spec.pointer_rule quals (type_of types.old to)) pos types.old types.new result }
{
    if quals.restricted && is_function(types, to) {
        return Err(TypeFault::Constraint(12, pos));
    }
    let pointer = types.pointer(to)?;
    let made = types.qualified(pointer, quals)?;
    Ok(made)
}
