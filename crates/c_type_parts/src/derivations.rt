//! What the derivations of a declarator make of a type.

ghost use Rattle.std.specs.Prelude.{◌≡◌, ◌++◌, ◌∷◌, [], IfOk, List};
ghost use Rattle.c_types.specs.CType.{type_of};
ghost use Rattle.c_types.specs.Structures.{structures_of};
ghost use Rattle.c_core.specs.Ids.{IdIn};
ghost use Rattle.c_scopes.specs.Clauses.{RulesType};
ghost use Rattle.c_scopes.specs.Env.{ScopesIn, env_of};
ghost use Rattle.c_scopes.specs.Scopes.{Scope};
ghost use Rattle.c_type_parts.specs.Clauses.{AnswersType};
ghost use Rattle.c_type_parts.specs.Declaring as spec;
ghost use Rattle.c_type_parts.specs.Seen.{DerivationIn, DerivedIn, derivation_of, derived_list};

use c_core::TypeFault;
use c_type_rules::{ParameterList, array_type, function_type, pointer_type};
use c_types::{Quals, TypeId, TypeTable};
use critical_table::Pos;
use std::alloc::AllocError;

/// What stands around a declarator.
#[derive(Clone, Copy, Debug, PartialEq, Eq)]
pub struct Around {
    /// The next node that has a place.
    pub at: Pos,
    /// The declared name may be that of the function with `...`.
    pub may_vary: bool,
}

/// How a declarator goes on from a type to another (6.2.5p20).
#[derive(Drop)]
pub enum Derivation {
    /// With the qualifiers of the pointer (6.7.6.1).
    Pointer(Quals),
    /// With the length, unless it was left out (6.7.6.2).
    Array(Option<u64>),
    /// 6.7.6.3
    Function(ParameterList),
}

/// A derivation, and the place of an array's length.
#[derive(Drop)]
pub struct Derived {
    pub derivation: Derivation,
    pub length_at: Option<Pos>,
}

/// Where the constraints on derivations are told: at the declared name; without one at the next node around, or at an
/// array's length.
#[derive(Clone, Copy, Debug, PartialEq, Eq)]
pub struct DerivationSite {
    pub name_at: Option<Pos>,
    pub around: Pos,
}

fn derivation_place(site: DerivationSite, derived: &Derived) -> Pos
    ensures { result ≡ spec.derivation_place site.name_at site.around derived.now.length_at }
{
    match site.name_at {
        Some(at) => at,
        None => match derived.length_at {
            Some(at) => at,
            None => site.around,
        },
    }
}

/// A type that is derived from another (6.7.6.1 to 6.7.6.3).
///
/// Each constraint on pointers, arrays and functions comes as its rule has it.
pub fn derivation_type(
    types: &mut TypeTable,
    pos: Pos,
    of: TypeId,
    derivation: &Derivation,
) -> Result<TypeId, TypeFault>
    requires of { IdIn types.old of }
    requires derivation { DerivationIn types.old derivation.now }
    ensures { RulesType (spec.derivation_rule (structures_of types.old) (type_of types.old of)
        (derivation_of types.old derivation.now)) pos types.old types.new result }
{
    match derivation {
        Derivation::Pointer(quals) => pointer_type(types, pos, of, *quals),
        Derivation::Array(length) => array_type(types, pos, of, *length),
        Derivation::Function(list) => function_type(types, pos, of, list),
    }
}

/// The type that derivations, from the declared name outwards, make of the type of specifiers (6.7.6p4 and on).
pub fn derived_type(
    types: &mut TypeTable,
    site: DerivationSite,
    base: TypeId,
    all: &[Derived],
) -> Result<TypeId, TypeFault>
    requires base { IdIn types.old base }
    requires all { DerivedIn types.old all.now }
    ensures { (scopes : List Scope) → ScopesIn types.old scopes → AnswersType
        (spec.derived_type site.name_at site.around
        (type_of types.old base) (derived_list types.old all.now) (env_of scopes types.old)) types.old scopes types.new
        result }
{
    let [first, outer @ ..] = all else {
        return Ok(base);
    };
    match derived_type(types, site, base, outer) {
        Err(fault) => Err(fault),
        Ok(of) => derivation_type(types, derivation_place(site, first), of, &first.derivation),
    }
}

/// Derivations with one more behind them.
pub fn with_derived(
    mut all: Vec<Derived>,
    derivation: Derivation,
    length_at: Option<Pos>,
) -> Result<Vec<Derived>, AllocError>
    ensures { IfOk result (λ more. more.items ≡ all.items ++ record { derivation = derivation; length_at = length_at }
        ∷ []) }
{
    all.push(Derived {
        derivation,
        length_at,
    })?;
    Ok(all)
}
