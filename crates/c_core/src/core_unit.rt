//! The checked tree of a unit.
ghost use Rattle.std.specs.Prelude.{◌≡◌};
ghost use Rattle.c_core.specs.Ids.{FunctionsIn};
ghost use Rattle.c_core.specs.TypedUnit.{IsWellTyped};
ghost use Rattle.c_core.specs.ViewUnit.{Parts, program_of};

use crate::function::CoreFunction;
use crate::static_object::CoreStatic;
use c_types::TypeTable;
use std::marker::Model;

/// The checked tree of a unit, which is well-typed: its functions in the order of their definitions, its static objects
/// and string literals in the order of their tokens, and the table of its types.
#[derive(Drop)]
pub struct Core {
    types: TypeTable,
    functions: Vec<CoreFunction>,
    statics: Vec<CoreStatic>,
}

impl Model for Core {
    ghost use Rattle.c_core.specs.ViewUnit.{Parts};

    ghost Value = { Parts };

    ghost use Rattle.std.specs.Coded.{codes};
    ghost use Rattle.c_core.specs.contracts.statement.CoreAction as a;

    ghost coded = { Prim.hlevel (codes, a.the_row.coded) };

    ghost use Rattle.c_core.specs.Inner.{parts_of};

    ghost view = { parts_of };

    ghost use Rattle.c_core.specs.Inner.{IsSoundInside};

    ghost invariant = { IsSoundInside };
}

impl Core {
    /// The unit of these functions and static objects.
    pub fn new(types: TypeTable, functions: Vec<CoreFunction>, statics: Vec<CoreStatic>) -> Core
        requires typed { IsWellTyped (program_of
            (record { types = types; functions = functions.items; statics = statics.items })) }
        requires ids { FunctionsIn types functions.items }
        ensures { result ≡ record { types = types; functions = functions.items; statics = statics.items } }
    {
        Core {
            types,
            functions,
            statics,
        }
    }

    /// The functions in the order of their definitions.
    pub fn functions(&self) -> &[CoreFunction]
        ensures { result.now ≡ self.now.functions }
    {
        &self.functions
    }

    /// The static objects and string literals in the order of their tokens.
    pub fn statics(&self) -> &[CoreStatic]
        ensures { result.now ≡ self.now.statics }
    {
        &self.statics
    }

    /// The types.
    pub fn types(&self) -> &TypeTable
        ensures { result.now ≡ self.now.types }
    {
        &self.types
    }

    /// What is known of each unit: it is well-typed, and each id in it is one of its table's.
    pub fn typed_law(&self)
        ensures typed { IsWellTyped (program_of self.now) }
        ensures ids { FunctionsIn self.now.types self.now.functions }
    {
        let _functions = &self.functions;
    }
}
