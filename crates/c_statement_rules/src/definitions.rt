//! Function definitions.

ghost use Rattle.std.specs.Prelude.{◌≡◌, option_map};
ghost use Rattle.c_types.specs.CType.{type_of};
ghost use Rattle.c_types.specs.Functions.{IsFunction};
ghost use Rattle.c_types.specs.Structures.{structures_of};
ghost use Rattle.c_types.specs.Types.{Types};
ghost use Rattle.c_core.specs.Ids.{IdIn};
ghost use Rattle.c_scopes.specs.Clauses.{RulesType, Settles};
ghost use Rattle.c_scopes.specs.Named.{Named, named_of};
ghost use Rattle.c_scopes.specs.Ruled.{Ruled};
ghost use Rattle.c_decl_rules.specs.Clauses as view;
ghost use Rattle.c_statement_rules.specs.Definitions as rule;

use c_conversions::content::given;
use c_conversions::versions::is_void;
use c_core::TypeFault;
use c_decl_rules::functions::declare_function;
use c_decl_rules::{Declaring, Manner, Visible};
use c_scopes::Binding;
use c_syntax::Storage;
use c_type_rules::{Setting, parameter_type};
use c_types::{TypeId, TypeTable};
use critical_table::Pos;

/// The type of a parameter of a definition that was declared with this one; the place is that of its first token
/// (6.7.6.3p7, p8, 6.9.1p5).
///
/// Constraint 44 where it has no name, 45 for `void`.
pub fn defined_parameter(
    types: &mut TypeTable,
    pos: Pos,
    is_named: bool,
    of: TypeId,
) -> Result<TypeId, TypeFault>
    requires { IdIn types.old of }
    ensures { RulesType (rule.parameter_rule is_named (type_of types.old of)) pos types.old types.new result }
{
    if !is_named {
        return Err(TypeFault::Constraint(44, pos));
    }
    parameter_type(types, pos, of)
}

/// The name of a parameter of a definition, with its adjusted type; `here` is what the scope of the parameters has the
/// name for (6.7p3, 6.7.6.3p4).
///
/// Constraint 2 where it has it for something, 7 where the type is incomplete.
pub fn parameter_name(
    types: &TypeTable,
    pos: Pos,
    here: Option<Binding>,
    of: TypeId,
) -> Result<(), TypeFault>
    requires { IdIn types.now of }
    ensures { Settles (rule.name_rule (structures_of types.now) (option_map (named_of types.now) here)
        (type_of types.now of)) pos result }
{
    if here.is_some() {
        return Err(TypeFault::Constraint(2, pos));
    }
    if types.layout(of).is_none() {
        return Err(TypeFault::Constraint(7, pos));
    }
    Ok(())
}

/// A function that is defined.
#[derive(Clone, Copy, Debug)]
pub struct Defining {
    /// The storage word among the specifiers.
    pub storage: Option<Storage>,
    /// The type that its declarator gives it.
    pub of: TypeId,
    /// The place of the name.
    pub at: Pos,
}

// The definition as a declaration of its name.
fn declaring(definition: &Defining) -> Declaring
    ensures is { (types : Types) → view.declares_of types result ≡ rule.declares (rule.defines_of types definition.now) }
    ensures of { result.of ≡ definition.now.of }
    ensures at { result.at ≡ definition.now.at }
{
    Declaring {
        manner: Manner {
            setting: Setting::Definition,
            storage: definition.storage,
            initialized: false,
        },
        of: definition.of,
        at: definition.at,
        slot: 0,
    }
}

fn has_result(types: &TypeTable, of: TypeId) -> bool
    requires is_there { IdIn types.now of }
    requires is_function { IsFunction (type_of types.now of) }
    ensures { result ≡ rule.has_result (structures_of types.now) (type_of types.now of) }
{
    given(types, types.gives(of)).is_some()
}

// What a definition is, by what it is as a declaration: two more constraints are on it.
fn narrowed(
    declared: Result<Binding, TypeFault>,
    at: Pos,
    has_result: bool,
    is_fixed: bool,
) -> Result<Binding, TypeFault>
    ensures { (declaration : Ruled Named) (old new : Types) → view.RulesName declaration at old new declared
        → view.RulesName (rule.narrowed has_result is_fixed declaration) at old new result }
{
    match declared {
        Ok(binding) => {
            if !has_result {
                return Err(TypeFault::Constraint(7, at));
            }
            if !is_fixed {
                return Err(TypeFault::Constraint(43, at));
            }
            Ok(binding)
        }
        Err(TypeFault::Constraint(number, place)) => {
            if has_result || number == 2 {
                return Err(TypeFault::Constraint(number, place));
            }
            Err(TypeFault::Constraint(7, place))
        }
        Err(TypeFault::Memory(cause)) => Err(TypeFault::Memory(cause)),
    }
}

/// What the name of a defined function stands for from its declarator on (6.2.1p7, 6.9.1).
///
/// Constraint 2 where the scope has the name for something else, 7 where the function gives an incomplete type, 18 for
/// the name of a library function, 20 for a second definition, 43 where it takes further arguments.
pub fn defined_function(
    types: &mut TypeTable,
    definition: &Defining,
    visible: &Visible,
) -> Result<Binding, TypeFault>
    requires of { IdIn types.old definition.now.of }
    requires is_function { IsFunction (type_of types.old definition.now.of) }
    requires visible { view.VisibleIn types.old visible.now }
    ensures { view.RulesName (rule.definition_rule (structures_of types.old)
        (rule.defines_of types.old definition.now) (view.seen_of types.old visible.now)) definition.now.at types.old
        types.new result }
{
    let name = declaring(definition);
    let complete = has_result(types, definition.of);
    let fixed = !types.is_variadic(definition.of);
    let declared = declare_function(types, &name, visible);
    narrowed(declared, definition.at, complete, fixed)
}
