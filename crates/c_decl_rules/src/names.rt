//! What a declaration makes of a name.

ghost use Rattle.std.specs.Prelude.{◌≡◌, IfSome, option_map};
ghost use Rattle.c_types.specs.CType.{type_of};
ghost use Rattle.c_types.specs.Structures.{structures_of};
ghost use Rattle.c_core.specs.Ids.{IdIn};
ghost use Rattle.c_scopes.specs.Env.{BindingIn};
ghost use Rattle.c_scopes.specs.Named.{named_of};
ghost use Rattle.c_decl_rules.specs.Clauses as view;
ghost use Rattle.c_decl_rules.specs.DeclaredNames as spec;

use crate::declaring::{Declaring, Visible};
use crate::functions::declare_function;
use crate::objects::declare_object;
use crate::same_type::same;
use c_conversions::versions::is_function;
use c_core::TypeFault;
use c_scopes::Binding;
use c_syntax::Storage;
use c_types::{TypeId, TypeTable};

fn is_typedef(storage: Option<Storage>) -> bool
    ensures { result ≡ spec.is_typedef storage }
{
    match storage {
        Some(Storage::Typedef) => true,
        _ => false,
    }
}

// The name is a typedef name with the same type.
fn is_renamed(types: &TypeTable, binding: Option<Binding>, of: TypeId) -> bool
    requires binding { IfSome binding (λ b. BindingIn types.now b) }
    requires of { IdIn types.now of }
    ensures { result ≡ spec.is_renamed (option_map (named_of types.now) binding) (type_of types.now of) }
{
    match binding {
        Some(Binding::Typedef(before)) => same(types, before, of, true),
        None => false,
        Some(Binding::Object(_, _)) => false,
        Some(Binding::Function(_, _)) => false,
        Some(Binding::Constant(_, _)) => false,
        Some(Binding::NullPointer(_)) => false,
        Some(Binding::Tag(_, _)) => false,
    }
}

// The declaration of a typedef name (6.7p3, 6.7.8).
fn declare_typedef(
    types: &TypeTable,
    name: &Declaring,
    visible: &Visible,
) -> Result<Binding, TypeFault>
    requires of { IdIn types.now name.now.of }
    requires visible { view.VisibleIn types.now visible.now }
    ensures { view.RulesName (spec.typedef_rule (view.declares_of types.now name.now)
        (view.seen_of types.now visible.now)) name.now.at types.now types.now result }
{
    if visible.here && !is_renamed(types, visible.binding, name.of) {
        return Err(TypeFault::Constraint(2, name.at));
    }
    if name.manner.initialized {
        return Err(TypeFault::Constraint(17, name.at));
    }
    Ok(Binding::Typedef(name.of))
}

/// What a declared name stands for from its declarator on (6.2.1p7, 6.2.2, 6.7).
///
/// Constraint 2 where the scope has the name for something else, 7 for an incomplete object or an initialized function,
/// 9 for a length that nothing gives, 17 for an initialized typedef name, 18 for the name of a library function, 20 for
/// a second definition, 47 for `extern` or a function in a block.
pub fn declare_name(
    types: &mut TypeTable,
    name: &Declaring,
    visible: &Visible,
) -> Result<Binding, TypeFault>
    requires of { IdIn types.old name.now.of }
    requires visible { view.VisibleIn types.old visible.now }
    ensures { view.RulesName (spec.name_rule (structures_of types.old) (view.declares_of types.old name.now)
        (view.seen_of types.old visible.now)) name.now.at types.old types.new result }
{
    if is_typedef(name.manner.storage) {
        return declare_typedef(types, name, visible);
    }
    if is_function(types, name.of) {
        return declare_function(types, name, visible);
    }
    declare_object(types, name, visible)
}
