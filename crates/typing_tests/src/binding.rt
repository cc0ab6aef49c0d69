//! What a declared name stands for, and how it is bound.

ghost use Rattle.std.specs.Prelude.{IfOk};
ghost use Rattle.c_core.specs.Ids.{IdIn};
ghost use Rattle.c_scopes.specs.Env.{BindingIn, ScopesIn};

use crate::storage::is_typedef;
use c_conversions::versions::is_function;
use c_core::{FunctionName, ObjectName, TypeFault};
use c_scopes::{Binding, DeclaredFunction, DeclaredObject, Linkage, Scopes, Standing};
use c_syntax::{Declarator, Specifier};
use c_type_parts::bind_name;
use c_type_parts::outlines::holds_register;
use c_type_parts::parameters::name_in;
use c_types::{TypeId, TypeTable};
use critical_table::Pos;

/// The specifiers of a declaration, and their type.
#[derive(Clone, Copy)]
pub struct Words<'a> {
    pub specifiers: &'a [Specifier],
    pub of: TypeId,
}

/// Binds a declared name, which has that type.
pub fn bind_declared(
    scopes: &mut Scopes,
    types: &TypeTable,
    declarator: &Declarator,
    words: Words<'_>,
) -> Result<(), TypeFault>
    requires here { ScopesIn types.now scopes.old }
    requires id { IdIn types.now words.of }
    ensures { IfOk result (λ _. ScopesIn types.now scopes.new) }
{
    let Some(named) = name_in(declarator) else {
        return Ok(());
    };
    bind_name(
        scopes,
        types,
        named.name,
        binding_of(types, named.pos, words),
    )?;
    Ok(())
}

// What a declared name stands for.
fn binding_of(types: &TypeTable, pos: Pos, words: Words<'_>) -> Binding
    requires { IdIn types.now words.of }
    ensures { BindingIn types.now result }
{
    if is_typedef(words.specifiers) {
        return Binding::Typedef(words.of);
    }
    if is_function(types, words.of) {
        return Binding::Function(words.of, function_at(pos));
    }
    Binding::Object(words.of, object_at(pos, holds_register(words.specifiers)))
}

fn function_at(pos: Pos) -> DeclaredFunction {
    DeclaredFunction {
        name: FunctionName::Unit(pos),
        linkage: Linkage::External,
        is_defined: false,
    }
}

fn object_at(pos: Pos, register: bool) -> DeclaredObject {
    DeclaredObject {
        name: ObjectName::Static(pos),
        register,
        linkage: Linkage::None,
        standing: Standing::Defined,
    }
}
