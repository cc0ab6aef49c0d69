//! What is asked of a whole unit.

ghost use Rattle.std.specs.Prelude.{◌≡◌, IfSome, option_map};
ghost use Rattle.c_types.specs.CType.{type_of};
ghost use Rattle.c_types.specs.Functions.{IsFunction, parameters_of};
ghost use Rattle.c_core.specs.Ids.{IdIn};
ghost use Rattle.c_scopes.specs.Clauses.{Settles};
ghost use Rattle.c_scopes.specs.Env.{BindingIn};
ghost use Rattle.c_scopes.specs.Named.{named_of};
ghost use Rattle.c_decl_rules.specs.DeclaredNames as names;
ghost use Rattle.c_statement_rules.specs.Units as rule;

use crate::names::NameList;
use c_conversions::versions::is_function;
use c_core::{FunctionName, TypeFault};
use c_scopes::{Binding, Linkage};
use c_types::{Basic, TypeId, TypeTable};
use critical_table::{Name, Pos};
use std::alloc::Global;

/// The names of the functions and of the objects that a unit defines outside of functions, wherever it does so.
#[derive(Drop)]
pub struct DefinedNames {
    pub functions: NameList,
    pub objects: NameList,
}

fn has_no_linkage(linkage: Linkage) -> bool
    ensures { result ≡ rule.has_no_linkage linkage }
{
    match linkage {
        Linkage::None => true,
        Linkage::Internal | Linkage::External => false,
    }
}

fn is_library_name(name: FunctionName) -> bool
    ensures { result ≡ names.is_library_name name }
{
    match name {
        FunctionName::Library(_) => true,
        FunctionName::Unit(_) => false,
    }
}

impl DefinedNames {
    /// No names.
    pub fn new(alloc: Global) -> DefinedNames
        ensures { result ≡ rule.nothing_defined }
    {
        DefinedNames {
            functions: NameList::new(alloc),
            objects: NameList::new(alloc),
        }
    }

    // What the name stands for is defined, or needs no definition.
    fn defines(&self, types: &TypeTable, binding: Binding, name: &Name) -> bool
        ensures { result ≡ rule.is_defined self.now (named_of types.now binding) name.now }
    {
        let _types = types;
        match binding {
            Binding::Object(_, object) => {
                has_no_linkage(object.linkage) || self.objects.contains(name)
            }
            Binding::Function(_, function) => {
                is_library_name(function.name) || self.functions.contains(name)
            }
            Binding::Typedef(_) => true,
            Binding::Constant(_, _) => true,
            Binding::NullPointer(_) => true,
            Binding::Tag(_, _) => true,
        }
    }

    /// A name at that place that is used in an expression, and what it stands for (6.9p3, p5).
    ///
    /// Constraint 19 where it stands for a function or object that the unit declares and doesn't define.
    pub fn used_name(
        &self,
        types: &TypeTable,
        pos: Pos,
        binding: Binding,
        name: &Name,
    ) -> Result<(), TypeFault>
        ensures { Settles (rule.use_rule self.now (named_of types.now binding) name.now) pos result }
    {
        if !self.defines(types, binding, name) {
            return Err(TypeFault::Constraint(19, pos));
        }
        Ok(())
    }
}

#[tactic(auto, using(crate::proofs::Adding::none_taken))]
fn takes_nothing(types: &TypeTable, of: TypeId) -> bool
    requires is_there { IdIn types.now of }
    requires is_function { IsFunction (type_of types.now of) }
    ensures { result ≡ rule.takes_nothing (parameters_of (type_of types.now of)) }
{
    types.parameters(of).len() == 0
}

fn is_main_type(types: &TypeTable, of: TypeId) -> bool
    requires { IdIn types.now of }
    ensures { result ≡ rule.is_main_type (type_of types.now of) }
{
    is_function(types, of)
        && takes_nothing(types, of)
        && !types.is_variadic(of)
        && types.compatible(types.gives(of), types.basic(Basic::Int))
}

fn is_main(types: &TypeTable, main: Option<Binding>) -> bool
    requires { IfSome main (λ b. BindingIn types.now b) }
    ensures { result ≡ rule.is_main (option_map (named_of types.now) main) }
{
    match main {
        Some(Binding::Function(of, function)) => function.is_defined && is_main_type(types, of),
        None => false,
        Some(Binding::Object(_, _)) => false,
        Some(Binding::Typedef(_)) => false,
        Some(Binding::Constant(_, _)) => false,
        Some(Binding::NullPointer(_)) => false,
        Some(Binding::Tag(_, _)) => false,
    }
}

/// The end of a unit, at that place, by what `main` stands for there (5.1.2.2.1p1).
///
/// Constraint 21 where it is no function that the unit defines, or its type is not that of `int main(void)`.
pub fn main_function(types: &TypeTable, pos: Pos, main: Option<Binding>) -> Result<(), TypeFault>
    requires { IfSome main (λ b. BindingIn types.now b) }
    ensures { Settles (rule.main_rule (option_map (named_of types.now) main)) pos result }
{
    if !is_main(types, main) {
        return Err(TypeFault::Constraint(21, pos));
    }
    Ok(())
}
