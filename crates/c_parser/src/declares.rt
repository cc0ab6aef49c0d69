//! What a tree declares behind itself (6.2.1p4, 6.2.1p7), where it is known to stand in a scope: enumerators, and in a
//! list of parameters their identifiers.

ghost use Rattle.std.specs.Prelude.{◌≡◌, ◌++◌, IfOk};
ghost use Rattle.std.specs.List.{flat_map};
ghost use Rattle.c_syntax.specs.Scopes as spec;
ghost use Rattle.c_syntax.specs.ScopesUnit as unit;
ghost use Rattle.c_syntax.specs.View as view;

use crate::declared::{declare_own_name, names_types};
use crate::scope::Scope;
use c_syntax::declarator::{Declarator, Parameter};
use c_syntax::expression::Expr;
use c_syntax::specifier::{Enumerator, MemberDeclaration, Specifier};
use c_syntax::type_name::TypeName;
use std::alloc::{AllocError, Global};

/// Declares the enumerators of an expression: `(enum {A})0 + A` has `A` in scope behind the cast.
#[cycle(declaring)]
pub(crate) fn declare_expr(alloc: Global, scope: &mut Scope, expr: &Expr) -> Result<(), AllocError>
    ensures { IfOk result (λ _. scope.new ≡ scope.old ++ spec.expr_adds (view.expr_of expr.now)) }
{
    match expr {
        Expr::Const(..) => Ok(()),
        Expr::Id(..) => Ok(()),
        Expr::Text(..) => Ok(()),
        Expr::Paren(inner) => declare_expr(alloc, scope, inner),
        Expr::Index(_, array, index) => {
            declare_expr(alloc, scope, array)?;
            declare_expr(alloc, scope, index)
        }
        Expr::Call(_, function, list) => {
            declare_expr(alloc, scope, function)?;
            declare_arguments(alloc, scope, list.as_slice())
        }
        Expr::Member(_, _, whole, _) => declare_expr(alloc, scope, whole),
        Expr::Postfix(_, _, operand) => declare_expr(alloc, scope, operand),
        Expr::Prefix(_, _, operand) => declare_expr(alloc, scope, operand),
        Expr::Measure(_, _, of) => declare_type_name(alloc, scope, of),
        Expr::Cast(_, to, operand) => {
            declare_type_name(alloc, scope, to)?;
            declare_expr(alloc, scope, operand)
        }
        Expr::Infix(_, _, left, right) => {
            declare_expr(alloc, scope, left)?;
            declare_expr(alloc, scope, right)
        }
        Expr::Cond(_, test, first, second) => {
            declare_expr(alloc, scope, test)?;
            declare_expr(alloc, scope, first)?;
            declare_expr(alloc, scope, second)
        }
    }
}

/// What the arguments of a call add, from left to right.
#[cycle(declaring)]
fn declare_arguments(alloc: Global, scope: &mut Scope, list: &[Expr]) -> Result<(), AllocError>
    ensures { IfOk result (λ _. scope.new ≡ scope.old ++ flat_map (λ e. spec.expr_adds (view.expr_of e)) list.now) }
{
    for each in list {
        declare_expr(alloc, scope, each)?;
    }
    Ok(())
}

/// What a type name adds.
#[cycle(declaring)]
fn declare_type_name(alloc: Global, scope: &mut Scope, of: &TypeName) -> Result<(), AllocError>
    ensures { IfOk result (λ _. scope.new ≡ scope.old ++ spec.type_name_adds (view.type_name_of of.now)) }
{
    declare_specifiers(alloc, scope, of.specifiers.as_slice())?;
    declare_declarator(alloc, scope, &of.declarator)
}

/// What specifiers add: the enumerators among them.
#[cycle(declaring)]
fn declare_specifiers(
    alloc: Global,
    scope: &mut Scope,
    list: &[Specifier],
) -> Result<(), AllocError>
    ensures { IfOk result (λ _. scope.new
        ≡ scope.old ++ flat_map (λ s. spec.specifier_adds (view.specifier_of s)) list.now) }
{
    for each in list {
        declare_specifier(alloc, scope, each)?;
    }
    Ok(())
}

/// What one specifier adds.
#[cycle(declaring)]
fn declare_specifier(alloc: Global, scope: &mut Scope, each: &Specifier) -> Result<(), AllocError>
    ensures { IfOk result (λ _. scope.new ≡ scope.old ++ spec.specifier_adds (view.specifier_of each.now)) }
{
    match each {
        Specifier::Compound(_, _, _, list) => declare_members(alloc, scope, list.as_slice()),
        Specifier::Enum(_, _, list, _) => declare_enumerators(alloc, scope, list.as_slice()),
        Specifier::Storage(..) => Ok(()),
        Specifier::Qualifier(..) => Ok(()),
        Specifier::Inline(..) => Ok(()),
        Specifier::BasicWord(..) => Ok(()),
        Specifier::CompoundTag(..) => Ok(()),
        Specifier::EnumTag(..) => Ok(()),
        Specifier::TypedefName(..) => Ok(()),
    }
}

/// What the members of a structure or union add: none of their own names.
#[cycle(declaring)]
fn declare_members(
    alloc: Global,
    scope: &mut Scope,
    list: &[MemberDeclaration],
) -> Result<(), AllocError>
    ensures { IfOk result (λ _. scope.new ≡ scope.old ++ flat_map (λ m. spec.member_adds (view.member_of m)) list.now) }
{
    for each in list {
        declare_member(alloc, scope, each)?;
    }
    Ok(())
}

/// What one member declaration adds.
#[cycle(declaring)]
fn declare_member(
    alloc: Global,
    scope: &mut Scope,
    each: &MemberDeclaration,
) -> Result<(), AllocError>
    ensures { IfOk result (λ _. scope.new ≡ scope.old ++ spec.member_adds (view.member_of each.now)) }
{
    declare_specifiers(alloc, scope, each.specifiers.as_slice())?;
    declare_declarators(alloc, scope, each.declarators.as_slice())
}

/// What declarators add beside their own names.
#[cycle(declaring)]
fn declare_declarators(
    alloc: Global,
    scope: &mut Scope,
    list: &[Declarator],
) -> Result<(), AllocError>
    ensures { IfOk result (λ _. scope.new
        ≡ scope.old ++ flat_map (λ d. spec.declarator_adds (view.declarator_of d)) list.now) }
{
    for each in list {
        declare_declarator(alloc, scope, each)?;
    }
    Ok(())
}

/// Each enumerator, behind what its value adds.
#[cycle(declaring)]
fn declare_enumerators(
    alloc: Global,
    scope: &mut Scope,
    list: &[Enumerator],
) -> Result<(), AllocError>
    ensures { IfOk result (λ _. scope.new
        ≡ scope.old ++ flat_map (λ n. spec.enumerator_adds (view.enumerator_of n)) list.now) }
{
    for each in list {
        declare_enumerator(alloc, scope, each)?;
    }
    Ok(())
}

/// An enumerator is in scope behind its value (6.2.1p7).
#[cycle(declaring)]
fn declare_enumerator(alloc: Global, scope: &mut Scope, each: &Enumerator) -> Result<(), AllocError>
    ensures { IfOk result (λ _. scope.new ≡ scope.old ++ spec.enumerator_adds (view.enumerator_of each.now)) }
{
    if let Some(value) = &each.value {
        declare_expr(alloc, scope, value)?;
    }
    scope.declare(alloc, &each.name, false)
}

/// Declares what a declarator adds beside its own identifier. Parameters are in scope inside their list alone.
#[cycle(declaring)]
fn declare_declarator(alloc: Global, scope: &mut Scope, of: &Declarator) -> Result<(), AllocError>
    ensures { IfOk result (λ _. scope.new ≡ scope.old ++ spec.declarator_adds (view.declarator_of of.now)) }
{
    match of {
        Declarator::Omitted => Ok(()),
        Declarator::Name(..) => Ok(()),
        Declarator::DParen(inner) => declare_declarator(alloc, scope, inner),
        Declarator::PointerTo(_, inner) => declare_declarator(alloc, scope, inner),
        Declarator::ArrayOf(inner, length) => {
            declare_declarator(alloc, scope, inner)?;
            match length {
                None => Ok(()),
                Some(length) => declare_expr(alloc, scope, length),
            }
        }
        Declarator::FunctionOf(inner, ..) => declare_declarator(alloc, scope, inner),
    }
}

/// What parameters add, their own names too.
fn declare_parameters(
    alloc: Global,
    scope: &mut Scope,
    list: &[Parameter],
) -> Result<(), AllocError>
    ensures { IfOk result (λ _. scope.new
        ≡ scope.old ++ flat_map (λ p. spec.parameter_adds (view.parameter_of p)) list.now) }
{
    for each in list {
        declare_parameter(alloc, scope, each)?;
    }
    Ok(())
}

/// A parameter's identifier is in scope behind its declarator.
fn declare_parameter(alloc: Global, scope: &mut Scope, each: &Parameter) -> Result<(), AllocError>
    ensures { IfOk result (λ _. scope.new ≡ scope.old ++ spec.parameter_adds (view.parameter_of each.now)) }
{
    declare_specifiers(alloc, scope, each.specifiers.as_slice())?;
    declare_declarator(alloc, scope, &each.declarator)?;
    let names_type = names_types(each.specifiers.as_slice());
    declare_own_name(alloc, scope, names_type, &each.declarator)
}

/// Whether a declarator is an identifier, parentheses aside.
pub(crate) fn is_identifier(declarator: &Declarator) -> bool
    ensures { result ≡ unit.is_identifier (view.declarator_of declarator.now) }
{
    match declarator {
        Declarator::Name(..) => true,
        Declarator::DParen(inner) => is_identifier(inner),
        _ => false,
    }
}

/// Declares the parameters of a function's declarator, in whose scope its body stands (6.2.1p4).
pub(crate) fn declare_own_parameters(
    alloc: Global,
    scope: &mut Scope,
    declarator: &Declarator,
) -> Result<(), AllocError>
    ensures { IfOk result (λ _. scope.new
        ≡ scope.old ++ unit.own_parameters_add (unit.own_parameters (view.declarator_of declarator.now))) }
{
    match declarator {
        Declarator::Omitted => Ok(()),
        Declarator::Name(..) => Ok(()),
        Declarator::DParen(inner) => declare_own_parameters(alloc, scope, inner),
        Declarator::PointerTo(_, inner) => declare_own_parameters(alloc, scope, inner),
        Declarator::ArrayOf(inner, _) => declare_own_parameters(alloc, scope, inner),
        Declarator::FunctionOf(inner, list, _) => {
            if is_identifier(inner) {
                return declare_parameters(alloc, scope, list.as_slice());
            }
            declare_own_parameters(alloc, scope, inner)
        }
    }
}
