//! The functions of each class of nodes, by the height that is left.

ghost use Rattle.std.specs.Prelude.{◌≡◌, ◌^◌, ◌≤◌, ◌<◌, ◌++◌, IfOk};
ghost use Rattle.c_parser.specs.Agree.{Gives};
ghost use Rattle.c_syntax.specs.Height.{height, type_name_height, declarator_height, parameter_height, member_height};
ghost use Rattle.c_reading.specs.ReadSpecifier.{parsers};
ghost use Rattle.c_syntax.specs.Scopes.{expr_adds, type_name_adds, declarator_adds, parameter_adds, member_adds};
ghost use Rattle.c_syntax.specs.View.{expr_of, type_name_of, declarator_of, parameter_of, member_of};

use crate::fault::Fault;
use crate::part::{Part, Parts};
use crate::read::declarator::{declarator_at, no_declarator};
use crate::read::infix::expr_at;
use crate::read::member::member_at;
use crate::read::parameter::parameter_at;
use crate::read::type_name::type_name_at;
use crate::read::unary::paren_expr_at;
use crate::scope::Scope;
use c_lexer::Token;
use c_reading::declarator_form::DeclaratorForm;
use c_syntax::declarator::{Declarator, Parameter};
use c_syntax::expression::Expr;
use c_syntax::specifier::{MemberDeclaration, Specifier};
use c_syntax::type_name::TypeName;
use std::alloc::{AllocError, Global};

/// An expression of a level (6.5).
#[cycle(reading)]
pub(crate) fn expr<'a>(
    alloc: Global,
    scope: &mut Scope,
    h: usize,
    level: u8,
    tokens: &'a [Token],
) -> Result<(Part<Expr>, &'a [Token]), Fault<'a>>
    requires { h < 2 ^ 32 }
    ensures reads { Gives (λ x. expr_of x.node.value) ((parsers h).expr scope.old level tokens.now) result }
    ensures height { IfOk result (λ x. (x.0.height ≡ height (expr_of x.0.node.value)) × (x.0.height ≤ h)) }
    ensures scope { IfOk result (λ x. scope.new ≡ scope.old ++ expr_adds (expr_of x.0.node.value)) }
{
    if h == 0 {
        return Err(Fault::TooDeep(tokens));
    }
    expr_at(alloc, scope, h - 1, level, tokens)
}

/// An expression in parentheses behind the opening one, with the postfix operators that follow (6.5.1).
#[cycle(reading)]
pub(crate) fn paren_expr<'a>(
    alloc: Global,
    scope: &mut Scope,
    h: usize,
    tokens: &'a [Token],
) -> Result<(Part<Expr>, &'a [Token]), Fault<'a>>
    requires { h < 2 ^ 32 }
    ensures reads { Gives (λ x. expr_of x.node.value) ((parsers h).paren_expr scope.old tokens.now) result }
    ensures height { IfOk result (λ x. (x.0.height ≡ height (expr_of x.0.node.value)) × (x.0.height ≤ h)) }
    ensures scope { IfOk result (λ x. scope.new ≡ scope.old ++ expr_adds (expr_of x.0.node.value)) }
{
    if h == 0 {
        return Err(Fault::TooDeep(tokens));
    }
    paren_expr_at(alloc, scope, h - 1, tokens)
}

/// A type name (6.7.7).
#[cycle(reading)]
pub(crate) fn type_name<'a>(
    alloc: Global,
    scope: &mut Scope,
    h: usize,
    tokens: &'a [Token],
) -> Result<(Part<TypeName>, &'a [Token]), Fault<'a>>
    requires { h < 2 ^ 32 }
    ensures reads { Gives (λ x. type_name_of x.node.value) ((parsers h).type_name scope.old tokens.now) result }
    ensures height { IfOk result (λ x. (x.0.height ≡ type_name_height (type_name_of x.0.node.value))
        × (x.0.height ≤ h)) }
    ensures scope { IfOk result (λ x. scope.new ≡ scope.old ++ type_name_adds (type_name_of x.0.node.value)) }
{
    if h == 0 {
        return Err(Fault::TooDeep(tokens));
    }
    type_name_at(alloc, scope, h - 1, tokens)
}

/// A declarator of a form (6.7.6).
#[cycle(reading)]
pub(crate) fn declarator<'a>(
    alloc: Global,
    scope: &mut Scope,
    h: usize,
    form: DeclaratorForm,
    tokens: &'a [Token],
) -> Result<(Part<Declarator>, &'a [Token]), Fault<'a>>
    requires { h < 2 ^ 32 }
    ensures reads { Gives (λ x. declarator_of x.node.value) ((parsers h).declarator form scope.old tokens.now) result }
    ensures height { IfOk result (λ x. (x.0.height ≡ declarator_height (declarator_of x.0.node.value))
        × (x.0.height ≤ h)) }
    ensures scope { IfOk result (λ x. scope.new ≡ scope.old ++ declarator_adds (declarator_of x.0.node.value)) }
{
    if h == 0 {
        return no_declarator(alloc, form, tokens);
    }
    declarator_at(alloc, scope, h - 1, form, tokens)
}

/// A parameter declaration (6.7.6.3).
#[cycle(reading)]
pub(crate) fn parameter<'a>(
    alloc: Global,
    scope: &mut Scope,
    h: usize,
    tokens: &'a [Token],
) -> Result<(Part<Parameter>, &'a [Token]), Fault<'a>>
    requires { h < 2 ^ 32 }
    ensures reads { Gives (λ x. parameter_of x.node.value) ((parsers h).parameter scope.old tokens.now) result }
    ensures height { IfOk result (λ x. (x.0.height ≡ parameter_height (parameter_of x.0.node.value))
        × (x.0.height ≤ h)) }
    ensures scope { IfOk result (λ x. scope.new ≡ scope.old ++ parameter_adds (parameter_of x.0.node.value)) }
{
    if h == 0 {
        return Err(Fault::TooDeep(tokens));
    }
    parameter_at(alloc, scope, h - 1, tokens)
}

/// A member declaration (6.7.2.1).
#[cycle(reading)]
pub(crate) fn member<'a>(
    alloc: Global,
    scope: &mut Scope,
    h: usize,
    tokens: &'a [Token],
) -> Result<(Part<MemberDeclaration>, &'a [Token]), Fault<'a>>
    requires { h < 2 ^ 32 }
    ensures reads { Gives (λ x. member_of x.node.value) ((parsers h).member scope.old tokens.now) result }
    ensures height { IfOk result (λ x. (x.0.height ≡ member_height (member_of x.0.node.value)) × (x.0.height ≤ h)) }
    ensures scope { IfOk result (λ x. scope.new ≡ scope.old ++ member_adds (member_of x.0.node.value)) }
{
    if h == 0 {
        return Err(Fault::TooDeep(tokens));
    }
    member_at(alloc, scope, h - 1, tokens)
}
