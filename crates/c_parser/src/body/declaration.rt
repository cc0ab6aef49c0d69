//! Declarations (6.7).

ghost use Rattle.std.specs.Prelude.{◌≡◌, ◌^◌, ◌<◌, ◌++◌, map, IfOk};
ghost use Rattle.c_lexer.specs.declared.punct.Punct.TheVariants as p;
ghost use Rattle.c_parser.specs.Agree.{Gives};
ghost use Rattle.c_reading.specs.ReadBody as spec;
ghost use Rattle.c_reading.specs.Parser.{next_body};
ghost use Rattle.c_reading.specs.ReadToken as token;
ghost use Rattle.c_syntax.specs.Scopes as names;
ghost use Rattle.c_syntax.specs.Scopes.{declarator_adds};
ghost use Rattle.c_syntax.specs.ScopesUnit.{declaration_adds, init_declarators_add};
ghost use Rattle.c_syntax.specs.View.{specifiers_of, declarator_of};
ghost use Rattle.c_syntax.specs.ViewUnit.{declaration_of, init_declarator_of};

use crate::body::initializer::initializer;
use crate::declared::{declare_own_name, names_types};
use crate::fault::Fault;
use crate::make::declaration as make;
use crate::next::{expect, is_mark, tail};
use crate::read::height::declarator;
use crate::read::specifier::specifiers;
use crate::scope::Scope;
use c_lexer::{Punct, Token};
use c_reading::declarator_form::DeclaratorForm;
use c_syntax::declaration::{Declaration, InitDeclarator};
use c_syntax::declarator::Declarator;
use c_syntax::specifier::Specifier;
use std::alloc::Global;

/// A declaration whose parts are of a height at most.
#[tactic(auto, unfolding(c_reading::specs::ReadBody::declaration_at, c_reading::specs::ReadBody::declaration_on))]
pub(crate) fn declaration_at<'a>(
    alloc: Global,
    scope: &mut Scope,
    k: usize,
    tokens: &'a [Token],
) -> Result<(Declaration, &'a [Token]), Fault<'a>>
    requires { k < 2 ^ 32 }
    ensures reads { Gives (λ x. declaration_of x) (spec.declaration_at k scope.old tokens.now) result }
    ensures scope { IfOk result (λ x. scope.new ≡ scope.old ++ declaration_adds (declaration_of x.0)) }
{
    let (specifiers, rest) = specifiers(alloc, scope, k, tokens)?;
    declaration_on(alloc, scope, k, specifiers.nodes, rest)
}

/// What is left of a declaration behind its specifiers.
fn declaration_on<'a>(
    alloc: Global,
    scope: &mut Scope,
    k: usize,
    specifiers: Vec<Specifier>,
    tokens: &'a [Token],
) -> Result<(Declaration, &'a [Token]), Fault<'a>>
    requires { k < 2 ^ 32 }
    ensures reads { Gives (λ x. declaration_of x) (spec.declaration_by k scope.old (specifiers_of specifiers.items)
        (token.is_mark p.Semicolon (next_body tokens.now)) tokens.now) result }
    ensures scope { IfOk result (λ x. (outer : names.Scope)
        → scope.old ≡ outer ++ names.specifiers_add (specifiers_of specifiers.items)
        → scope.new ≡ outer ++ declaration_adds (declaration_of x.0)) }
{
    if is_mark(tokens, Punct::Semicolon) {
        let declarators = Vec::new(alloc);
        return Ok((
            Declaration {
                specifiers,
                declarators,
            },
            tail(tokens),
        ));
    }
    let (one, rest) = declarator(alloc, scope, k, DeclaratorForm::Named, tokens)?;
    declared_on(alloc, scope, k, specifiers, one.node, rest)
}

/// What is left of a declaration behind its specifiers and its first declarator.
#[tactic(auto, unfolding(c_reading::specs::ReadBody::declared_on, c_reading::specs::ReadBody::init_on))]
pub(crate) fn declared_on<'a>(
    alloc: Global,
    scope: &mut Scope,
    k: usize,
    specifiers: Vec<Specifier>,
    declarator: Box<Declarator>,
    tokens: &'a [Token],
) -> Result<(Declaration, &'a [Token]), Fault<'a>>
    requires { k < 2 ^ 32 }
    ensures reads { (outer : names.Scope) → scope.old ≡ outer ++ declarator_adds (declarator_of declarator.value)
        → Gives (λ x. declaration_of x)
        (spec.declared_on k outer (specifiers_of specifiers.items) (declarator_of declarator.value) tokens.now) result }
    ensures scope { IfOk result (λ x. (outer : names.Scope)
        → scope.old ≡ outer ++ names.specifiers_add (specifiers_of specifiers.items)
        ++ declarator_adds (declarator_of declarator.value)
        → scope.new ≡ outer ++ declaration_adds (declaration_of x.0)) }
{
    let names_type = names_types(&specifiers);
    let (first, rest) = init_on(alloc, scope, k, names_type, declarator, tokens)?;
    declared_in(alloc, scope, k, specifiers, first, rest)
}

/// What is left of a declaration behind its specifiers and its first declarator with its initializer.
fn declared_in<'a>(
    alloc: Global,
    scope: &mut Scope,
    k: usize,
    specifiers: Vec<Specifier>,
    first: Box<InitDeclarator>,
    tokens: &'a [Token],
) -> Result<(Declaration, &'a [Token]), Fault<'a>>
    requires { k < 2 ^ 32 }
    ensures reads { Gives (λ x. declaration_of x)
        (spec.declared_in k scope.old (specifiers_of specifiers.items) (init_declarator_of first.value) tokens.now)
        result }
    ensures scope { IfOk result (λ x. (outer : names.Scope)
        → scope.old ≡ outer ++ names.specifiers_add (specifiers_of specifiers.items)
        ++ spec.init_declarator_adds k (names.names_types (specifiers_of specifiers.items))
        (init_declarator_of first.value) → scope.new ≡ outer ++ declaration_adds (declaration_of x.0)) }
{
    let names_type = names_types(&specifiers);
    let (declarators, rest) = all_declarators(alloc, scope, k, names_type, first, tokens)?;
    let rest = expect(rest, Punct::Semicolon)?;
    Ok((
        Declaration {
            specifiers,
            declarators,
        },
        rest,
    ))
}

/// A first declarator with its initializer, and those that stand behind it.
fn all_declarators<'a>(
    alloc: Global,
    scope: &mut Scope,
    k: usize,
    names_type: bool,
    first: Box<InitDeclarator>,
    tokens: &'a [Token],
) -> Result<(Vec<InitDeclarator>, &'a [Token]), Fault<'a>>
    requires { k < 2 ^ 32 }
    ensures reads { Gives (λ x. map init_declarator_of x.items)
        (spec.all_declarators k names_type scope.old (init_declarator_of first.value) tokens.now) result }
    ensures scope { IfOk result (λ x. (outer : names.Scope)
        → scope.old ≡ outer ++ spec.init_declarator_adds k names_type (init_declarator_of first.value)
        → scope.new ≡ outer ++ init_declarators_add names_type (map init_declarator_of x.0.items)) }
{
    let mut all = Vec::new(alloc);
    all.push(Box::into_inner(first))?;
    let mut rest = tokens;
    'each: while is_mark(rest, Punct::Comma) {
        let (one, behind) = init_declarator(alloc, scope, k, names_type, tail(rest))?;
        all.push(Box::into_inner(one))?;
        rest = behind;
    }
    Ok((all, rest))
}

/// A declarator with its initializer.
#[tactic(auto, unfolding(c_reading::specs::ReadBody::init_declarator, c_reading::specs::ReadBody::init_on))]
fn init_declarator<'a>(
    alloc: Global,
    scope: &mut Scope,
    k: usize,
    names_type: bool,
    tokens: &'a [Token],
) -> Result<(Box<InitDeclarator>, &'a [Token]), Fault<'a>>
    requires { k < 2 ^ 32 }
    ensures reads { Gives (λ x. init_declarator_of x.value) (spec.init_declarator k names_type scope.old tokens.now)
        result }
    ensures scope { IfOk result (λ x. scope.new
        ≡ scope.old ++ spec.init_declarator_adds k names_type (init_declarator_of x.0.value)) }
{
    let (one, rest) = declarator(alloc, scope, k, DeclaratorForm::Named, tokens)?;
    init_on(alloc, scope, k, names_type, one.node, rest)
}

/// A declarator and its initializer, in which its name is in scope (6.2.1p7).
fn init_on<'a>(
    alloc: Global,
    scope: &mut Scope,
    k: usize,
    names_type: bool,
    declarator: Box<Declarator>,
    tokens: &'a [Token],
) -> Result<(Box<InitDeclarator>, &'a [Token]), Fault<'a>>
    requires { k < 2 ^ 32 }
    ensures reads { Gives (λ x. init_declarator_of x.value)
        (spec.init_in k names_type scope.old (declarator_of declarator.value) tokens.now) result }
    ensures scope { IfOk result (λ x. (outer : names.Scope)
        → scope.old ≡ outer ++ declarator_adds (declarator_of declarator.value)
        → scope.new ≡ outer ++ spec.init_declarator_adds k names_type (init_declarator_of x.0.value)) }
{
    declare_own_name(alloc, scope, names_type, &declarator)?;
    if is_mark(tokens, Punct::Assign) {
        let (value, rest) = initializer(alloc, scope, k, tail(tokens))?;
        let one = make::with_initializer(alloc, declarator, value)?;
        return Ok((one, rest));
    }
    let one = make::without_initializer(alloc, declarator)?;
    Ok((one, tokens))
}
