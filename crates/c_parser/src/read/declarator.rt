//! Declarators (6.7.6), and abstract ones (6.7.7).

ghost use Rattle.std.specs.Prelude.{◌≡◌, ◌+◌, ◌^◌, ◌≤◌, ◌<◌, ◌++◌, IfOk};
ghost use Rattle.c_parser.specs.Agree.{Gives};
ghost use Rattle.c_syntax.specs.Height.{declarator_height};
ghost use Rattle.c_reading.specs.Parser.{next_body, skip};
ghost use Rattle.c_reading.specs.ReadDeclarator as spec;
ghost use Rattle.c_reading.specs.ReadSpecifier.{parsers};
ghost use Rattle.c_syntax.specs.Scopes.{declarator_adds};
ghost use Rattle.c_syntax.specs.Tree.{Omitted};
ghost use Rattle.c_syntax.specs.View.{declarator_of};

use crate::begins::begins_type;
use crate::fault::Fault;
use crate::make::declarator as make;
use crate::next::{expect, is_mark, tail};
use crate::part::{Part, Parts};
use crate::read::height::declarator;
use crate::read::parameters::listed_parameters;
use crate::read::qualifier::qualifiers;
use crate::read::suffix::{suffix_on, suffixes};
use crate::scope::Scope;
use c_lexer::{Body, Punct, Token};
use c_reading::declarator_form::DeclaratorForm;
use c_syntax::declarator::Declarator;
use critical_table::{Name, Pos};
use std::alloc::Global;

/// Whether a declarator of the form begins here with a token.
fn begins_declarator(form: DeclaratorForm, tokens: &[Token]) -> bool
    ensures { result ≡ spec.begins_declarator form (next_body tokens.now) }
{
    match tokens {
        [
            Token {
                body: Body::Mark(Punct::Star | Punct::OpenParen),
                ..
            },
            ..
        ] => true,
        [
            Token {
                body: Body::Mark(Punct::OpenBracket),
                ..
            },
            ..
        ] => !matches!(form, DeclaratorForm::Named),
        [
            Token {
                body: Body::Name(_),
                ..
            },
            ..
        ] => !matches!(form, DeclaratorForm::Abstract),
        _ => false,
    }
}

/// A declarator that has no token here.
fn omission<'a>(
    alloc: Global,
    form: DeclaratorForm,
    tokens: &'a [Token],
) -> Result<(Part<Declarator>, &'a [Token]), Fault<'a>>
    ensures reads { Gives (λ x. declarator_of x.node.value) (spec.omission form tokens.now) result }
    ensures height { IfOk result (λ x. (x.0.height ≡ 0) × (declarator_of x.0.node.value ≡ Omitted)) }
{
    match form {
        DeclaratorForm::Named => Err(Fault::Unfit(tokens)),
        DeclaratorForm::Abstract | DeclaratorForm::Parameter => {
            let part = make::omission(alloc)?;
            Ok((part, tokens))
        }
    }
}

/// A declarator where no height is left.
#[tactic(auto, unfolding(c_reading::specs::ReadDeclarator::no_declarator))]
pub(crate) fn no_declarator<'a>(
    alloc: Global,
    form: DeclaratorForm,
    tokens: &'a [Token],
) -> Result<(Part<Declarator>, &'a [Token]), Fault<'a>>
    ensures reads { Gives (λ x. declarator_of x.node.value) (spec.no_declarator form tokens.now) result }
    ensures height { IfOk result (λ x. (x.0.height ≡ 0) × (declarator_of x.0.node.value ≡ Omitted)) }
{
    if begins_declarator(form, tokens) {
        return Err(Fault::TooDeep(tokens));
    }
    omission(alloc, form, tokens)
}

/// A declarator of the form, by its next token.
#[cycle(reading)]
#[tactic(auto, unfolding(c_reading::specs::ReadDeclarator::declarator_at))]
pub(crate) fn declarator_at<'a>(
    alloc: Global,
    scope: &mut Scope,
    k: usize,
    form: DeclaratorForm,
    tokens: &'a [Token],
) -> Result<(Part<Declarator>, &'a [Token]), Fault<'a>>
    requires { k < 2 ^ 32 }
    ensures reads { Gives (λ x. declarator_of x.node.value)
        (spec.declarator_at k (parsers k) form scope.old tokens.now) result }
    ensures height { IfOk result (λ x. (x.0.height ≡ declarator_height (declarator_of x.0.node.value))
        × (x.0.height ≤ k + 1)) }
    ensures scope { IfOk result (λ x. scope.new ≡ scope.old ++ declarator_adds (declarator_of x.0.node.value)) }
{
    match tokens {
        [
            Token {
                body: Body::Mark(Punct::Star),
                ..
            },
            ..
        ] => star_declarator(alloc, scope, k, form, tokens),
        [
            Token {
                body: Body::Mark(Punct::OpenParen),
                ..
            },
            ..
        ] => paren_declarator(alloc, scope, k, form, tokens),
        [
            Token {
                body: Body::Mark(Punct::OpenBracket),
                ..
            },
            ..
        ] => bracket_declarator(alloc, scope, k, form, tokens),
        [
            Token {
                body: Body::Name(name),
                pos,
                ..
            },
            ..
        ] => name_declarator(alloc, scope, k, form, *pos, name, tokens),
        _ => omission(alloc, form, tokens),
    }
}

/// A pointer, whose asterisk is the next token.
#[cycle(reading)]
fn star_declarator<'a>(
    alloc: Global,
    scope: &mut Scope,
    k: usize,
    form: DeclaratorForm,
    tokens: &'a [Token],
) -> Result<(Part<Declarator>, &'a [Token]), Fault<'a>>
    requires { k < 2 ^ 32 }
    ensures reads { Gives (λ x. declarator_of x.node.value)
        (spec.room k (parsers k) form (skip (spec.pointer k (parsers k) form scope.old)) tokens.now) result }
    ensures height { IfOk result (λ x. (x.0.height ≡ declarator_height (declarator_of x.0.node.value))
        × (x.0.height ≤ k + 1)) }
    ensures scope { IfOk result (λ x. scope.new ≡ scope.old ++ declarator_adds (declarator_of x.0.node.value)) }
{
    match form {
        DeclaratorForm::Named => {
            if k == 0 {
                return Err(Fault::TooDeep(tokens));
            }
            pointer(alloc, scope, k, form, tail(tokens))
        }
        DeclaratorForm::Abstract | DeclaratorForm::Parameter => pointer(
            alloc,
            scope,
            k,
            form,
            tail(tokens),
        ),
    }
}

/// A pointer, behind its asterisk (6.7.6.1).
#[cycle(reading)]
#[tactic(auto, unfolding(c_reading::specs::ReadDeclarator::pointer))]
fn pointer<'a>(
    alloc: Global,
    scope: &mut Scope,
    k: usize,
    form: DeclaratorForm,
    tokens: &'a [Token],
) -> Result<(Part<Declarator>, &'a [Token]), Fault<'a>>
    requires { k < 2 ^ 32 }
    ensures reads { Gives (λ x. declarator_of x.node.value) (spec.pointer k (parsers k) form scope.old tokens.now)
        result }
    ensures height { IfOk result (λ x. (x.0.height ≡ declarator_height (declarator_of x.0.node.value))
        × (x.0.height ≤ k + 1)) }
    ensures scope { IfOk result (λ x. scope.new ≡ scope.old ++ declarator_adds (declarator_of x.0.node.value)) }
{
    let (words, rest) = qualifiers(alloc, tokens)?;
    let (inner, rest) = declarator(alloc, scope, k, form, rest)?;
    let whole = make::pointer(alloc, words, inner)?;
    Ok((whole, rest))
}

/// A declarator, or a list of parameters, whose opening parenthesis is the next token.
#[cycle(reading)]
fn paren_declarator<'a>(
    alloc: Global,
    scope: &mut Scope,
    k: usize,
    form: DeclaratorForm,
    tokens: &'a [Token],
) -> Result<(Part<Declarator>, &'a [Token]), Fault<'a>>
    requires { k < 2 ^ 32 }
    ensures reads { Gives (λ x. declarator_of x.node.value) (spec.open_by k (parsers k) form scope.old tokens.now)
        result }
    ensures height { IfOk result (λ x. (x.0.height ≡ declarator_height (declarator_of x.0.node.value))
        × (x.0.height ≤ k + 1)) }
    ensures scope { IfOk result (λ x. scope.new ≡ scope.old ++ declarator_adds (declarator_of x.0.node.value)) }
{
    match form {
        DeclaratorForm::Named => {
            if k == 0 {
                return Err(Fault::TooDeep(tokens));
            }
            nested_declarator(alloc, scope, k, form, tail(tokens))
        }
        DeclaratorForm::Abstract | DeclaratorForm::Parameter => behind_paren(
            alloc,
            scope,
            k,
            form,
            tail(tokens),
        ),
    }
}

/// Behind an opening parenthesis, where the identifier may be omitted.
#[cycle(reading)]
#[tactic(auto, unfolding(c_reading::specs::ReadDeclarator::behind_paren))]
fn behind_paren<'a>(
    alloc: Global,
    scope: &mut Scope,
    k: usize,
    form: DeclaratorForm,
    tokens: &'a [Token],
) -> Result<(Part<Declarator>, &'a [Token]), Fault<'a>>
    requires { k < 2 ^ 32 }
    ensures reads { Gives (λ x. declarator_of x.node.value)
        (spec.behind_paren k (parsers k) form scope.old tokens.now) result }
    ensures height { IfOk result (λ x. (x.0.height ≡ declarator_height (declarator_of x.0.node.value))
        × (x.0.height ≤ k + 1)) }
    ensures scope { IfOk result (λ x. scope.new ≡ scope.old ++ declarator_adds (declarator_of x.0.node.value)) }
{
    if is_mark(tokens, Punct::CloseParen) {
        let inner = make::omission(alloc)?;
        let left = make::function(alloc, inner, Parts::new(alloc), false)?;
        return suffixes(alloc, scope, k, left, tail(tokens));
    }
    if begins_type(scope, tokens) {
        if k == 0 {
            return Err(Fault::TooDeep(tokens));
        }
        return omitted_list(alloc, scope, k, tokens);
    }
    if begins_declarator(form, tokens) {
        if k == 0 {
            return Err(Fault::TooDeep(tokens));
        }
        return nested_declarator(alloc, scope, k, form, tokens);
    }
    Err(Fault::Unfit(tokens))
}

/// A parameter list of an omitted identifier, behind its opening parenthesis.
#[cycle(reading)]
#[tactic(auto, unfolding(c_reading::specs::ReadDeclarator::omitted_list))]
fn omitted_list<'a>(
    alloc: Global,
    scope: &mut Scope,
    k: usize,
    tokens: &'a [Token],
) -> Result<(Part<Declarator>, &'a [Token]), Fault<'a>>
    requires { k < 2 ^ 32 }
    ensures reads { Gives (λ x. declarator_of x.node.value) (spec.omitted_list k (parsers k) scope.old tokens.now)
        result }
    ensures height { IfOk result (λ x. (x.0.height ≡ declarator_height (declarator_of x.0.node.value))
        × (x.0.height ≤ k + 1)) }
    ensures scope { IfOk result (λ x. scope.new ≡ scope.old ++ declarator_adds (declarator_of x.0.node.value)) }
{
    let outer = scope.len();
    let (list, rest) = listed_parameters(alloc, scope, k, tokens)?;
    let rest = expect(rest, Punct::CloseParen)?;
    // parameters are in scope inside their list alone (6.2.1p4)
    scope.leave(outer);
    let inner = make::omission(alloc)?;
    let left = make::function(alloc, inner, list.all, list.variadic)?;
    suffixes(alloc, scope, k, left, rest)
}

/// A declarator in parentheses, behind the opening one.
#[cycle(reading)]
#[tactic(auto, unfolding(c_reading::specs::ReadDeclarator::nested_declarator))]
fn nested_declarator<'a>(
    alloc: Global,
    scope: &mut Scope,
    k: usize,
    form: DeclaratorForm,
    tokens: &'a [Token],
) -> Result<(Part<Declarator>, &'a [Token]), Fault<'a>>
    requires { k < 2 ^ 32 }
    ensures reads { Gives (λ x. declarator_of x.node.value)
        (spec.nested_declarator k (parsers k) form scope.old tokens.now)
        result }
    ensures height { IfOk result (λ x. (x.0.height ≡ declarator_height (declarator_of x.0.node.value))
        × (x.0.height ≤ k + 1)) }
    ensures scope { IfOk result (λ x. scope.new ≡ scope.old ++ declarator_adds (declarator_of x.0.node.value)) }
{
    let (inner, rest) = declarator(alloc, scope, k, form, tokens)?;
    let rest = expect(rest, Punct::CloseParen)?;
    let left = make::paren(alloc, inner)?;
    suffixes(alloc, scope, k, left, rest)
}

/// An array of an omitted identifier, where the form has one; its opening bracket is the next token.
#[cycle(reading)]
fn bracket_declarator<'a>(
    alloc: Global,
    scope: &mut Scope,
    k: usize,
    form: DeclaratorForm,
    tokens: &'a [Token],
) -> Result<(Part<Declarator>, &'a [Token]), Fault<'a>>
    requires { k < 2 ^ 32 }
    ensures reads { Gives (λ x. declarator_of x.node.value)
        (spec.bracket_by k (parsers k) form scope.old tokens.now) result }
    ensures height { IfOk result (λ x. (x.0.height ≡ declarator_height (declarator_of x.0.node.value))
        × (x.0.height ≤ k + 1)) }
    ensures scope { IfOk result (λ x. scope.new ≡ scope.old ++ declarator_adds (declarator_of x.0.node.value)) }
{
    match form {
        DeclaratorForm::Named => Err(Fault::Unfit(tokens)),
        DeclaratorForm::Abstract | DeclaratorForm::Parameter => unnamed_array(
            alloc, scope, k, tokens,
        ),
    }
}

/// An array of an omitted identifier, and all that follows.
#[cycle(reading)]
fn unnamed_array<'a>(
    alloc: Global,
    scope: &mut Scope,
    k: usize,
    tokens: &'a [Token],
) -> Result<(Part<Declarator>, &'a [Token]), Fault<'a>>
    requires { k < 2 ^ 32 }
    ensures reads { Gives (λ x. declarator_of x.node.value) (spec.unnamed_array k (parsers k) scope.old tokens.now)
        result }
    ensures height { IfOk result (λ x. (x.0.height ≡ declarator_height (declarator_of x.0.node.value))
        × (x.0.height ≤ k + 1)) }
    ensures scope { IfOk result (λ x. scope.new ≡ scope.old ++ declarator_adds (declarator_of x.0.node.value)) }
{
    let inner = make::omission(alloc)?;
    let (left, rest) = suffix_on(alloc, scope, k, inner, tokens)?;
    suffixes(alloc, scope, k, left, rest)
}

/// The identifier that is the next token, and all that follows; an abstract declarator ends before it.
#[cycle(reading)]
fn name_declarator<'a>(
    alloc: Global,
    scope: &mut Scope,
    k: usize,
    form: DeclaratorForm,
    pos: Pos,
    name: &Name,
    tokens: &'a [Token],
) -> Result<(Part<Declarator>, &'a [Token]), Fault<'a>>
    requires { k < 2 ^ 32 }
    ensures reads { Gives (λ x. declarator_of x.node.value)
        (spec.name_by k (parsers k) form scope.old pos name.now tokens.now) result }
    ensures height { IfOk result (λ x. (x.0.height ≡ declarator_height (declarator_of x.0.node.value))
        × (x.0.height ≤ k + 1)) }
    ensures scope { IfOk result (λ x. scope.new ≡ scope.old ++ declarator_adds (declarator_of x.0.node.value)) }
{
    match form {
        DeclaratorForm::Abstract => omission(alloc, form, tokens),
        DeclaratorForm::Named | DeclaratorForm::Parameter => {
            let left = make::name(alloc, pos, name)?;
            suffixes(alloc, scope, k, left, tail(tokens))
        }
    }
}
