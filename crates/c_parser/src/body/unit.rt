//! External declarations, and the unit (6.9).

ghost use Rattle.std.specs.Prelude.{◌≡◌, ◌^◌, ◌<◌, ◌++◌, map, IfOk, is_some};
ghost use Rattle.c_parser.specs.Agree.{Gives};
ghost use Rattle.c_reading.specs.ReadBody as spec;
ghost use Rattle.c_reading.specs.Parser.{next_body};
ghost use Rattle.c_reading.specs.ReadToken as next;
ghost use Rattle.c_syntax.specs.Scopes as names;
ghost use Rattle.c_syntax.specs.Scopes.{specifiers_add, declarator_adds};
ghost use Rattle.c_syntax.specs.ScopesUnit.{own_parameters, external_adds};
ghost use Rattle.c_syntax.specs.View.{specifiers_of, declarator_of};
ghost use Rattle.c_syntax.specs.ViewUnit.{block_item_of, block_items, external_of};

use crate::body::assertion::assert_at;
use crate::body::declaration::declared_on;
use crate::body::statement::block;
use crate::declared::{declare_own_name, names_types};
use crate::declares::{declare_own_parameters, is_identifier};
use crate::fault::Fault;
use crate::make::unit;
use crate::next::{is_mark, is_word, tail};
use crate::read::height::declarator;
use crate::read::specifier::specifiers;
use crate::scope::Scope;
use c_lexer::{Punct, Token, Word};
use c_reading::declarator_form::DeclaratorForm;
use c_syntax::declaration::Declaration;
use c_syntax::declarator::Declarator;
use c_syntax::specifier::Specifier;
use c_syntax::statement::BlockItem;
use c_syntax::unit::External;
use std::alloc::Global;

/// Whether the part nearest to the identifier, parentheses aside, is a parameter list.
fn has_own_parameters(declarator: &Declarator) -> bool
    ensures { result ≡ is_some (own_parameters (declarator_of declarator.now)) }
{
    match declarator {
        Declarator::Omitted | Declarator::Name(..) => false,
        Declarator::DParen(inner)
        | Declarator::PointerTo(_, inner)
        | Declarator::ArrayOf(inner, _) => has_own_parameters(inner),
        Declarator::FunctionOf(inner, ..) => is_identifier(inner) || has_own_parameters(inner),
    }
}

/// Whether the body of a function follows the declarator.
fn is_body(declarator: &Declarator, tokens: &[Token]) -> bool
    ensures { result ≡ spec.is_body (declarator_of declarator.now) (next_body tokens.now) }
{
    is_mark(tokens, Punct::OpenBrace) && has_own_parameters(declarator)
}

/// The items of the body of a function, of a height at most.
fn block_lower<'a>(
    alloc: Global,
    scope: &mut Scope,
    k: usize,
    tokens: &'a [Token],
) -> Result<(Vec<BlockItem>, &'a [Token]), Fault<'a>>
    requires { k < 2 ^ 32 }
    ensures reads { Gives (λ x. block_items (map block_item_of x.items)) (spec.block_lower k scope.old tokens.now)
        result }
    ensures scope { IfOk result (λ x. scope.new ≡ scope.old) }
{
    if k == 0 {
        return Err(Fault::TooDeep(tokens));
    }
    block(alloc, scope, k - 1, tokens)
}

/// A function behind the opening brace of its body, in whose scope its parameters are too (6.2.1p4).
fn function<'a>(
    alloc: Global,
    scope: &mut Scope,
    k: usize,
    specifiers: Vec<Specifier>,
    declarator: Box<Declarator>,
    tokens: &'a [Token],
) -> Result<(Box<External>, &'a [Token]), Fault<'a>>
    requires { k < 2 ^ 32 }
    ensures reads { (outer : names.Scope) → scope.old ≡ outer ++ specifiers_add (specifiers_of specifiers.items)
        ++ declarator_adds (declarator_of declarator.value)
        → Gives (λ x. external_of x.value)
        (spec.function_in k
        (spec.function_scope k outer (specifiers_of specifiers.items) (declarator_of declarator.value))
        (specifiers_of specifiers.items) (declarator_of declarator.value) tokens.now) result }
    ensures scope { IfOk result (λ x. (outer : names.Scope)
        → scope.old ≡ outer ++ specifiers_add (specifiers_of specifiers.items)
        ++ declarator_adds (declarator_of declarator.value)
        → scope.new ≡ outer ++ external_adds (external_of x.0.value)) }
{
    declare_own_name(alloc, scope, names_types(&specifiers), &declarator)?;
    let outside = scope.len();
    declare_own_parameters(alloc, scope, &declarator)?;
    let (items, rest) = block_lower(alloc, scope, k, tokens)?;
    scope.leave(outside);
    let whole = unit::function(alloc, specifiers, declarator, items)?;
    Ok((whole, rest))
}

/// What is left of an external declaration behind its specifiers and its first declarator.
#[tactic(auto, unfolding(c_reading::specs::ReadBody::external_on))]
fn external_on<'a>(
    alloc: Global,
    scope: &mut Scope,
    k: usize,
    specifiers: Vec<Specifier>,
    declarator: Box<Declarator>,
    tokens: &'a [Token],
) -> Result<(Box<External>, &'a [Token]), Fault<'a>>
    requires { k < 2 ^ 32 }
    ensures reads { (outer : names.Scope) → scope.old ≡ outer ++ specifiers_add (specifiers_of specifiers.items)
        ++ declarator_adds (declarator_of declarator.value)
        → Gives (λ x. external_of x.value)
        (spec.external_on k outer (specifiers_of specifiers.items) (declarator_of declarator.value) tokens.now) result }
    ensures scope { IfOk result (λ x. (outer : names.Scope)
        → scope.old ≡ outer ++ specifiers_add (specifiers_of specifiers.items)
        ++ declarator_adds (declarator_of declarator.value)
        → scope.new ≡ outer ++ external_adds (external_of x.0.value)) }
{
    if is_body(&declarator, tokens) {
        return function(alloc, scope, k, specifiers, declarator, tail(tokens));
    }
    let (found, rest) = declared_on(alloc, scope, k, specifiers, declarator, tokens)?;
    let whole = unit::declaration(alloc, found)?;
    Ok((whole, rest))
}

/// What is left of an external declaration behind its specifiers.
fn external_by<'a>(
    alloc: Global,
    scope: &mut Scope,
    k: usize,
    specifiers: Vec<Specifier>,
    tokens: &'a [Token],
) -> Result<(Box<External>, &'a [Token]), Fault<'a>>
    requires { k < 2 ^ 32 }
    ensures reads { (outer : names.Scope) → scope.old ≡ outer ++ specifiers_add (specifiers_of specifiers.items)
        → Gives (λ x. external_of x.value)
        (spec.external_by k outer (specifiers_of specifiers.items)
        (next.is_mark Punct.Semicolon (next_body tokens.now)) tokens.now) result }
    ensures scope { IfOk result (λ x. (outer : names.Scope)
        → scope.old ≡ outer ++ specifiers_add (specifiers_of specifiers.items)
        → scope.new ≡ outer ++ external_adds (external_of x.0.value)) }
{
    if is_mark(tokens, Punct::Semicolon) {
        let declaration = Declaration {
            specifiers,
            declarators: Vec::new(alloc),
        };
        let whole = unit::declaration(alloc, declaration)?;
        return Ok((whole, tail(tokens)));
    }
    let (declarator, rest) = declarator(alloc, scope, k, DeclaratorForm::Named, tokens)?;
    external_on(alloc, scope, k, specifiers, declarator.node, rest)
}

/// An external declaration whose parts are of a height at most.
#[tactic(auto, unfolding(c_reading::specs::ReadBody::external_at))]
fn external_at<'a>(
    alloc: Global,
    scope: &mut Scope,
    k: usize,
    tokens: &'a [Token],
) -> Result<(Box<External>, &'a [Token]), Fault<'a>>
    requires { k < 2 ^ 32 }
    ensures reads { Gives (λ x. external_of x.value) (spec.external_at k scope.old tokens.now) result }
    ensures scope { IfOk result (λ x. scope.new ≡ scope.old ++ external_adds (external_of x.0.value)) }
{
    if is_word(tokens, Word::StaticAssert) {
        let (assert, rest) = assert_at(alloc, scope, k, tokens)?;
        let whole = unit::assertion(alloc, assert)?;
        return Ok((whole, rest));
    }
    let (specifiers, rest) = specifiers(alloc, scope, k, tokens)?;
    external_by(alloc, scope, k, specifiers.nodes, rest)
}

/// One external declaration after another, up to the end of the tokens.
pub(crate) fn externals(
    alloc: Global,
    k: usize,
    tokens: &[Token],
) -> Result<(Vec<External>, &[Token]), Fault<'_>>
    requires { k < 2 ^ 32 }
    ensures { Gives (λ x. map external_of x.items) (spec.externals k tokens.now) result }
{
    let mut scope = Scope::new(alloc)?;
    let (first, behind) = external_at(alloc, &mut scope, k, tokens)?;
    let mut all = Vec::new(alloc);
    all.push(Box::into_inner(first))?;
    let mut rest = behind;
    'each: while !rest.is_empty() {
        let (one, behind) = external_at(alloc, &mut scope, k, rest)?;
        all.push(Box::into_inner(one))?;
        rest = behind;
    }
    Ok((all, rest))
}
