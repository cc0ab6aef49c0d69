//! Iteration statements (6.8.5).

ghost use Rattle.std.specs.Prelude.{◌≡◌, ◌^◌, ◌<◌, ◌++◌, [], IfOk};
ghost use Rattle.c_parser.specs.Agree.{Gives};
ghost use Rattle.c_reading.specs.ReadBody as spec;
ghost use Rattle.c_syntax.specs.ScopesUnit.{declaration_adds, for_init_adds, statement_adds};
ghost use Rattle.c_syntax.specs.ViewUnit.{declaration_of, for_init_of, statement_of};

use crate::begins::begins_type;
use crate::body::declaration::declaration_at;
use crate::body::expression::{controlling, optional};
use crate::body::statement::statement;
use crate::fault::Fault;
use crate::make;
use crate::next::{expect, is_word, tail};
use crate::scope::Scope;
use c_lexer::{Punct, Token, Word};
use c_syntax::declaration::Declaration;
use c_syntax::statement::{ForInit, Statement};
use critical_table::Pos;
use std::alloc::Global;

/// What is left of a `while` statement (6.8.5.1) behind its word.
#[cycle(executing)]
#[tactic(auto, unfolding(c_reading::specs::ReadBody::while_on))]
pub(crate) fn while_on<'a>(
    alloc: Global,
    scope: &mut Scope,
    k: usize,
    pos: Pos,
    tokens: &'a [Token],
) -> Result<(Box<Statement>, &'a [Token]), Fault<'a>>
    requires { k < 2 ^ 32 }
    ensures reads { Gives (λ x. statement_of x.value) (spec.while_on k (spec.statements k) scope.old pos tokens.now)
        result }
    ensures scope { IfOk result (λ x. scope.new ≡ scope.old ++ statement_adds (statement_of x.0.value)) }
{
    let outer = scope.len();
    let (test, rest) = controlling(alloc, scope, k, tokens)?;
    let (body, rest) = statement(alloc, scope, k, rest)?;
    scope.leave(outer);
    let node = make::statement::while_loop(alloc, pos, test, body)?;
    Ok((node, rest))
}

/// What is left of a `do` statement (6.8.5.2) behind its word.
#[cycle(executing)]
#[tactic(auto, unfolding(c_reading::specs::ReadBody::do_on))]
pub(crate) fn do_on<'a>(
    alloc: Global,
    scope: &mut Scope,
    k: usize,
    pos: Pos,
    tokens: &'a [Token],
) -> Result<(Box<Statement>, &'a [Token]), Fault<'a>>
    requires { k < 2 ^ 32 }
    ensures reads { Gives (λ x. statement_of x.value) (spec.do_on k (spec.statements k) scope.old pos tokens.now)
        result }
    ensures scope { IfOk result (λ x. scope.new ≡ scope.old ++ statement_adds (statement_of x.0.value)) }
{
    let outer = scope.len();
    let (body, rest) = statement(alloc, scope, k, tokens)?;
    scope.leave(outer);
    if !is_word(rest, Word::While) {
        return Err(Fault::Unfit(rest));
    }
    let (test, rest) = controlling(alloc, scope, k, tail(rest))?;
    scope.leave(outer);
    let rest = expect(rest, Punct::Semicolon)?;
    let node = make::statement::do_loop(alloc, pos, body, test)?;
    Ok((node, rest))
}

/// What is left of a `for` statement (6.8.5.3) behind its word.
#[cycle(executing)]
#[tactic(auto, unfolding(c_reading::specs::ReadBody::for_on))]
pub(crate) fn for_on<'a>(
    alloc: Global,
    scope: &mut Scope,
    k: usize,
    pos: Pos,
    tokens: &'a [Token],
) -> Result<(Box<Statement>, &'a [Token]), Fault<'a>>
    requires { k < 2 ^ 32 }
    ensures reads { Gives (λ x. statement_of x.value) (spec.for_on k (spec.statements k) scope.old pos tokens.now)
        result }
    ensures scope { IfOk result (λ x. scope.new ≡ scope.old ++ statement_adds (statement_of x.0.value)) }
{
    let outer = scope.len();
    let rest = expect(tokens, Punct::OpenParen)?;
    let (init, rest) = for_init(alloc, scope, k, rest)?;
    let (node, rest) = for_begun(alloc, scope, k, pos, init, rest)?;
    scope.leave(outer);
    Ok((node, rest))
}

/// What is left of a `for` statement behind how it begins.
#[cycle(executing)]
fn for_begun<'a>(
    alloc: Global,
    scope: &mut Scope,
    k: usize,
    pos: Pos,
    init: Box<ForInit>,
    tokens: &'a [Token],
) -> Result<(Box<Statement>, &'a [Token]), Fault<'a>>
    requires { k < 2 ^ 32 }
    ensures reads { Gives (λ x. statement_of x.value)
        (spec.for_begun k (spec.statements k) scope.old pos (for_init_of init.value) tokens.now) result }
    ensures scope { IfOk result (λ x. scope.new ≡ scope.old ++ statement_adds (statement_of x.0.value)) }
    ensures closed { IfOk result (λ x. statement_adds (statement_of x.0.value) ≡ []) }
{
    let outer = scope.len();
    let (test, rest) = optional(alloc, scope, k, Punct::Semicolon, tokens)?;
    let (step, rest) = optional(alloc, scope, k, Punct::CloseParen, rest)?;
    let (body, rest) = statement(alloc, scope, k, rest)?;
    scope.leave(outer);
    let node = make::statement::for_loop(alloc, pos, init, test, step, body)?;
    Ok((node, rest))
}

/// How a `for` statement begins, past the first semicolon.
#[tactic(auto, unfolding(c_reading::specs::ReadBody::for_init))]
fn for_init<'a>(
    alloc: Global,
    scope: &mut Scope,
    k: usize,
    tokens: &'a [Token],
) -> Result<(Box<ForInit>, &'a [Token]), Fault<'a>>
    requires { k < 2 ^ 32 }
    ensures reads { Gives (λ x. for_init_of x.value) (spec.for_init k (spec.statements k) scope.old tokens.now) result }
    ensures scope { IfOk result (λ x. scope.new ≡ scope.old ++ for_init_adds (for_init_of x.0.value)) }
{
    if begins_type(scope, tokens) {
        let (declaration, rest) = declaration_lower(alloc, scope, k, tokens)?;
        let init = Box::new(alloc, ForInit::Declaration(declaration))?;
        return Ok((init, rest));
    }
    let (expr, rest) = optional(alloc, scope, k, Punct::Semicolon, tokens)?;
    let init = Box::new(alloc, ForInit::Expression(Box::into_inner(expr)))?;
    Ok((init, rest))
}

/// A declaration in a `for` statement, which is the higher by one than its own parts.
fn declaration_lower<'a>(
    alloc: Global,
    scope: &mut Scope,
    h: usize,
    tokens: &'a [Token],
) -> Result<(Declaration, &'a [Token]), Fault<'a>>
    requires { h < 2 ^ 32 }
    ensures reads { Gives (λ x. declaration_of x) (spec.declaration_lower h scope.old tokens.now) result }
    ensures scope { IfOk result (λ x. scope.new ≡ scope.old ++ declaration_adds (declaration_of x.0)) }
{
    if h == 0 {
        return Err(Fault::TooDeep(tokens));
    }
    declaration_at(alloc, scope, h - 1, tokens)
}
