//! Statements (6.8).

ghost use Rattle.std.specs.Prelude.{◌≡◌, ◌^◌, ◌<◌, ◌++◌, [], map, IfOk};
ghost use Rattle.c_parser.specs.Agree.{Gives};
ghost use Rattle.c_reading.specs.Parser.{next_body};
ghost use Rattle.c_reading.specs.ReadBody as spec;
ghost use Rattle.c_syntax.specs.ScopesUnit.{statement_adds};
ghost use Rattle.c_syntax.specs.TreeUnit as tree;
ghost use Rattle.c_syntax.specs.ViewUnit.{statement_of, block_item_of, block_items};

use crate::begins::begins_expr;
use crate::body::block::block_run;
use crate::body::expression::optional;
use crate::body::iteration::{do_on, for_on, while_on};
use crate::body::selection::{if_on, switch_on};
use crate::fault::Fault;
use crate::make;
use crate::next::{expect, is_mark};
use crate::scope::Scope;
use c_lexer::{Body, Punct, Token, Word};
use c_syntax::statement::{BlockItem, Statement};
use critical_table::Pos;
use std::alloc::Global;

/// Whether the token is a word that begins a statement.
fn begins_statement_word(tokens: &[Token]) -> bool
    ensures { result ≡ spec.begins_statement_word (next_body tokens.now) }
{
    matches!(
        tokens,
        [
            Token {
                body: Body::Word(
                    Word::If
                        | Word::Switch
                        | Word::While
                        | Word::Do
                        | Word::For
                        | Word::Break
                        | Word::Continue
                        | Word::Return
                ),
                ..
            },
            ..
        ]
    )
}

/// Whether the token begins a statement.
pub(crate) fn begins_statement(scope: &Scope, tokens: &[Token]) -> bool
    ensures { result ≡ spec.begins_statement scope.now (next_body tokens.now) }
{
    begins_expr(scope, tokens)
        || begins_statement_word(tokens)
        || is_mark(tokens, Punct::OpenBrace)
        || is_mark(tokens, Punct::Semicolon)
}

/// A statement of a height at most.
#[cycle(executing)]
pub(crate) fn statement<'a>(
    alloc: Global,
    scope: &mut Scope,
    h: usize,
    tokens: &'a [Token],
) -> Result<(Box<Statement>, &'a [Token]), Fault<'a>>
    requires { h < 2 ^ 32 }
    ensures reads { Gives (λ x. statement_of x.value) ((spec.statements h).statement scope.old tokens.now) result }
    ensures scope { IfOk result (λ x. scope.new ≡ scope.old ++ statement_adds (statement_of x.0.value)) }
{
    if h == 0 {
        if begins_statement(scope, tokens) {
            return Err(Fault::TooDeep(tokens));
        }
        return Err(Fault::Unfit(tokens));
    }
    statement_at(alloc, scope, h - 1, tokens)
}

/// A statement whose parts are of a height at most.
#[cycle(executing)]
#[tactic(auto, unfolding(c_reading::specs::ReadBody::statement_at))]
pub(crate) fn statement_at<'a>(
    alloc: Global,
    scope: &mut Scope,
    k: usize,
    tokens: &'a [Token],
) -> Result<(Box<Statement>, &'a [Token]), Fault<'a>>
    requires { k < 2 ^ 32 }
    ensures reads { Gives (λ x. statement_of x.value) (spec.statement_at k (spec.statements k) scope.old tokens.now)
        result }
    ensures scope { IfOk result (λ x. scope.new ≡ scope.old ++ statement_adds (statement_of x.0.value)) }
{
    let [first, rest @ ..] = tokens else {
        return expression_statement(alloc, scope, k, tokens);
    };
    let pos = first.pos;
    match &first.body {
        Body::Word(Word::If | Word::Switch | Word::While | Word::Do | Word::For) if k == 0 => {
            Err(Fault::TooDeep(tokens))
        }
        Body::Mark(Punct::OpenBrace) => compound(alloc, scope, k, rest),
        Body::Word(Word::If) => if_on(alloc, scope, k, pos, rest),
        Body::Word(Word::Switch) => switch_on(alloc, scope, k, pos, rest),
        Body::Word(Word::While) => while_on(alloc, scope, k, pos, rest),
        Body::Word(Word::Do) => do_on(alloc, scope, k, pos, rest),
        Body::Word(Word::For) => for_on(alloc, scope, k, pos, rest),
        Body::Word(Word::Break) => break_on(alloc, pos, rest),
        Body::Word(Word::Continue) => continue_on(alloc, pos, rest),
        Body::Word(Word::Return) => return_on(alloc, scope, k, pos, rest),
        _ => expression_statement(alloc, scope, k, tokens),
    }
}

/// A block (6.8.2) behind its opening brace.
#[cycle(executing)]
fn compound<'a>(
    alloc: Global,
    scope: &mut Scope,
    k: usize,
    tokens: &'a [Token],
) -> Result<(Box<Statement>, &'a [Token]), Fault<'a>>
    requires { k < 2 ^ 32 }
    ensures reads { Gives (λ x. statement_of x.value) (spec.compound k (spec.statements k) scope.old tokens.now)
        result }
    ensures scope { IfOk result (λ x. scope.new ≡ scope.old ++ statement_adds (statement_of x.0.value)) }
{
    let (items, rest) = block(alloc, scope, k, tokens)?;
    let node = make::statement::block(alloc, items)?;
    Ok((node, rest))
}

/// The items of a block behind its opening brace, of a height at most, and past its closing brace.
#[cycle(executing)]
#[tactic(auto, unfolding(c_reading::specs::ReadBody::block_with))]
pub(crate) fn block<'a>(
    alloc: Global,
    scope: &mut Scope,
    k: usize,
    tokens: &'a [Token],
) -> Result<(Vec<BlockItem>, &'a [Token]), Fault<'a>>
    requires { k < 2 ^ 32 }
    ensures reads { Gives (λ x. block_items (map block_item_of x.items))
        (spec.block_with (spec.statements k).block_item scope.old tokens.now) result }
    ensures scope { IfOk result (λ x. scope.new ≡ scope.old) }
{
    let outer = scope.len();
    let (items, rest) = block_run(alloc, scope, k, tokens)?;
    scope.leave(outer);
    let rest = expect(rest, Punct::CloseBrace)?;
    Ok((items, rest))
}

/// An expression statement (6.8.3).
fn expression_statement<'a>(
    alloc: Global,
    scope: &mut Scope,
    k: usize,
    tokens: &'a [Token],
) -> Result<(Box<Statement>, &'a [Token]), Fault<'a>>
    requires { k < 2 ^ 32 }
    ensures reads { Gives (λ x. statement_of x.value)
        (spec.expression_statement k (spec.statements k) scope.old tokens.now)
        result }
    ensures scope { IfOk result (λ x. scope.new ≡ scope.old ++ statement_adds (statement_of x.0.value)) }
{
    let (expr, rest) = optional(alloc, scope, k, Punct::Semicolon, tokens)?;
    let node = Box::new(alloc, Statement::ExprStmt(Box::into_inner(expr)))?;
    Ok((node, rest))
}

/// What is left of a `return` statement (6.8.6.4) behind its word.
fn return_on<'a>(
    alloc: Global,
    scope: &mut Scope,
    k: usize,
    pos: Pos,
    tokens: &'a [Token],
) -> Result<(Box<Statement>, &'a [Token]), Fault<'a>>
    requires { k < 2 ^ 32 }
    ensures reads { Gives (λ x. statement_of x.value)
        (spec.return_on k (spec.statements k) scope.old pos tokens.now) result }
    ensures scope { IfOk result (λ x. scope.new ≡ scope.old ++ statement_adds (statement_of x.0.value)) }
{
    let (value, rest) = optional(alloc, scope, k, Punct::Semicolon, tokens)?;
    let node = Box::new(alloc, Statement::Return(pos, Box::into_inner(value)))?;
    Ok((node, rest))
}

/// What is left of a `break` statement (6.8.6.3) behind its word.
fn break_on(
    alloc: Global,
    pos: Pos,
    tokens: &[Token],
) -> Result<(Box<Statement>, &[Token]), Fault<'_>>
    ensures reads { Gives (λ x. statement_of x.value) (spec.jump_on (tree.Break pos) tokens.now) result }
    ensures scope { IfOk result (λ x. statement_adds (statement_of x.0.value) ≡ []) }
{
    let rest = expect(tokens, Punct::Semicolon)?;
    let node = Box::new(alloc, Statement::Break(pos))?;
    Ok((node, rest))
}

/// What is left of a `continue` statement (6.8.6.2) behind its word.
fn continue_on(
    alloc: Global,
    pos: Pos,
    tokens: &[Token],
) -> Result<(Box<Statement>, &[Token]), Fault<'_>>
    ensures reads { Gives (λ x. statement_of x.value) (spec.jump_on (tree.Continue pos) tokens.now) result }
    ensures scope { IfOk result (λ x. statement_adds (statement_of x.0.value) ≡ []) }
{
    let rest = expect(tokens, Punct::Semicolon)?;
    let node = Box::new(alloc, Statement::Continue(pos))?;
    Ok((node, rest))
}
