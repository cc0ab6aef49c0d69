//! What stands in blocks (6.8.2), and in the block of a `switch` (6.8.4.2).

ghost use Rattle.std.specs.Prelude.{◌≡◌, ◌^◌, ◌<◌, ◌≤◌, ◌++◌, length, take, map, IfOk};
ghost use Rattle.c_parser.specs.Agree.{Gives};
ghost use Rattle.c_reading.specs.Parser.{next_body};
ghost use Rattle.c_reading.specs.ReadBody as spec;
ghost use Rattle.c_syntax.specs.Scopes as names;
ghost use Rattle.c_syntax.specs.ScopesUnit.{block_item_adds, switch_item_adds};
ghost use Rattle.c_syntax.specs.ViewUnit.{block_item_of, switch_item_of};

use crate::begins::begins_type;
use crate::body::assertion::assert_at;
use crate::body::declaration::declaration_at;
use crate::body::statement::{begins_statement, statement_at};
use crate::fault::Fault;
use crate::level::CONDITIONAL;
use crate::next::{expect, is_mark, is_word, place, tail};
use crate::read::height::expr;
use crate::scope::Scope;
use c_lexer::{Punct, Token, Word};
use c_syntax::statement::{BlockItem, SwitchItem};
use critical_table::Pos;
use std::alloc::Global;

/// Whether the token begins an item of a block.
fn begins_block_item(scope: &Scope, tokens: &[Token]) -> bool
    ensures { result ≡ spec.begins_block_item scope.now (next_body tokens.now) }
{
    begins_statement(scope, tokens)
        || begins_type(scope, tokens)
        || is_word(tokens, Word::StaticAssert)
}

/// Whether the token begins an item of the block of a `switch`.
fn begins_switch_item(scope: &Scope, tokens: &[Token]) -> bool
    ensures { result ≡ spec.begins_switch_item scope.now (next_body tokens.now) }
{
    begins_block_item(scope, tokens)
        || is_word(tokens, Word::Case)
        || is_word(tokens, Word::Default)
}

/// Whether the next token ends no block.
fn goes_item(tokens: &[Token]) -> bool
    ensures { (scope : names.Scope) → result ≡ spec.goes_item scope (next_body tokens.now) }
{
    !tokens.is_empty() && !is_mark(tokens, Punct::CloseBrace)
}

/// An item of a block, of a height at most.
#[cycle(executing)]
fn block_item<'a>(
    alloc: Global,
    scope: &mut Scope,
    h: usize,
    tokens: &'a [Token],
) -> Result<(Box<BlockItem>, &'a [Token]), Fault<'a>>
    requires { h < 2 ^ 32 }
    ensures reads { Gives (λ x. block_item_of x.value) ((spec.statements h).block_item scope.old tokens.now) result }
    ensures scope { IfOk result (λ x. scope.new ≡ scope.old ++ block_item_adds (block_item_of x.0.value)) }
{
    if h == 0 {
        if begins_block_item(scope, tokens) {
            return Err(Fault::TooDeep(tokens));
        }
        return Err(Fault::Unfit(tokens));
    }
    block_item_at(alloc, scope, h - 1, tokens)
}

/// An item of a block whose parts are of a height at most (6.8.2).
#[cycle(executing)]
#[tactic(auto, unfolding(c_reading::specs::ReadBody::block_item_at))]
fn block_item_at<'a>(
    alloc: Global,
    scope: &mut Scope,
    k: usize,
    tokens: &'a [Token],
) -> Result<(Box<BlockItem>, &'a [Token]), Fault<'a>>
    requires { k < 2 ^ 32 }
    ensures reads { Gives (λ x. block_item_of x.value)
        (spec.block_item_at k (spec.statements k) scope.old tokens.now) result }
    ensures scope { IfOk result (λ x. scope.new ≡ scope.old ++ block_item_adds (block_item_of x.0.value)) }
{
    if begins_type(scope, tokens) {
        let (declaration, rest) = declaration_at(alloc, scope, k, tokens)?;
        let item = Box::new(alloc, BlockItem::Declaration(declaration))?;
        return Ok((item, rest));
    }
    if is_word(tokens, Word::StaticAssert) {
        let (assert, rest) = assert_at(alloc, scope, k, tokens)?;
        let item = Box::new(alloc, BlockItem::Assert(Box::into_inner(assert)))?;
        return Ok((item, rest));
    }
    let (statement, rest) = statement_at(alloc, scope, k, tokens)?;
    let item = Box::new(alloc, BlockItem::Statement(Box::into_inner(statement)))?;
    Ok((item, rest))
}

/// An item of the block of a `switch`, of a height at most.
#[cycle(executing)]
fn switch_item<'a>(
    alloc: Global,
    scope: &mut Scope,
    h: usize,
    tokens: &'a [Token],
) -> Result<(Box<SwitchItem>, &'a [Token]), Fault<'a>>
    requires { h < 2 ^ 32 }
    ensures reads { Gives (λ x. switch_item_of x.value) ((spec.statements h).switch_item scope.old tokens.now) result }
    ensures scope { IfOk result (λ x. scope.new ≡ scope.old ++ switch_item_adds (switch_item_of x.0.value)) }
{
    if h == 0 {
        if begins_switch_item(scope, tokens) {
            return Err(Fault::TooDeep(tokens));
        }
        return Err(Fault::Unfit(tokens));
    }
    switch_item_at(alloc, scope, h - 1, tokens)
}

/// A label, or an item of a block, in the block of a `switch` (6.8.1, 6.8.4.2).
#[cycle(executing)]
#[tactic(auto, unfolding(c_reading::specs::ReadBody::switch_item_at))]
fn switch_item_at<'a>(
    alloc: Global,
    scope: &mut Scope,
    k: usize,
    tokens: &'a [Token],
) -> Result<(Box<SwitchItem>, &'a [Token]), Fault<'a>>
    requires { k < 2 ^ 32 }
    ensures reads { Gives (λ x. switch_item_of x.value)
        (spec.switch_item_at k (spec.statements k) scope.old tokens.now) result }
    ensures scope { IfOk result (λ x. scope.new ≡ scope.old ++ switch_item_adds (switch_item_of x.0.value)) }
{
    let pos = place(tokens);
    if is_word(tokens, Word::Case) {
        if k == 0 {
            return Err(Fault::TooDeep(tokens));
        }
        return case_on(alloc, scope, k, pos, tail(tokens));
    }
    if is_word(tokens, Word::Default) {
        let rest = expect(tail(tokens), Punct::Colon)?;
        let label = Box::new(alloc, SwitchItem::Default(pos))?;
        return Ok((label, rest));
    }
    let (item, rest) = block_item_at(alloc, scope, k, tokens)?;
    let item = Box::new(alloc, SwitchItem::Item(Box::into_inner(item)))?;
    Ok((item, rest))
}

/// What is left of a label of a `switch` behind its word `case` (6.8.1).
#[tactic(auto, unfolding(c_reading::specs::ReadBody::case_on))]
fn case_on<'a>(
    alloc: Global,
    scope: &mut Scope,
    k: usize,
    pos: Pos,
    tokens: &'a [Token],
) -> Result<(Box<SwitchItem>, &'a [Token]), Fault<'a>>
    requires { k < 2 ^ 32 }
    ensures reads { Gives (λ x. switch_item_of x.value)
        (spec.case_on k (spec.statements k) scope.old pos tokens.now) result }
    ensures scope { IfOk result (λ x. scope.new ≡ scope.old ++ switch_item_adds (switch_item_of x.0.value)) }
{
    let (value, rest) = expr(alloc, scope, k, CONDITIONAL, tokens)?;
    let rest = expect(rest, Punct::Colon)?;
    let label = Box::new(alloc, SwitchItem::Case(pos, Box::into_inner(value.node)))?;
    Ok((label, rest))
}

/// The items of a block, up to the token that ends it.
#[cycle(executing)]
pub(crate) fn block_run<'a>(
    alloc: Global,
    scope: &mut Scope,
    k: usize,
    tokens: &'a [Token],
) -> Result<(Vec<BlockItem>, &'a [Token]), Fault<'a>>
    requires { k < 2 ^ 32 }
    ensures reads { Gives (λ x. map block_item_of x.items)
        (spec.block_run (spec.statements k).block_item scope.old tokens.now) result }
    ensures longer { IfOk result (λ _. length scope.old ≤ length scope.new) }
    ensures kept { IfOk result (λ _. take (length scope.old) scope.new ≡ scope.old) }
{
    let mut items = Vec::new(alloc);
    let mut rest = tokens;
    'each: while goes_item(rest) {
        let (item, behind) = block_item(alloc, scope, k, rest)?;
        items.push(Box::into_inner(item))?;
        rest = behind;
    }
    Ok((items, rest))
}

/// The items of the block of a `switch`, up to the token that ends it.
#[cycle(executing)]
pub(crate) fn switch_run<'a>(
    alloc: Global,
    scope: &mut Scope,
    k: usize,
    tokens: &'a [Token],
) -> Result<(Vec<SwitchItem>, &'a [Token]), Fault<'a>>
    requires { k < 2 ^ 32 }
    ensures reads { Gives (λ x. map switch_item_of x.items)
        (spec.switch_run (spec.statements k).switch_item scope.old tokens.now) result }
    ensures longer { IfOk result (λ _. length scope.old ≤ length scope.new) }
    ensures kept { IfOk result (λ _. take (length scope.old) scope.new ≡ scope.old) }
{
    let mut items = Vec::new(alloc);
    let mut rest = tokens;
    'each: while goes_item(rest) {
        let (item, behind) = switch_item(alloc, scope, k, rest)?;
        items.push(Box::into_inner(item))?;
        rest = behind;
    }
    Ok((items, rest))
}
