//! Initializers (6.7.9).

ghost use Rattle.std.specs.Prelude.{◌≡◌, ◌+◌, ◌^◌, ◌<◌, ◌++◌, map, IfOk};
ghost use Rattle.c_parser.specs.Agree.{Gives};
ghost use Rattle.c_reading.specs.ReadBody as spec;
ghost use Rattle.c_reading.specs.Parser.{next_body};
ghost use Rattle.c_syntax.specs.ScopesUnit.{initializer_adds, item_adds, items_add};
ghost use Rattle.c_syntax.specs.ViewUnit as view;
ghost use Rattle.c_syntax.specs.ViewUnit.{initializer_of, item_of};

use crate::begins::begins_expr;
use crate::fault::Fault;
use crate::level::{ASSIGNMENT, CONDITIONAL};
use crate::make::initializer as make;
use crate::next::{expect, is_mark, place, tail};
use crate::read::height::expr;
use crate::scope::Scope;
use c_lexer::{Body, Punct, Token};
use c_syntax::initializer::{Initializer, Item};
use critical_table::Pos;
use std::alloc::Global;

/// Whether the token begins an initializer.
fn begins_initializer(scope: &Scope, tokens: &[Token]) -> bool
    ensures { result ≡ spec.begins_initializer scope.now (next_body tokens.now) }
{
    begins_expr(scope, tokens) || is_mark(tokens, Punct::OpenBrace)
}

/// Whether the token begins an initializer in braces, with its designator.
fn begins_item(scope: &Scope, tokens: &[Token]) -> bool
    ensures { result ≡ spec.begins_item scope.now (next_body tokens.now) }
{
    begins_initializer(scope, tokens)
        || is_mark(tokens, Punct::Dot)
        || is_mark(tokens, Punct::OpenBracket)
}

/// An initializer of a height at most.
#[cycle(initializing)]
pub(crate) fn initializer<'a>(
    alloc: Global,
    scope: &mut Scope,
    h: usize,
    tokens: &'a [Token],
) -> Result<(Box<Initializer>, &'a [Token]), Fault<'a>>
    requires { h < 2 ^ 32 }
    ensures reads { Gives (λ x. initializer_of x.value) ((spec.initializers h).initializer scope.old tokens.now)
        result }
    ensures scope { IfOk result (λ x. scope.new ≡ scope.old ++ initializer_adds (initializer_of x.0.value)) }
{
    if h > 0 {
        return initializer_at(alloc, scope, h - 1, tokens);
    }
    if begins_initializer(scope, tokens) {
        return Err(Fault::TooDeep(tokens));
    }
    Err(Fault::Unfit(tokens))
}

/// An expression, or a list in braces (6.7.9).
#[cycle(initializing)]
#[tactic(auto, unfolding(c_reading::specs::ReadBody::initializer_at))]
fn initializer_at<'a>(
    alloc: Global,
    scope: &mut Scope,
    k: usize,
    tokens: &'a [Token],
) -> Result<(Box<Initializer>, &'a [Token]), Fault<'a>>
    requires { k + 1 < 2 ^ 32 }
    ensures reads { Gives (λ x. initializer_of x.value)
        (spec.initializer_at k (spec.initializers k) scope.old tokens.now)
        result }
    ensures scope { IfOk result (λ x. scope.new ≡ scope.old ++ initializer_adds (initializer_of x.0.value)) }
{
    if is_mark(tokens, Punct::OpenBrace) {
        if k < 2 {
            return Err(Fault::TooDeep(tokens));
        }
        return braces(alloc, scope, k, place(tokens), tail(tokens));
    }
    let (value, rest) = expr(alloc, scope, k + 1, ASSIGNMENT, tokens)?;
    let value = make::single(alloc, value.node)?;
    Ok((value, rest))
}

/// What stands behind an opening brace at this place, and past the closing one.
#[cycle(initializing)]
#[tactic(auto, unfolding(c_reading::specs::ReadBody::braces))]
fn braces<'a>(
    alloc: Global,
    scope: &mut Scope,
    k: usize,
    pos: Pos,
    tokens: &'a [Token],
) -> Result<(Box<Initializer>, &'a [Token]), Fault<'a>>
    requires { k < 2 ^ 32 }
    ensures reads { Gives (λ x. initializer_of x.value)
        (spec.braces k (spec.initializers k) scope.old pos tokens.now) result }
    ensures scope { IfOk result (λ x. scope.new ≡ scope.old ++ initializer_adds (initializer_of x.0.value)) }
{
    let (all, rest) = listed_items(alloc, scope, k, tokens)?;
    let rest = expect(rest, Punct::CloseBrace)?;
    let whole = make::braces(alloc, pos, all.items, all.comma)?;
    Ok((whole, rest))
}

/// The items in braces, and whether a comma stands behind the last.
#[derive(Drop)]
struct Listed {
    items: Vec<Item>,
    comma: bool,
}

/// One item or more, and whether a comma stands behind the last.
#[cycle(initializing)]
fn listed_items<'a>(
    alloc: Global,
    scope: &mut Scope,
    k: usize,
    tokens: &'a [Token],
) -> Result<(Listed, &'a [Token]), Fault<'a>>
    requires { k < 2 ^ 32 }
    ensures reads { Gives (λ x. (map item_of x.items.items, x.comma))
        (spec.listed_items k (spec.initializers k) scope.old tokens.now) result }
    ensures scope { IfOk result (λ x. scope.new ≡ scope.old ++ items_add (view.items (map item_of x.0.items.items))) }
{
    let mut items = Vec::new(alloc);
    let mut rest = tokens;
    'each: loop {
        let (one, behind) = item(alloc, scope, k, rest)?;
        items.push(Box::into_inner(one))?;
        if !is_mark(behind, Punct::Comma) {
            let comma = false;
            return Ok((Listed { items, comma }, behind));
        }
        rest = tail(behind);
        if is_mark(rest, Punct::CloseBrace) {
            let comma = true;
            return Ok((Listed { items, comma }, rest));
        }
    }
}

/// An initializer in braces, with its designator, of a height at most.
#[cycle(initializing)]
fn item<'a>(
    alloc: Global,
    scope: &mut Scope,
    h: usize,
    tokens: &'a [Token],
) -> Result<(Box<Item>, &'a [Token]), Fault<'a>>
    requires { h < 2 ^ 32 }
    ensures reads { Gives (λ x. item_of x.value) ((spec.initializers h).item scope.old tokens.now) result }
    ensures scope { IfOk result (λ x. scope.new ≡ scope.old ++ item_adds (item_of x.0.value)) }
{
    if h > 0 {
        return item_at(alloc, scope, h - 1, tokens);
    }
    if begins_item(scope, tokens) {
        return Err(Fault::TooDeep(tokens));
    }
    Err(Fault::Unfit(tokens))
}

/// An initializer in braces, with its designator (6.7.9).
#[cycle(initializing)]
#[tactic(auto, unfolding(c_reading::specs::ReadBody::item_at))]
fn item_at<'a>(
    alloc: Global,
    scope: &mut Scope,
    k: usize,
    tokens: &'a [Token],
) -> Result<(Box<Item>, &'a [Token]), Fault<'a>>
    requires { k < 2 ^ 32 }
    ensures reads { Gives (λ x. item_of x.value) (spec.item_at k (spec.initializers k) scope.old tokens.now) result }
    ensures scope { IfOk result (λ x. scope.new ≡ scope.old ++ item_adds (item_of x.0.value)) }
{
    if is_mark(tokens, Punct::Dot) {
        if k == 0 {
            return Err(Fault::TooDeep(tokens));
        }
        return member_item(alloc, scope, k, place(tokens), tail(tokens));
    }
    if is_mark(tokens, Punct::OpenBracket) {
        if k == 0 {
            return Err(Fault::TooDeep(tokens));
        }
        return index_item(alloc, scope, k, place(tokens), tail(tokens));
    }
    let (value, rest) = initializer(alloc, scope, k, tokens)?;
    let one = make::plain(alloc, value)?;
    Ok((one, rest))
}

/// What stands behind the dot of a designator at this place.
#[cycle(initializing)]
#[tactic(auto, unfolding(c_reading::specs::ReadBody::member_item))]
fn member_item<'a>(
    alloc: Global,
    scope: &mut Scope,
    k: usize,
    pos: Pos,
    tokens: &'a [Token],
) -> Result<(Box<Item>, &'a [Token]), Fault<'a>>
    requires { k < 2 ^ 32 }
    ensures reads { Gives (λ x. item_of x.value) (spec.member_item k (spec.initializers k) scope.old pos tokens.now)
        result }
    ensures scope { IfOk result (λ x. scope.new ≡ scope.old ++ item_adds (item_of x.0.value)) }
{
    match tokens {
        [
            Token {
                body: Body::Name(name),
                ..
            },
            rest @ ..,
        ] => {
            let rest = expect(rest, Punct::Assign)?;
            let (value, rest) = initializer(alloc, scope, k, rest)?;
            let one = make::member(alloc, pos, name, value)?;
            Ok((one, rest))
        }
        _ => Err(Fault::Unfit(tokens)),
    }
}

/// What stands behind the bracket of a designator at this place.
#[cycle(initializing)]
#[tactic(auto, unfolding(c_reading::specs::ReadBody::index_item))]
fn index_item<'a>(
    alloc: Global,
    scope: &mut Scope,
    k: usize,
    pos: Pos,
    tokens: &'a [Token],
) -> Result<(Box<Item>, &'a [Token]), Fault<'a>>
    requires { k < 2 ^ 32 }
    ensures reads { Gives (λ x. item_of x.value) (spec.index_item k (spec.initializers k) scope.old pos tokens.now)
        result }
    ensures scope { IfOk result (λ x. scope.new ≡ scope.old ++ item_adds (item_of x.0.value)) }
{
    let (index, rest) = expr(alloc, scope, k, CONDITIONAL, tokens)?;
    let rest = expect(rest, Punct::CloseBracket)?;
    let rest = expect(rest, Punct::Assign)?;
    let (value, rest) = initializer(alloc, scope, k, rest)?;
    let one = make::index(alloc, pos, index.node, value)?;
    Ok((one, rest))
}
