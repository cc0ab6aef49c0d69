//! Selection statements (6.8.4).

ghost use Rattle.std.specs.Prelude.{◌≡◌, ◌^◌, ◌<◌, ◌++◌, map, IfOk};
ghost use Rattle.c_parser.specs.Agree.{Gives};
ghost use Rattle.c_reading.specs.ReadBody as spec;
ghost use Rattle.c_syntax.specs.ScopesUnit.{statement_adds};
ghost use Rattle.c_syntax.specs.ViewUnit as view;
ghost use Rattle.c_syntax.specs.ViewUnit.{statement_of, switch_item_of};

use crate::body::block::switch_run;
use crate::body::expression::controlling;
use crate::body::statement::statement;
use crate::fault::Fault;
use crate::make;
use crate::next::{expect, is_word, tail};
use crate::scope::Scope;
use c_lexer::{Punct, Token, Word};
use c_syntax::statement::{Statement, SwitchItem};
use critical_table::Pos;
use std::alloc::Global;

/// What is left of an `if` statement (6.8.4.1) behind its word.
#[cycle(executing)]
#[tactic(auto, unfolding(c_reading::specs::ReadBody::if_on))]
pub(crate) fn if_on<'a>(
    alloc: Global,
    scope: &mut Scope,
    k: usize,
    pos: Pos,
    tokens: &'a [Token],
) -> Result<(Box<Statement>, &'a [Token]), Fault<'a>>
    requires { k < 2 ^ 32 }
    ensures reads { Gives (λ x. statement_of x.value) (spec.if_on k (spec.statements k) scope.old pos tokens.now)
        result }
    ensures scope { IfOk result (λ x. scope.new ≡ scope.old ++ statement_adds (statement_of x.0.value)) }
{
    let outer = scope.len();
    let (test, rest) = controlling(alloc, scope, k, tokens)?;
    let tested = scope.len();
    let (then, rest) = statement(alloc, scope, k, rest)?;
    scope.leave(tested);
    if is_word(rest, Word::Else) {
        let (other, rest) = statement(alloc, scope, k, tail(rest))?;
        scope.leave(outer);
        let node = make::statement::if_else(alloc, pos, test, then, other)?;
        return Ok((node, rest));
    }
    scope.leave(outer);
    let node = make::statement::if_alone(alloc, pos, test, then)?;
    Ok((node, rest))
}

/// What is left of a `switch` statement (6.8.4.2) behind its word.
#[cycle(executing)]
#[tactic(auto, unfolding(c_reading::specs::ReadBody::switch_on))]
pub(crate) fn switch_on<'a>(
    alloc: Global,
    scope: &mut Scope,
    k: usize,
    pos: Pos,
    tokens: &'a [Token],
) -> Result<(Box<Statement>, &'a [Token]), Fault<'a>>
    requires { k < 2 ^ 32 }
    ensures reads { Gives (λ x. statement_of x.value)
        (spec.switch_on k (spec.statements k) scope.old pos tokens.now) result }
    ensures scope { IfOk result (λ x. scope.new ≡ scope.old ++ statement_adds (statement_of x.0.value)) }
{
    let outer = scope.len();
    let (test, rest) = controlling(alloc, scope, k, tokens)?;
    let rest = expect(rest, Punct::OpenBrace)?;
    let (items, rest) = switch_block(alloc, scope, k, rest)?;
    scope.leave(outer);
    let node = make::statement::switch(alloc, pos, test, items)?;
    Ok((node, rest))
}

/// The items of the block of a `switch` behind its opening brace, and past its closing brace.
#[cycle(executing)]
#[tactic(auto, unfolding(c_reading::specs::ReadBody::switch_with))]
fn switch_block<'a>(
    alloc: Global,
    scope: &mut Scope,
    k: usize,
    tokens: &'a [Token],
) -> Result<(Vec<SwitchItem>, &'a [Token]), Fault<'a>>
    requires { k < 2 ^ 32 }
    ensures reads { Gives (λ x. view.switch_items (map switch_item_of x.items))
        (spec.switch_with (spec.statements k).switch_item scope.old tokens.now) result }
    ensures scope { IfOk result (λ x. scope.new ≡ scope.old) }
{
    let outer = scope.len();
    let (items, rest) = switch_run(alloc, scope, k, tokens)?;
    scope.leave(outer);
    let rest = expect(rest, Punct::CloseBrace)?;
    Ok((items, rest))
}
