//! The printer of initializers, declarations, statements and the unit.

ghost use Rattle.std.specs.Prelude.{◌≡◌, ◌++◌, ◌∷◌, [], map, IfOk};
ghost use Rattle.std.specs.List.{flat_map};
ghost use Rattle.std.specs.Option.{option_map};
ghost use Rattle.c_syntax.specs.SpellingUnit as spec;
ghost use Rattle.c_syntax.specs.Tokens.{commas};
ghost use Rattle.c_syntax.specs.Tokens as tokens;
ghost use Rattle.c_syntax.specs.View.{expr_of};
ghost use Rattle.c_syntax.specs.ViewUnit as view;

use crate::declaration::{Assert, Declaration, InitDeclarator};
use crate::expression::Expr;
use crate::initializer::{Initializer, Item};
use crate::output::{Output, comma_if, literals, mark, mark_at, name, word, word_at};
use crate::spell_expression::{declarator, expression, paren, specifiers};
use crate::spelled::Spelled;
use crate::statement::{BlockItem, ForInit, Statement, SwitchItem};
use crate::unit::{External, Function, Tree};
use c_lexer::{Punct, Word};
use critical_table::Pos;
use std::alloc::{AllocError, Global};

#[cycle(initializers)]
fn initializer(alloc: Global, out: &mut Output, of: &Initializer) -> Result<(), AllocError>
    ensures { IfOk result (λ _. out.new.items ≡ out.old.items ++ spec.spell_initializer (view.initializer_of of.now)) }
{
    match of {
        Initializer::Expression(expr) => expression(alloc, out, expr),
        Initializer::Braces(pos, list, comma) => {
            mark_at(out, *pos, Punct::OpenBrace)?;
            items(alloc, out, list.as_slice())?;
            comma_if(out, *comma)?;
            mark(out, Punct::CloseBrace)
        }
    }
}

#[cycle(initializers)]
fn items(alloc: Global, out: &mut Output, list: &[Item]) -> Result<(), AllocError>
    ensures { IfOk result (λ _. out.new.items
        ≡ out.old.items ++ commas (map (λ i. spec.spell_item (view.item_of i)) list.now)) }
{
    let [first, rest @ ..] = list else {
        return Ok(());
    };
    item(alloc, out, first)?;
    for each in rest {
        mark(out, Punct::Comma)?;
        item(alloc, out, each)?;
    }
    Ok(())
}

#[cycle(initializers)]
fn item(alloc: Global, out: &mut Output, each: &Item) -> Result<(), AllocError>
    ensures { IfOk result (λ _. out.new.items ≡ out.old.items ++ spec.spell_item (view.item_of each.now)) }
{
    match each {
        Item::Plain(of) => initializer(alloc, out, of),
        Item::Member(pos, member, of) => {
            mark_at(out, *pos, Punct::Dot)?;
            name(alloc, out, member)?;
            mark(out, Punct::Assign)?;
            initializer(alloc, out, of)
        }
        Item::Index(pos, index, of) => {
            mark_at(out, *pos, Punct::OpenBracket)?;
            expression(alloc, out, index)?;
            mark(out, Punct::CloseBracket)?;
            mark(out, Punct::Assign)?;
            initializer(alloc, out, of)
        }
    }
}

fn init_declarator(alloc: Global, out: &mut Output, one: &InitDeclarator) -> Result<(), AllocError>
    ensures { IfOk result (λ _. out.new.items
        ≡ out.old.items ++ spec.spell_init_declarator (view.init_declarator_of one.now)) }
{
    declarator(alloc, out, &one.declarator)?;
    match &one.initializer {
        None => Ok(()),
        Some(of) => {
            mark(out, Punct::Assign)?;
            initializer(alloc, out, of)
        }
    }
}

fn init_declarators(
    alloc: Global,
    out: &mut Output,
    list: &[InitDeclarator],
) -> Result<(), AllocError>
    ensures { IfOk result (λ _. out.new.items
        ≡ out.old.items ++ commas (map (λ d. spec.spell_init_declarator (view.init_declarator_of d)) list.now)) }
{
    let [first, rest @ ..] = list else {
        return Ok(());
    };
    init_declarator(alloc, out, first)?;
    for one in rest {
        mark(out, Punct::Comma)?;
        init_declarator(alloc, out, one)?;
    }
    Ok(())
}

fn declaration(alloc: Global, out: &mut Output, of: &Declaration) -> Result<(), AllocError>
    ensures { IfOk result (λ _. out.new.items ≡ out.old.items ++ spec.spell_declaration (view.declaration_of of.now)) }
{
    specifiers(alloc, out, of.specifiers.as_slice())?;
    init_declarators(alloc, out, of.declarators.as_slice())?;
    mark(out, Punct::Semicolon)
}

fn assertion(alloc: Global, out: &mut Output, of: &Assert) -> Result<(), AllocError>
    ensures { IfOk result (λ _. out.new.items ≡ out.old.items ++ spec.spell_assert (view.assert_of of.now)) }
{
    word_at(out, of.pos, Word::StaticAssert)?;
    mark(out, Punct::OpenParen)?;
    expression(alloc, out, &of.condition)?;
    mark(out, Punct::Comma)?;
    literals(alloc, out, None, &of.message)?;
    mark(out, Punct::CloseParen)?;
    mark(out, Punct::Semicolon)
}

fn optional(alloc: Global, out: &mut Output, expr: &Option<Expr>) -> Result<(), AllocError>
    ensures { IfOk result (λ _. out.new.items ≡ out.old.items ++ spec.spell_optional (option_map expr_of expr.now)) }
{
    match expr {
        None => Ok(()),
        Some(expr) => expression(alloc, out, expr),
    }
}

fn for_init(alloc: Global, out: &mut Output, init: &ForInit) -> Result<(), AllocError>
    ensures { IfOk result (λ _. out.new.items ≡ out.old.items ++ spec.spell_for_init (view.for_init_of init.now)) }
{
    match init {
        ForInit::Declaration(of) => declaration(alloc, out, of),
        ForInit::Expression(expr) => optional_statement(alloc, out, expr),
    }
}

/// `expression ;`
fn optional_statement(
    alloc: Global,
    out: &mut Output,
    expr: &Option<Expr>,
) -> Result<(), AllocError>
    ensures { IfOk result (λ _. out.new.items
        ≡ out.old.items ++ (spec.spell_optional (option_map expr_of expr.now) ++ tokens.mark Punct.Semicolon ∷ [])) }
{
    optional(alloc, out, expr)?;
    mark(out, Punct::Semicolon)
}

/// A word and the controlling expression behind it.
fn head(
    alloc: Global,
    out: &mut Output,
    pos: Pos,
    first: Word,
    test: &Expr,
) -> Result<(), AllocError>
    ensures { IfOk result (λ _. out.new.items
        ≡ out.old.items ++ tokens.word_at pos first ∷ spec.spell_controlling (expr_of test.now)) }
{
    word_at(out, pos, first)?;
    paren(alloc, out, test)
}

/// `for` and what stands in its parentheses.
fn for_head(
    alloc: Global,
    out: &mut Output,
    pos: Pos,
    init: &ForInit,
    test: &Option<Expr>,
    step: &Option<Expr>,
) -> Result<(), AllocError>
    ensures { IfOk result (λ _. out.new.items
        ≡ out.old.items ++ spec.spell_for_head pos (view.for_init_of init.now) (option_map expr_of test.now)
        (option_map expr_of step.now)) }
{
    word_at(out, pos, Word::For)?;
    mark(out, Punct::OpenParen)?;
    for_init(alloc, out, init)?;
    optional_statement(alloc, out, test)?;
    optional(alloc, out, step)?;
    mark(out, Punct::CloseParen)
}

/// `while (test);` behind the body of a `do`.
fn do_tail(alloc: Global, out: &mut Output, test: &Expr) -> Result<(), AllocError>
    ensures { IfOk result (λ _. out.new.items
        ≡ out.old.items ++ (tokens.word Word.While ∷ spec.spell_controlling (expr_of test.now)
        ++ tokens.mark Punct.Semicolon ∷ [])) }
{
    word(out, Word::While)?;
    paren(alloc, out, test)?;
    mark(out, Punct::Semicolon)
}

/// A word and a semicolon.
fn jump(out: &mut Output, pos: Pos, first: Word) -> Result<(), AllocError>
    ensures { IfOk result (λ _. out.new.items
        ≡ out.old.items ++ tokens.word_at pos first ∷ tokens.mark Punct.Semicolon ∷ []) }
{
    word_at(out, pos, first)?;
    mark(out, Punct::Semicolon)
}

#[cycle(statements)]
fn statement(alloc: Global, out: &mut Output, of: &Statement) -> Result<(), AllocError>
    ensures { IfOk result (λ _. out.new.items ≡ out.old.items ++ spec.spell_statement (view.statement_of of.now)) }
{
    match of {
        Statement::Block(list) => block(alloc, out, list.as_slice()),
        Statement::ExprStmt(expr) => optional_statement(alloc, out, expr),
        Statement::If(pos, test, first, second) => {
            head(alloc, out, *pos, Word::If, test)?;
            statement(alloc, out, first)?;
            match second {
                None => Ok(()),
                Some(second) => otherwise(alloc, out, second),
            }
        }
        Statement::Switch(pos, test, list) => {
            head(alloc, out, *pos, Word::Switch, test)?;
            switch_block(alloc, out, list.as_slice())
        }
        Statement::While(pos, test, body) => {
            head(alloc, out, *pos, Word::While, test)?;
            statement(alloc, out, body)
        }
        Statement::Do(pos, body, test) => {
            word_at(out, *pos, Word::Do)?;
            statement(alloc, out, body)?;
            do_tail(alloc, out, test)
        }
        Statement::For(pos, init, test, step, body) => {
            for_head(alloc, out, *pos, init, test, step)?;
            statement(alloc, out, body)
        }
        Statement::Break(pos) => jump(out, *pos, Word::Break),
        Statement::Continue(pos) => jump(out, *pos, Word::Continue),
        Statement::Return(pos, value) => {
            word_at(out, *pos, Word::Return)?;
            optional_statement(alloc, out, value)
        }
    }
}

/// `else statement`
#[cycle(statements)]
fn otherwise(alloc: Global, out: &mut Output, second: &Statement) -> Result<(), AllocError>
    ensures { IfOk result (λ _. out.new.items
        ≡ out.old.items ++ tokens.word Word.Else ∷ spec.spell_statement (view.statement_of second.now)) }
{
    word(out, Word::Else)?;
    statement(alloc, out, second)
}

/// `{ items }`
#[cycle(statements)]
fn block(alloc: Global, out: &mut Output, list: &[BlockItem]) -> Result<(), AllocError>
    ensures { IfOk result (λ _. out.new.items
        ≡ out.old.items
        ++ (tokens.mark Punct.OpenBrace ∷ flat_map (λ i. spec.spell_block_item (view.block_item_of i)) list.now
        ++ tokens.mark Punct.CloseBrace ∷ [])) }
{
    mark(out, Punct::OpenBrace)?;
    block_items(alloc, out, list)?;
    mark(out, Punct::CloseBrace)
}

/// `{ items }`
#[cycle(statements)]
fn switch_block(alloc: Global, out: &mut Output, list: &[SwitchItem]) -> Result<(), AllocError>
    ensures { IfOk result (λ _. out.new.items
        ≡ out.old.items
        ++ (tokens.mark Punct.OpenBrace ∷ flat_map (λ i. spec.spell_switch_item (view.switch_item_of i)) list.now
        ++ tokens.mark Punct.CloseBrace ∷ [])) }
{
    mark(out, Punct::OpenBrace)?;
    switch_items(alloc, out, list)?;
    mark(out, Punct::CloseBrace)
}

#[cycle(statements)]
fn block_items(alloc: Global, out: &mut Output, list: &[BlockItem]) -> Result<(), AllocError>
    ensures { IfOk result (λ _. out.new.items
        ≡ out.old.items ++ flat_map (λ i. spec.spell_block_item (view.block_item_of i)) list.now) }
{
    for each in list {
        block_item(alloc, out, each)?;
    }
    Ok(())
}

#[cycle(statements)]
fn block_item(alloc: Global, out: &mut Output, each: &BlockItem) -> Result<(), AllocError>
    ensures { IfOk result (λ _. out.new.items ≡ out.old.items ++ spec.spell_block_item (view.block_item_of each.now)) }
{
    match each {
        BlockItem::Declaration(of) => declaration(alloc, out, of),
        BlockItem::Assert(of) => assertion(alloc, out, of),
        BlockItem::Statement(of) => statement(alloc, out, of),
    }
}

#[cycle(statements)]
fn switch_items(alloc: Global, out: &mut Output, list: &[SwitchItem]) -> Result<(), AllocError>
    ensures { IfOk result (λ _. out.new.items
        ≡ out.old.items ++ flat_map (λ i. spec.spell_switch_item (view.switch_item_of i)) list.now) }
{
    for each in list {
        switch_item(alloc, out, each)?;
    }
    Ok(())
}

#[cycle(statements)]
fn switch_item(alloc: Global, out: &mut Output, each: &SwitchItem) -> Result<(), AllocError>
    ensures { IfOk result (λ _. out.new.items
        ≡ out.old.items ++ spec.spell_switch_item (view.switch_item_of each.now)) }
{
    match each {
        SwitchItem::Case(pos, value) => {
            word_at(out, *pos, Word::Case)?;
            expression(alloc, out, value)?;
            mark(out, Punct::Colon)
        }
        SwitchItem::Default(pos) => {
            word_at(out, *pos, Word::Default)?;
            mark(out, Punct::Colon)
        }
        SwitchItem::Item(item) => block_item(alloc, out, item),
    }
}

fn function(alloc: Global, out: &mut Output, of: &Function) -> Result<(), AllocError>
    ensures { IfOk result (λ _. out.new.items ≡ out.old.items ++ spec.spell_function (view.function_of of.now)) }
{
    specifiers(alloc, out, of.specifiers.as_slice())?;
    declarator(alloc, out, &of.declarator)?;
    block(alloc, out, of.body.as_slice())
}

fn external(alloc: Global, out: &mut Output, of: &External) -> Result<(), AllocError>
    ensures { IfOk result (λ _. out.new.items ≡ out.old.items ++ spec.spell_external (view.external_of of.now)) }
{
    match of {
        External::Function(of) => function(alloc, out, of),
        External::Declaration(of) => declaration(alloc, out, of),
        External::Assert(of) => assertion(alloc, out, of),
    }
}

/// The tokens of a tree in order, each with its place where that is the place of a node.
pub fn spelling(alloc: Global, tree: &Tree) -> Result<Vec<Spelled>, AllocError>
    ensures { IfOk result (λ tokens. tokens.items ≡ spec.spell_tree (view.tree_of tree.now)) }
{
    let mut out = Vec::new(alloc);
    for each in &tree.externals {
        external(alloc, &mut out, each)?;
    }
    Ok(out)
}
