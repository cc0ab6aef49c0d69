//! A unit as text.
use crate::tests::show::{Shown, Text, declarator, expr, specifiers};
use c_syntax::{
    Assert, BlockItem, Declaration, Expr, External, ForInit, InitDeclarator, Initializer, Item,
    Statement, SwitchItem, Tree,
};
use std::alloc::{AllocError, Global};

#[cycle(show_initializer)]
fn initializer(out: &mut Text, of: &Initializer) -> Shown {
    match of {
        Initializer::Expression(single) => expr(out, single),
        Initializer::Braces(_, items, comma) => {
            out.open("{")?;
            designated_items(out, items)?;
            if *comma {
                out.word(",")?;
            }
            out.close("}")
        }
    }
}

#[cycle(show_initializer)]
fn designated_items(out: &mut Text, items: &[Item]) -> Shown {
    for item in items {
        match item {
            Item::Plain(of) => initializer(out, of)?,
            Item::Member(_, name, of) => {
                out.begin(".")?;
                out.letters(name)?;
                initializer(out, of)?;
                out.close(")")?;
            }
            Item::Index(_, index, of) => {
                out.open("(")?;
                out.open("[")?;
                expr(out, index)?;
                out.close("]")?;
                initializer(out, of)?;
                out.close(")")?;
            }
        }
    }
    Ok(())
}

fn init_declarators(out: &mut Text, all: &[InitDeclarator]) -> Shown {
    for one in all {
        match &one.initializer {
            None => declarator(out, &one.declarator)?,
            Some(of) => {
                out.begin("=")?;
                declarator(out, &one.declarator)?;
                initializer(out, of)?;
                out.close(")")?;
            }
        }
    }
    Ok(())
}

fn declaration(out: &mut Text, of: &Declaration) -> Shown {
    out.begin("declare")?;
    specifiers(out, &of.specifiers)?;
    init_declarators(out, &of.declarators)?;
    out.close(")")
}

fn assert(out: &mut Text, of: &Assert) -> Shown {
    out.begin("assert")?;
    expr(out, &of.condition)?;
    out.literals(&of.message)?;
    out.close(")")
}

fn optional(out: &mut Text, word: &str, of: &Option<Expr>) -> Shown {
    out.begin(word)?;
    if let Some(of) = of {
        expr(out, of)?;
    }
    out.close(")")
}

fn part(out: &mut Text, of: &Option<Expr>) -> Shown {
    match of {
        None => out.word("-"),
        Some(of) => expr(out, of),
    }
}

fn controlling(out: &mut Text, word: &str, test: &Expr) -> Shown {
    out.begin(word)?;
    expr(out, test)
}

fn for_head(out: &mut Text, init: &ForInit, test: &Option<Expr>, step: &Option<Expr>) -> Shown {
    out.begin("for")?;
    match init {
        ForInit::Declaration(of) => declaration(out, of)?,
        ForInit::Expression(of) => part(out, of)?,
    }
    part(out, test)?;
    part(out, step)
}

#[cycle(show_statement)]
fn statement(out: &mut Text, of: &Statement) -> Shown {
    match of {
        Statement::Block(items) => {
            out.begin("block")?;
            block_items(out, items)?;
        }
        Statement::ExprStmt(value) => return optional(out, "evaluate", value),
        Statement::If(_, test, then, otherwise) => {
            controlling(out, "if", test)?;
            statement(out, then)?;
            if let Some(otherwise) = otherwise {
                statement(out, otherwise)?;
            }
        }
        Statement::Switch(_, test, items) => {
            controlling(out, "switch", test)?;
            switch_items(out, items)?;
        }
        Statement::While(_, test, body) => {
            controlling(out, "while", test)?;
            statement(out, body)?;
        }
        Statement::Do(_, body, test) => {
            out.begin("do")?;
            statement(out, body)?;
            expr(out, test)?;
        }
        Statement::For(_, init, test, step, body) => {
            for_head(out, init, test, step)?;
            statement(out, body)?;
        }
        Statement::Break(_) => return out.word("(break)"),
        Statement::Continue(_) => return out.word("(continue)"),
        Statement::Return(_, value) => return optional(out, "return", value),
    }
    out.close(")")
}

#[cycle(show_statement)]
fn block_item(out: &mut Text, of: &BlockItem) -> Shown {
    match of {
        BlockItem::Declaration(of) => declaration(out, of),
        BlockItem::Assert(of) => assert(out, of),
        BlockItem::Statement(of) => statement(out, of),
    }
}

#[cycle(show_statement)]
fn block_items(out: &mut Text, items: &[BlockItem]) -> Shown {
    for item in items {
        block_item(out, item)?;
    }
    Ok(())
}

#[cycle(show_statement)]
fn switch_items(out: &mut Text, items: &[SwitchItem]) -> Shown {
    for item in items {
        match item {
            SwitchItem::Case(_, value) => {
                controlling(out, "case", value)?;
                out.close(")")?;
            }
            SwitchItem::Default(_) => out.word("(default)")?,
            SwitchItem::Item(item) => block_item(out, item)?,
        }
    }
    Ok(())
}

fn external(out: &mut Text, of: &External) -> Shown {
    match of {
        External::Function(of) => {
            out.begin("define")?;
            specifiers(out, &of.specifiers)?;
            declarator(out, &of.declarator)?;
            block_items(out, &of.body)?;
            out.close(")")
        }
        External::Declaration(of) => declaration(out, of),
        External::Assert(of) => assert(out, of),
    }
}

/// The unit as text, with or without the parentheses of expressions and declarators.
pub fn text_of_tree(alloc: Global, tree: &Tree, parens: bool) -> Result<String, AllocError> {
    let mut out = Text::new(alloc, parens);
    for one in &tree.externals {
        external(&mut out, one)?;
    }
    Ok(out.text)
}
