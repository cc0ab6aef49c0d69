//! The printer of expressions, type names, specifiers and declarators.

ghost use Rattle.std.specs.Prelude.{◌≡◌, ◌++◌, ◌∷◌, [], map, IfOk};
ghost use Rattle.std.specs.List.{flat_map};
ghost use Rattle.c_syntax.specs.Spelling as spec;
ghost use Rattle.c_syntax.specs.Tokens.{commas};
ghost use Rattle.c_syntax.specs.Tokens as tokens;
ghost use Rattle.c_syntax.specs.Tree as tree;
ghost use Rattle.c_syntax.specs.View as view;

use crate::declarator::{Declarator, Parameter};
use crate::expression::Expr;
use crate::operator::{Access, Measure, Postfix, Prefix};
use crate::output::{
    Output, comma_if, constant, ellipsis_if, literals, mark, mark_at, name, name_at,
    prefix_operator, qualifiers, tag, word_at,
};
use crate::specifier::{Enumerator, MemberDeclaration, Specifier};
use crate::type_name::TypeName;
use crate::words::{
    access_token, basic_word, compound_word, infix_token, measure_word, postfix_token,
    qualifier_word, storage_word,
};
use c_lexer::{Punct, Word};
use critical_table::{Name, Pos};
use std::alloc::{AllocError, Global};

#[cycle(spelling)]
pub(crate) fn expression(alloc: Global, out: &mut Output, expr: &Expr) -> Result<(), AllocError>
    ensures { IfOk result (λ _. out.new.items ≡ out.old.items ++ spec.spell (view.expr_of expr.now)) }
{
    match expr {
        Expr::Const(pos, value) => constant(out, *pos, *value),
        Expr::Id(pos, id) => name_at(alloc, out, *pos, id),
        Expr::Text(pos, text) => literals(alloc, out, Some(*pos), text),
        Expr::Paren(inner) => paren(alloc, out, inner),
        Expr::Index(pos, array, index) => {
            expression(alloc, out, array)?;
            subscript(alloc, out, *pos, index)
        }
        Expr::Call(pos, function, list) => {
            expression(alloc, out, function)?;
            mark_at(out, *pos, Punct::OpenParen)?;
            arguments(alloc, out, list.as_slice())?;
            mark(out, Punct::CloseParen)
        }
        Expr::Member(pos, access, whole, id) => member_of(alloc, out, *pos, *access, whole, id),
        Expr::Postfix(pos, operator, operand) => postfix(alloc, out, *pos, *operator, operand),
        Expr::Prefix(pos, operator, operand) => prefix(alloc, out, *pos, *operator, operand),
        Expr::Measure(pos, operator, of) => measure(alloc, out, *pos, *operator, of),
        Expr::Cast(pos, to, operand) => {
            cast_to(alloc, out, *pos, to)?;
            expression(alloc, out, operand)
        }
        Expr::Infix(pos, operator, left, right) => {
            expression(alloc, out, left)?;
            operand(alloc, out, *pos, infix_token(*operator), right)
        }
        Expr::Cond(pos, test, first, second) => {
            expression(alloc, out, test)?;
            operand(alloc, out, *pos, Punct::Question, first)?;
            mark(out, Punct::Colon)?;
            expression(alloc, out, second)
        }
    }
}

/// `( expression )`
#[cycle(spelling)]
pub(crate) fn paren(alloc: Global, out: &mut Output, inner: &Expr) -> Result<(), AllocError>
    ensures { IfOk result (λ _. out.new.items
        ≡ out.old.items ++ (tokens.mark Punct.OpenParen ∷ spec.spell (view.expr_of inner.now)
        ++ tokens.mark Punct.CloseParen ∷ [])) }
{
    mark(out, Punct::OpenParen)?;
    expression(alloc, out, inner)?;
    mark(out, Punct::CloseParen)
}

/// `[ index ]`
#[cycle(spelling)]
fn subscript(alloc: Global, out: &mut Output, pos: Pos, index: &Expr) -> Result<(), AllocError>
    ensures { IfOk result (λ _. out.new.items
        ≡ out.old.items ++ (tokens.mark_at pos Punct.OpenBracket ∷ spec.spell (view.expr_of index.now)
        ++ tokens.mark Punct.CloseBracket ∷ [])) }
{
    mark_at(out, pos, Punct::OpenBracket)?;
    expression(alloc, out, index)?;
    mark(out, Punct::CloseBracket)
}

#[cycle(spelling)]
fn member_of(
    alloc: Global,
    out: &mut Output,
    pos: Pos,
    access: Access,
    whole: &Expr,
    id: &Name,
) -> Result<(), AllocError>
    ensures { IfOk result (λ _. out.new.items
        ≡ out.old.items ++ spec.spell (tree.Member pos access (view.expr_of whole.now) id.now)) }
{
    expression(alloc, out, whole)?;
    mark_at(out, pos, access_token(access))?;
    name(alloc, out, id)
}

#[cycle(spelling)]
fn postfix(
    alloc: Global,
    out: &mut Output,
    pos: Pos,
    operator: Postfix,
    operand: &Expr,
) -> Result<(), AllocError>
    ensures { IfOk result (λ _. out.new.items
        ≡ out.old.items ++ spec.spell (tree.PostfixOp pos operator (view.expr_of operand.now))) }
{
    expression(alloc, out, operand)?;
    mark_at(out, pos, postfix_token(operator))
}

#[cycle(spelling)]
fn prefix(
    alloc: Global,
    out: &mut Output,
    pos: Pos,
    operator: Prefix,
    operand: &Expr,
) -> Result<(), AllocError>
    ensures { IfOk result (λ _. out.new.items
        ≡ out.old.items ++ spec.spell (tree.PrefixOp pos operator (view.expr_of operand.now))) }
{
    prefix_operator(out, pos, operator)?;
    expression(alloc, out, operand)
}

#[cycle(spelling)]
fn measure(
    alloc: Global,
    out: &mut Output,
    pos: Pos,
    operator: Measure,
    of: &TypeName,
) -> Result<(), AllocError>
    ensures { IfOk result (λ _. out.new.items
        ≡ out.old.items ++ spec.spell (tree.MeasureOp pos operator (view.type_name_of of.now))) }
{
    word_at(out, pos, measure_word(operator))?;
    mark(out, Punct::OpenParen)?;
    type_name(alloc, out, of)?;
    mark(out, Punct::CloseParen)
}

/// `( type-name )` before an operand.
#[cycle(spelling)]
fn cast_to(alloc: Global, out: &mut Output, pos: Pos, to: &TypeName) -> Result<(), AllocError>
    ensures { IfOk result (λ _. out.new.items
        ≡ out.old.items ++ (tokens.mark_at pos Punct.OpenParen ∷ spec.spell_type_name (view.type_name_of to.now)
        ++ tokens.mark Punct.CloseParen ∷ [])) }
{
    mark_at(out, pos, Punct::OpenParen)?;
    type_name(alloc, out, to)?;
    mark(out, Punct::CloseParen)
}

/// An operator, and the operand behind it.
#[cycle(spelling)]
fn operand(
    alloc: Global,
    out: &mut Output,
    pos: Pos,
    operator: Punct,
    expr: &Expr,
) -> Result<(), AllocError>
    ensures { IfOk result (λ _. out.new.items
        ≡ out.old.items ++ tokens.mark_at pos operator ∷ spec.spell (view.expr_of expr.now)) }
{
    mark_at(out, pos, operator)?;
    expression(alloc, out, expr)
}

#[cycle(spelling)]
fn arguments(alloc: Global, out: &mut Output, list: &[Expr]) -> Result<(), AllocError>
    ensures { IfOk result (λ _. out.new.items
        ≡ out.old.items ++ commas (map (λ e. spec.spell (view.expr_of e)) list.now)) }
{
    let [first, rest @ ..] = list else {
        return Ok(());
    };
    expression(alloc, out, first)?;
    for argument in rest {
        mark(out, Punct::Comma)?;
        expression(alloc, out, argument)?;
    }
    Ok(())
}

#[cycle(spelling)]
pub(crate) fn type_name(alloc: Global, out: &mut Output, of: &TypeName) -> Result<(), AllocError>
    ensures { IfOk result (λ _. out.new.items ≡ out.old.items ++ spec.spell_type_name (view.type_name_of of.now)) }
{
    specifiers(alloc, out, of.specifiers.as_slice())?;
    declarator(alloc, out, &of.declarator)
}

#[cycle(spelling)]
pub(crate) fn specifiers(
    alloc: Global,
    out: &mut Output,
    list: &[Specifier],
) -> Result<(), AllocError>
    ensures { IfOk result (λ _. out.new.items
        ≡ out.old.items ++ flat_map (λ s. spec.spell_specifier (view.specifier_of s)) list.now) }
{
    for each in list {
        specifier(alloc, out, each)?;
    }
    Ok(())
}

#[cycle(spelling)]
fn specifier(alloc: Global, out: &mut Output, each: &Specifier) -> Result<(), AllocError>
    ensures { IfOk result (λ _. out.new.items ≡ out.old.items ++ spec.spell_specifier (view.specifier_of each.now)) }
{
    match each {
        Specifier::Storage(pos, storage) => word_at(out, *pos, storage_word(*storage)),
        Specifier::Qualifier(pos, qualifier) => word_at(out, *pos, qualifier_word(*qualifier)),
        Specifier::Inline(pos) => word_at(out, *pos, Word::Inline),
        Specifier::BasicWord(pos, basic) => word_at(out, *pos, basic_word(*basic)),
        Specifier::CompoundTag(pos, compound, tag) => {
            word_at(out, *pos, compound_word(*compound))?;
            name_at(alloc, out, tag.pos, &tag.name)
        }
        Specifier::Compound(pos, compound, named, list) => {
            word_at(out, *pos, compound_word(*compound))?;
            tag(alloc, out, named)?;
            mark(out, Punct::OpenBrace)?;
            members(alloc, out, list.as_slice())?;
            mark(out, Punct::CloseBrace)
        }
        Specifier::EnumTag(pos, tag) => {
            word_at(out, *pos, Word::Enum)?;
            name_at(alloc, out, tag.pos, &tag.name)
        }
        Specifier::Enum(pos, named, list, comma) => {
            word_at(out, *pos, Word::Enum)?;
            tag(alloc, out, named)?;
            mark(out, Punct::OpenBrace)?;
            enumerators(alloc, out, list.as_slice())?;
            comma_if(out, *comma)?;
            mark(out, Punct::CloseBrace)
        }
        Specifier::TypedefName(pos, id) => name_at(alloc, out, *pos, id),
    }
}

#[cycle(spelling)]
fn members(alloc: Global, out: &mut Output, list: &[MemberDeclaration]) -> Result<(), AllocError>
    ensures { IfOk result (λ _. out.new.items
        ≡ out.old.items ++ flat_map (λ m. spec.spell_member (view.member_of m)) list.now) }
{
    for each in list {
        member(alloc, out, each)?;
    }
    Ok(())
}

#[cycle(spelling)]
fn member(alloc: Global, out: &mut Output, each: &MemberDeclaration) -> Result<(), AllocError>
    ensures { IfOk result (λ _. out.new.items ≡ out.old.items ++ spec.spell_member (view.member_of each.now)) }
{
    specifiers(alloc, out, each.specifiers.as_slice())?;
    declarators(alloc, out, each.declarators.as_slice())?;
    mark(out, Punct::Semicolon)
}

#[cycle(spelling)]
fn declarators(alloc: Global, out: &mut Output, list: &[Declarator]) -> Result<(), AllocError>
    ensures { IfOk result (λ _. out.new.items
        ≡ out.old.items ++ commas (map (λ d. spec.spell_declarator (view.declarator_of d)) list.now)) }
{
    let [first, rest @ ..] = list else {
        return Ok(());
    };
    declarator(alloc, out, first)?;
    for each in rest {
        mark(out, Punct::Comma)?;
        declarator(alloc, out, each)?;
    }
    Ok(())
}

#[cycle(spelling)]
fn enumerators(alloc: Global, out: &mut Output, list: &[Enumerator]) -> Result<(), AllocError>
    ensures { IfOk result (λ _. out.new.items
        ≡ out.old.items ++ commas (map (λ n. spec.spell_enumerator (view.enumerator_of n)) list.now)) }
{
    let [first, rest @ ..] = list else {
        return Ok(());
    };
    enumerator(alloc, out, first)?;
    for each in rest {
        mark(out, Punct::Comma)?;
        enumerator(alloc, out, each)?;
    }
    Ok(())
}

#[cycle(spelling)]
fn enumerator(alloc: Global, out: &mut Output, each: &Enumerator) -> Result<(), AllocError>
    ensures { IfOk result (λ _. out.new.items ≡ out.old.items ++ spec.spell_enumerator (view.enumerator_of each.now)) }
{
    name_at(alloc, out, each.pos, &each.name)?;
    match &each.value {
        None => Ok(()),
        Some(value) => {
            mark(out, Punct::Assign)?;
            expression(alloc, out, value)
        }
    }
}

#[cycle(spelling)]
pub(crate) fn declarator(alloc: Global, out: &mut Output, of: &Declarator) -> Result<(), AllocError>
    ensures { IfOk result (λ _. out.new.items ≡ out.old.items ++ spec.spell_declarator (view.declarator_of of.now)) }
{
    match of {
        Declarator::Omitted => Ok(()),
        Declarator::Name(pos, id) => name_at(alloc, out, *pos, id),
        Declarator::DParen(inner) => {
            mark(out, Punct::OpenParen)?;
            declarator(alloc, out, inner)?;
            mark(out, Punct::CloseParen)
        }
        Declarator::PointerTo(list, inner) => {
            mark(out, Punct::Star)?;
            qualifiers(out, list.as_slice())?;
            declarator(alloc, out, inner)
        }
        Declarator::ArrayOf(inner, length) => {
            declarator(alloc, out, inner)?;
            mark(out, Punct::OpenBracket)?;
            if let Some(length) = length {
                expression(alloc, out, length)?;
            }
            mark(out, Punct::CloseBracket)
        }
        Declarator::FunctionOf(inner, list, variadic) => {
            declarator(alloc, out, inner)?;
            mark(out, Punct::OpenParen)?;
            parameters(alloc, out, list.as_slice())?;
            ellipsis_if(out, *variadic)?;
            mark(out, Punct::CloseParen)
        }
    }
}

#[cycle(spelling)]
fn parameters(alloc: Global, out: &mut Output, list: &[Parameter]) -> Result<(), AllocError>
    ensures { IfOk result (λ _. out.new.items
        ≡ out.old.items ++ commas (map (λ p. spec.spell_parameter (view.parameter_of p)) list.now)) }
{
    let [first, rest @ ..] = list else {
        return Ok(());
    };
    parameter(alloc, out, first)?;
    for each in rest {
        mark(out, Punct::Comma)?;
        parameter(alloc, out, each)?;
    }
    Ok(())
}

#[cycle(spelling)]
fn parameter(alloc: Global, out: &mut Output, each: &Parameter) -> Result<(), AllocError>
    ensures { IfOk result (λ _. out.new.items ≡ out.old.items ++ spec.spell_parameter (view.parameter_of each.now)) }
{
    specifiers(alloc, out, each.specifiers.as_slice())?;
    declarator(alloc, out, &each.declarator)
}
