//! The printer's tokens, one at a time.

ghost use Rattle.std.specs.Prelude.{◌≡◌, ◌++◌, ◌∷◌, [], IfOk};
ghost use Rattle.c_syntax.specs.Operators as operators;
ghost use Rattle.c_syntax.specs.Spelling as spelling;
ghost use Rattle.c_syntax.specs.Tokens as spec;
ghost use Rattle.c_syntax.specs.View.{literals_of};

use crate::expression::{Constant, Literals};
use crate::operator::Prefix;
use crate::specifier::{Qualifier, Tag};
use crate::spelled::Spelled;
use crate::words::qualifier_word;
use c_lexer::{Body, Punct, Units, Word};
use critical_table::{Name, Pos};
use std::alloc::{AllocError, Global};

/// The spelling so far.
pub(crate) type Output = Vec<Spelled>;

pub(crate) fn bare(out: &mut Output, token: Body) -> Result<(), AllocError>
    ensures { IfOk result (λ _. out.new.items ≡ out.old.items ++ spec.bare token ∷ []) }
{
    out.push(Spelled {
        body: token,
        place: None,
    })?;
    Ok(())
}

pub(crate) fn token_at(out: &mut Output, pos: Pos, token: Body) -> Result<(), AllocError>
    ensures { IfOk result (λ _. out.new.items ≡ out.old.items ++ spec.token_at pos token ∷ []) }
{
    out.push(Spelled {
        body: token,
        place: Some(pos),
    })?;
    Ok(())
}

pub(crate) fn word(out: &mut Output, word: Word) -> Result<(), AllocError>
    ensures { IfOk result (λ _. out.new.items ≡ out.old.items ++ spec.word word ∷ []) }
{
    bare(out, Body::Word(word))
}

pub(crate) fn word_at(out: &mut Output, pos: Pos, word: Word) -> Result<(), AllocError>
    ensures { IfOk result (λ _. out.new.items ≡ out.old.items ++ spec.word_at pos word ∷ []) }
{
    token_at(out, pos, Body::Word(word))
}

pub(crate) fn mark(out: &mut Output, mark: Punct) -> Result<(), AllocError>
    ensures { IfOk result (λ _. out.new.items ≡ out.old.items ++ spec.mark mark ∷ []) }
{
    bare(out, Body::Mark(mark))
}

pub(crate) fn mark_at(out: &mut Output, pos: Pos, mark: Punct) -> Result<(), AllocError>
    ensures { IfOk result (λ _. out.new.items ≡ out.old.items ++ spec.mark_at pos mark ∷ []) }
{
    token_at(out, pos, Body::Mark(mark))
}

pub(crate) fn name(alloc: Global, out: &mut Output, name: &Name) -> Result<(), AllocError>
    ensures { IfOk result (λ _. out.new.items ≡ out.old.items ++ spec.name name.now ∷ []) }
{
    let name = Name::new(alloc, name.bytes())?;
    bare(out, Body::Name(name))
}

pub(crate) fn name_at(
    alloc: Global,
    out: &mut Output,
    pos: Pos,
    name: &Name,
) -> Result<(), AllocError>
    ensures { IfOk result (λ _. out.new.items ≡ out.old.items ++ spec.name_at pos name.now ∷ []) }
{
    let name = Name::new(alloc, name.bytes())?;
    token_at(out, pos, Body::Name(name))
}

pub(crate) fn tag(alloc: Global, out: &mut Output, tag: &Option<Tag>) -> Result<(), AllocError>
    ensures { IfOk result (λ _. out.new.items ≡ out.old.items ++ spelling.spell_tag tag.now) }
{
    match tag {
        None => Ok(()),
        Some(tag) => name_at(alloc, out, tag.pos, &tag.name),
    }
}

pub(crate) fn constant(out: &mut Output, pos: Pos, constant: Constant) -> Result<(), AllocError>
    ensures { IfOk result (λ _. out.new.items
        ≡ out.old.items ++ spec.token_at pos (operators.constant_token constant) ∷ []) }
{
    match constant {
        Constant::Number(number) => token_at(out, pos, Body::Number(number)),
        Constant::Character(value, wide) => token_at(out, pos, Body::Character(value, wide)),
    }
}

pub(crate) fn prefix_operator(
    out: &mut Output,
    pos: Pos,
    operator: Prefix,
) -> Result<(), AllocError>
    ensures { IfOk result (λ _. out.new.items
        ≡ out.old.items ++ spec.token_at pos (operators.prefix_token operator) ∷ []) }
{
    match operator {
        Prefix::PreInc => mark_at(out, pos, Punct::Increment),
        Prefix::PreDec => mark_at(out, pos, Punct::Decrement),
        Prefix::AddressOf => mark_at(out, pos, Punct::Ampersand),
        Prefix::Deref => mark_at(out, pos, Punct::Star),
        Prefix::Plus => mark_at(out, pos, Punct::Plus),
        Prefix::Minus => mark_at(out, pos, Punct::Minus),
        Prefix::Flip => mark_at(out, pos, Punct::Tilde),
        Prefix::Not => mark_at(out, pos, Punct::Exclamation),
        Prefix::SizeExpr => word_at(out, pos, Word::Sizeof),
    }
}

pub(crate) fn comma_if(out: &mut Output, comma: bool) -> Result<(), AllocError>
    ensures { IfOk result (λ _. out.new.items ≡ out.old.items ++ spec.comma_if comma) }
{
    if comma {
        return mark(out, Punct::Comma);
    }
    Ok(())
}

pub(crate) fn ellipsis_if(out: &mut Output, variadic: bool) -> Result<(), AllocError>
    ensures { IfOk result (λ _. out.new.items ≡ out.old.items ++ spec.ellipsis_if variadic) }
{
    if variadic {
        mark(out, Punct::Comma)?;
        return mark(out, Punct::Ellipsis);
    }
    Ok(())
}

pub(crate) fn qualifiers(out: &mut Output, qualifiers: &[Qualifier]) -> Result<(), AllocError>
    ensures { IfOk result (λ _. out.new.items ≡ out.old.items ++ spelling.spell_qualifiers qualifiers.now) }
{
    for qualifier in qualifiers {
        word(out, qualifier_word(*qualifier))?;
    }
    Ok(())
}

fn piece(
    alloc: Global,
    out: &mut Output,
    place: Option<Pos>,
    units: &Units,
    wide: bool,
) -> Result<(), AllocError>
    ensures { IfOk result (λ _. out.new.items ≡ out.old.items ++ record {
      body = Body.Literal units.now wide;
      place
          = place;
    } ∷ []) }
{
    let units = Units::from_slice(alloc, units.as_slice())?;
    out.push(Spelled {
        body: Body::Literal(units, wide),
        place,
    })?;
    Ok(())
}

/// Adjacent string literals, the first at a place where one is given.
pub(crate) fn literals(
    alloc: Global,
    out: &mut Output,
    place: Option<Pos>,
    text: &Literals,
) -> Result<(), AllocError>
    ensures { IfOk result (λ _. out.new.items
        ≡ out.old.items ++ spec.spell_pieces place (literals_of text.now).wide (literals_of text.now).pieces) }
{
    let [first, rest @ ..] = text.units.as_slice() else {
        return Ok(());
    };
    piece(alloc, out, place, first, text.wide)?;
    for units in rest {
        piece(alloc, out, None, units, text.wide)?;
    }
    Ok(())
}
