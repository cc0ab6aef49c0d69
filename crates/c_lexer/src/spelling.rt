//! Reads the token that a whole text spells (6.4).

ghost use Rattle.std.specs.Prelude.{◌≡◌, ◌&&◌, not, IfOk, IfSome, IfNone, slice_index};
ghost use Rattle.std.specs.List.{list_all};
ghost use Rattle.c_lexer.specs.Bytes as bytes;
ghost use Rattle.c_lexer.specs.Marks.{mark_text};
ghost use Rattle.c_lexer.specs.Words as words;
ghost use Rattle.c_lexer.specs.LexicalParts.{IsToken, IsNoOther};
ghost use Rattle.c_lexer.specs.declared.punct.Punct.{Punct};
ghost use Rattle.c_lexer.specs.declared.token.Body.{Body};

use crate::bytes::{Class, all_in, is_letter};
use crate::characters::{character_of, literal_of};
use crate::number::number_of;
use crate::punct::mark_of;
use crate::token::Body;
use crate::units::Units;
use crate::word::{is_outside, word_of};
use critical_table::Name;
use std::alloc::{AllocError, Global};

/// A letter and word bytes, and no word of the language that is not taken.
fn is_identifier(text: &[u8]) -> bool
    ensures { result ≡ (bytes.is_letter (slice_index text.now 0)
        && (list_all bytes.is_word_byte text.now && not (words.is_outside text.now))) }
{
    match text {
        [] => false,
        [first, ..] => is_letter(*first) && (all_in(Class::Word, text) && !is_outside(text)),
    }
}

/// The constant or punctuator that the whole text spells, if it spells one.
fn other_token(alloc: Global, text: &[u8]) -> Result<Option<Body>, AllocError>
    ensures found { IfOk result (λ r. IfSome r (λ token. IsToken text.now token)) }
    ensures none { IfOk result (λ r. IfNone r (IsNoOther text.now)) }
{
    if let Some(number) = number_of(text) {
        return Ok(Some(Body::Number(number)));
    }
    if let Some((value, wide)) = character_of(text) {
        return Ok(Some(Body::Character(value, wide)));
    }
    if let Some(mark) = mark_of(text) {
        return Ok(Some(Body::Mark(mark)));
    }
    match literal_of(alloc, text)? {
        None => Ok(None),
        Some((units, wide)) => Ok(Some(Body::Literal(Units::new(units), wide))),
    }
}

fn read_token(alloc: Global, text: &[u8]) -> Result<Option<Body>, AllocError>
    ensures found { IfOk result (λ r. IfSome r (λ token. IsToken text.now token)) }
    ensures none { IfOk result (λ r. IfNone r ((token : Body) → IsToken text.now token → ⊥)) }
{
    if let Some(word) = word_of(text) {
        return Ok(Some(Body::Word(word)));
    }
    if is_identifier(text) {
        let name = Name::new(alloc, text)?;
        return Ok(Some(Body::Name(name)));
    }
    other_token(alloc, text)
}

/// The token that the whole text spells, if it spells one; it spells no other (6.4).
pub(crate) fn token_of(alloc: Global, text: &[u8]) -> Result<Option<Body>, AllocError>
    ensures found { IfOk result (λ r. IfSome r (λ token. IsToken text.now token)) }
    ensures only { IfOk result (λ r. IfSome r (λ token. (other : Body) → IsToken text.now other → other ≡ token)) }
    ensures none { IfOk result (λ r. IfNone r ((token : Body) → IsToken text.now token → ⊥)) }
{
    read_token(alloc, text)
}
