//! The type that the words of basic types name.

ghost use Rattle.std.specs.Prelude.{◌≡◌};
ghost use Rattle.c_scopes.specs.Clauses.{RulesType};
ghost use Rattle.c_type_rules.specs.Words as spec;

use c_core::TypeFault;
use c_syntax::BasicWord;
use c_types::{Basic, TypeId, TypeTable};
use critical_table::Pos;

/// `signed` or `unsigned`.
#[derive(Clone, Copy, Debug, PartialEq, Eq)]
pub enum Sign {
    Signed,
    Unsigned,
}

/// `short`, `long`, or `long long`.
#[derive(Clone, Copy, Debug, PartialEq, Eq)]
pub enum Width {
    Short,
    Long,
    LongLong,
}

/// The word that says what a type is, where there is one.
#[derive(Clone, Copy, Debug, PartialEq, Eq)]
pub enum Base {
    Void,
    Char,
    Int,
    Bool,
}

/// What some words of basic types say (6.7.2p2).
#[derive(Clone, Copy, Debug, PartialEq, Eq)]
pub struct TypeWords {
    pub sign: Option<Sign>,
    pub width: Option<Width>,
    pub base: Option<Base>,
}

fn with_sign(words: TypeWords, sign: Sign) -> Option<TypeWords>
    ensures { result ≡ spec.with_sign words.sign sign words }
{
    match words.sign {
        None => Some(TypeWords {
            sign: Some(sign),
            ..words
        }),
        Some(_) => None,
    }
}

fn with_base(words: TypeWords, base: Base) -> Option<TypeWords>
    ensures { result ≡ spec.with_base words.base base words }
{
    match words.base {
        None => Some(TypeWords {
            base: Some(base),
            ..words
        }),
        Some(_) => None,
    }
}

fn with_width(words: TypeWords, width: Width) -> TypeWords
    ensures { result ≡ record words { width = Some width } }
{
    TypeWords {
        width: Some(width),
        ..words
    }
}

fn with_short(words: TypeWords) -> Option<TypeWords>
    ensures { result ≡ spec.with_short words.width words }
{
    match words.width {
        None => Some(with_width(words, Width::Short)),
        Some(_) => None,
    }
}

fn with_long(words: TypeWords) -> Option<TypeWords>
    ensures { result ≡ spec.with_long words.width words }
{
    match words.width {
        None => Some(with_width(words, Width::Long)),
        Some(Width::Long) => Some(with_width(words, Width::LongLong)),
        Some(Width::Short) => None,
        Some(Width::LongLong) => None,
    }
}

fn with_word(words: TypeWords, word: BasicWord) -> Option<TypeWords>
    ensures { result ≡ spec.with_word words word }
{
    match word {
        BasicWord::Void => with_base(words, Base::Void),
        BasicWord::Char => with_base(words, Base::Char),
        BasicWord::Short => with_short(words),
        BasicWord::Int => with_base(words, Base::Int),
        BasicWord::Long => with_long(words),
        BasicWord::Signed => with_sign(words, Sign::Signed),
        BasicWord::Unsigned => with_sign(words, Sign::Unsigned),
        BasicWord::Bool => with_base(words, Base::Bool),
    }
}

fn and_word(words: Option<TypeWords>, word: BasicWord) -> Option<TypeWords>
    ensures { result ≡ spec.and_word words word }
{
    match words {
        None => None,
        Some(words) => with_word(words, word),
    }
}

// What the words say together; none where they can't stand together.
fn words_of(list: &[BasicWord]) -> Option<TypeWords>
    ensures { result ≡ spec.words_from (Some spec.no_words) list.now }
{
    let mut words = Some(TypeWords {
        sign: None,
        width: None,
        base: None,
    });
    for word in list {
        words = and_word(words, *word);
    }
    words
}

fn unsigned_of(width: Option<Width>) -> Basic
    ensures { result ≡ spec.integer_of (Some Sign.Unsigned) width }
{
    match width {
        None => Basic::UInt,
        Some(Width::Short) => Basic::UShort,
        Some(Width::Long) => Basic::ULong,
        Some(Width::LongLong) => Basic::ULongLong,
    }
}

fn signed_of(width: Option<Width>) -> Basic
    ensures plain { result ≡ spec.integer_of None width }
    ensures signed { result ≡ spec.integer_of (Some Sign.Signed) width }
{
    match width {
        None => Basic::Int,
        Some(Width::Short) => Basic::Short,
        Some(Width::Long) => Basic::Long,
        Some(Width::LongLong) => Basic::LongLong,
    }
}

fn integer_of(sign: Option<Sign>, width: Option<Width>) -> Basic
    ensures { result ≡ spec.integer_of sign width }
{
    match sign {
        Some(Sign::Unsigned) => unsigned_of(width),
        Some(Sign::Signed) => signed_of(width),
        None => signed_of(width),
    }
}

fn character_of(sign: Option<Sign>, width: Option<Width>) -> Option<Basic>
    ensures { result ≡ spec.character_of sign width }
{
    if width.is_some() {
        return None;
    }
    match sign {
        None => Some(Basic::Char),
        Some(Sign::Signed) => Some(Basic::SChar),
        Some(Sign::Unsigned) => Some(Basic::UChar),
    }
}

fn alone(basic: Basic, words: TypeWords) -> Option<Basic>
    ensures { result ≡ spec.alone basic words.sign words.width }
{
    match words.sign {
        Some(_) => None,
        None => match words.width {
            Some(_) => None,
            None => Some(basic),
        },
    }
}

fn without_base(words: TypeWords) -> Option<Basic>
    ensures { result ≡ spec.without_base words.sign words.width }
{
    match words.sign {
        Some(sign) => Some(integer_of(Some(sign), words.width)),
        None => match words.width {
            Some(width) => Some(integer_of(None, Some(width))),
            None => None,
        },
    }
}

fn basic_of(words: TypeWords) -> Option<Basic>
    ensures { result ≡ spec.basic_of words words.base }
{
    match words.base {
        None => without_base(words),
        Some(Base::Int) => Some(integer_of(words.sign, words.width)),
        Some(Base::Char) => character_of(words.sign, words.width),
        Some(Base::Void) => alone(Basic::Void, words),
        Some(Base::Bool) => alone(Basic::Bool, words),
    }
}

fn basic_in(list: &[BasicWord]) -> Option<Basic>
    ensures { result ≡ spec.basic_in list.now }
{
    match words_of(list) {
        None => None,
        Some(words) => basic_of(words),
    }
}

/// The type that the words of basic types among some specifiers name, in whatever order they stand (6.7.2p2).
///
/// Constraint 4 where they name none of the profile.
#[tactic(auto, using(c_scopes::proofs::Keeps::keeps_own))]
pub fn basic_type(types: &TypeTable, pos: Pos, words: &[BasicWord]) -> Result<TypeId, TypeFault>
    ensures { RulesType (spec.basic_rule words.now) pos types.now types.now result }
{
    match basic_in(words) {
        None => Err(TypeFault::Constraint(4, pos)),
        Some(basic) => Ok(types.basic(basic)),
    }
}
