//! The words and marks that spell operators and specifiers (6.4.1, 6.4.6).

ghost use Rattle.std.specs.Prelude.{◌≡◌};
ghost use Rattle.c_syntax.specs.Operators as spec;

use crate::operator::{Access, Arithmetic, Comparison, Infix, Measure, Postfix};
use crate::specifier::{BasicWord, CompoundWord, Qualifier, Storage};
use c_lexer::{Punct, Word};

pub(crate) fn access_token(access: Access) -> Punct
    ensures { result ≡ spec.access_token access }
{
    match access {
        Access::Dot => Punct::Dot,
        Access::Arrow => Punct::Arrow,
    }
}

pub(crate) fn postfix_token(operator: Postfix) -> Punct
    ensures { result ≡ spec.postfix_token operator }
{
    match operator {
        Postfix::PostInc => Punct::Increment,
        Postfix::PostDec => Punct::Decrement,
    }
}

pub(crate) fn measure_word(operator: Measure) -> Word
    ensures { result ≡ spec.measure_word operator }
{
    match operator {
        Measure::SizeType => Word::Sizeof,
        Measure::AlignType => Word::Alignof,
    }
}

fn arithmetic_token(operator: Arithmetic) -> Punct
    ensures { result ≡ spec.arithmetic_token operator }
{
    match operator {
        Arithmetic::Multiply => Punct::Star,
        Arithmetic::Divide => Punct::Slash,
        Arithmetic::Remainder => Punct::Percent,
        Arithmetic::Add => Punct::Plus,
        Arithmetic::Subtract => Punct::Minus,
        Arithmetic::ShiftLeft => Punct::ShiftLeft,
        Arithmetic::ShiftRight => Punct::ShiftRight,
        Arithmetic::BitAnd => Punct::Ampersand,
        Arithmetic::BitXor => Punct::Caret,
        Arithmetic::BitOr => Punct::Bar,
    }
}

fn assignment_token(operator: Arithmetic) -> Punct
    ensures { result ≡ spec.assignment_token operator }
{
    match operator {
        Arithmetic::Multiply => Punct::StarAssign,
        Arithmetic::Divide => Punct::SlashAssign,
        Arithmetic::Remainder => Punct::PercentAssign,
        Arithmetic::Add => Punct::PlusAssign,
        Arithmetic::Subtract => Punct::MinusAssign,
        Arithmetic::ShiftLeft => Punct::ShiftLeftAssign,
        Arithmetic::ShiftRight => Punct::ShiftRightAssign,
        Arithmetic::BitAnd => Punct::AmpersandAssign,
        Arithmetic::BitXor => Punct::CaretAssign,
        Arithmetic::BitOr => Punct::BarAssign,
    }
}

fn comparison_token(operator: Comparison) -> Punct
    ensures { result ≡ spec.comparison_token operator }
{
    match operator {
        Comparison::Less => Punct::Less,
        Comparison::Greater => Punct::Greater,
        Comparison::LessEqual => Punct::LessEqual,
        Comparison::GreaterEqual => Punct::GreaterEqual,
        Comparison::Equal => Punct::Equal,
        Comparison::NotEqual => Punct::NotEqual,
    }
}

pub(crate) fn infix_token(operator: Infix) -> Punct
    ensures { result ≡ spec.infix_token operator }
{
    match operator {
        Infix::Arithmetic(operator) => arithmetic_token(operator),
        Infix::Comparison(operator) => comparison_token(operator),
        Infix::AndAlso => Punct::AndAnd,
        Infix::OrElse => Punct::OrOr,
        Infix::Assign => Punct::Assign,
        Infix::AssignOp(operator) => assignment_token(operator),
        Infix::Comma => Punct::Comma,
    }
}

pub(crate) fn storage_word(storage: Storage) -> Word
    ensures { result ≡ spec.storage_word storage }
{
    match storage {
        Storage::Typedef => Word::Typedef,
        Storage::Extern => Word::Extern,
        Storage::Static => Word::Static,
        Storage::Auto => Word::Auto,
        Storage::Register => Word::Register,
    }
}

pub(crate) fn qualifier_word(qualifier: Qualifier) -> Word
    ensures { result ≡ spec.qualifier_word qualifier }
{
    match qualifier {
        Qualifier::Const => Word::Const,
        Qualifier::Restrict => Word::Restrict,
        Qualifier::Volatile => Word::Volatile,
    }
}

pub(crate) fn basic_word(basic: BasicWord) -> Word
    ensures { result ≡ spec.basic_word basic }
{
    match basic {
        BasicWord::Void => Word::Void,
        BasicWord::Char => Word::Char,
        BasicWord::Short => Word::Short,
        BasicWord::Int => Word::Int,
        BasicWord::Long => Word::Long,
        BasicWord::Signed => Word::Signed,
        BasicWord::Unsigned => Word::Unsigned,
        BasicWord::Bool => Word::Bool,
    }
}

pub(crate) fn compound_word(compound: CompoundWord) -> Word
    ensures { result ≡ spec.compound_word compound }
{
    match compound {
        CompoundWord::Struct => Word::Struct,
        CompoundWord::Union => Word::Union,
    }
}
