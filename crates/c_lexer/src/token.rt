//! Tokens, with their values and places (6.4).

use crate::number::Number;
use crate::punct::Punct;
use crate::units::Units;
use crate::word::Word;
use critical_table::{Name, Pos};

/// A token (6.4) with the bytes that spell it.
#[derive(Debug, Drop)]
pub struct Token {
    pub body: Body,
    /// The index of its first byte in the unit, from 0.
    pub from: u32,
    /// The index behind its last byte.
    pub to: u32,
    /// The place of its first byte.
    pub pos: Pos,
}

/// What a token is, with its value.
#[derive(Debug, Drop)]
pub enum Body {
    /// A word of the language (6.4.1).
    Word(Word),
    /// An identifier that is no word of the language (6.4.2.1).
    Name(Name),
    /// An integer constant (6.4.4.1).
    Number(Number),
    /// The value of a character constant, and whether it is wide (6.4.4.4): of a narrow one from -128 to 127.
    Character(i32, bool),
    /// The units of a string literal without the null at its end, and whether it is wide (6.4.5).
    Literal(Units, bool),
    /// A punctuator (6.4.6).
    Mark(Punct),
}
