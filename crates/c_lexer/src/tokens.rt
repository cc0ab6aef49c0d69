//! The tokens of a whole unit.

ghost use Rattle.std.specs.Prelude.{◌≡◌, length, option_copied};
ghost use Rattle.std.specs.List.{slice_get};

use crate::token::Token;
use critical_table::Pos;
use std::marker::Model;

/// The tokens of a unit in order, and the place behind its last byte. Contracts see the list and the place.
#[derive(Debug, Drop)]
pub struct Tokens {
    tokens: Vec<Token>,
    end: Pos,
}

impl Model for Tokens {
    ghost use Rattle.c_lexer.specs.Stream.{Stream};

    ghost Value = { Stream };

    ghost view = { λ t. record { tokens = t.tokens.items; end = t.end } };
}

impl Tokens {
    pub(crate) fn new(tokens: Vec<Token>, end: Pos) -> Tokens
        ensures tokens { result.tokens ≡ tokens.items }
        ensures end { result.end ≡ end }
    {
        Tokens { tokens, end }
    }

    /// How many tokens there are.
    pub fn len(&self) -> usize
        ensures { result ≡ length self.now.tokens }
    {
        self.tokens.len()
    }

    /// The token at an index, if there are more tokens than that.
    pub fn get(&self, index: usize) -> Option<&Token>
        ensures { option_copied result ≡ slice_get self.now.tokens index }
    {
        self.tokens.get(index)
    }

    /// The tokens in order.
    pub fn as_slice(&self) -> &[Token]
        ensures { result.now ≡ self.now.tokens }
    {
        self.tokens.as_slice()
    }

    /// The place behind the last byte of the unit.
    pub fn end(&self) -> Pos
        ensures { result ≡ self.now.end }
    {
        self.end
    }
}
