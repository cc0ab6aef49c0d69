//! The tokens of a preprocessed unit of C (6.4): words of the language, names, integer and character constants,
//! string literals and punctuators, each with its value and its place.
#![tactic(auto)]

mod bytes;
mod characters;
mod comment;
mod directive;
mod ending;
mod fault;
mod lexer;
mod mode;
mod number;
mod place;
mod pragma;
mod punct;
mod reader;
mod spelling;
mod table;
mod token;
mod tokens;
mod units;
mod word;

pub use fault::LexFault;
pub use lexer::{Lexer, lex};
pub use number::Number;
pub use punct::Punct;
pub use token::{Body, Token};
pub use tokens::Tokens;
pub use units::Units;
pub use word::Word;

#[cfg(test)]
mod tests;
