//! Why a unit is refused.

/// Why a unit is refused before it runs.
#[derive(Clone, Copy, Debug, PartialEq, Eq)]
pub enum Refusal {
    /// The unit has more than 4,194,304 bytes.
    Size,
    /// No token begins at the byte (6.4).
    Char,
    /// A comment, a character constant or a string literal does not end (6.4.4.4, 6.4.5, 6.4.9).
    Unclosed,
    /// What begins as a number, a character constant or a string literal is none (6.4.4, 6.4.5).
    Literal,
    /// A directive line is none of those that are taken (6.10).
    Directive,
    /// A word of the language that is outside of the profile (6.4.1).
    Profile,
    /// The tokens so far begin no unit (6.9).
    Syntax,
    /// The tokens begin only units whose tree is higher than 256.
    Deep,
    /// A constraint is violated; the number is that of the rule.
    Constraint(u16),
}
