//! Units, over the tokens of `c_lexer`, and what `c_parser` answers. The tests stand in a crate of their own, since those
//! of a crate are proved together with all of it once more.
#![tactic(auto)]

#[cfg(test)]
mod tests;
