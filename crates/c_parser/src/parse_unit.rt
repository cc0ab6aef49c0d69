//! The parser.

ghost use Rattle.std.specs.Prelude.{◌≡◌, IfOk, IfErr};
ghost use Rattle.c_parser.specs.Agree as spec;
ghost use Rattle.c_syntax.specs.Parsing as parsing;
ghost use Rattle.c_syntax.specs.Parsing.{SpelledBy};
ghost use Rattle.c_syntax.specs.ViewUnit.{tree_of};

use crate::body::unit::externals;
use crate::fault::{Fault, SyntaxFault};
use c_lexer::{Token, Tokens};
use c_syntax::unit::Tree;
use critical_table::Pos;
use std::alloc::Global;

/// The greatest height of the parts of an external declaration: with it and the unit it is 256.
const HEIGHT: usize = 254;

/// The place of the first of the tokens that are left, or behind the last byte.
fn stopped_at(tokens: &Tokens, rest: &[Token]) -> Pos
    ensures { result ≡ parsing.stopped_at tokens.now rest.now }
{
    match rest {
        [] => tokens.end(),
        [token, ..] => token.pos,
    }
}

/// The syntax tree of a unit's tokens, or where and why they have none.
pub fn parse(alloc: Global, tokens: &Tokens) -> Result<Tree, SyntaxFault>
    ensures tree { IfOk result (λ tree. SpelledBy tokens.now (tree_of tree)) }
    ensures refused { IfErr result (λ fault. spec.IsRefusal tokens.now fault) }
{
    match externals(alloc, HEIGHT, tokens.as_slice()) {
        Ok((externals, _)) => {
            Ok(Tree {
                externals,
                end: tokens.end(),
            })
        }
        Err(Fault::Unfit(rest)) => Err(SyntaxFault::Syntax(stopped_at(tokens, rest))),
        Err(Fault::TooDeep(rest)) => Err(SyntaxFault::Deep(stopped_at(tokens, rest))),
        Err(Fault::Memory(cause)) => Err(SyntaxFault::Memory(cause)),
    }
}
