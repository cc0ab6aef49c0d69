//! Adjacent string literals (6.4.5p5).

ghost use Rattle.std.specs.Prelude.{◌≡◌, true, false, IfSome, IfNone};
ghost use Rattle.c_parser.specs.Agree.{Gives};
ghost use Rattle.c_reading.specs.ReadExpr as spec;
ghost use Rattle.c_reading.specs.Parser as parser;
ghost use Rattle.c_reading.specs.ReadToken.{is_literal};

use crate::fault::Fault;
use crate::next::tail;
use c_lexer::{Body, Token, Units};
use std::alloc::Global;

/// The units of the string literal of this width that stands next.
#[tactic(auto, unfolding(c_reading::specs::ReadExpr::piece))]
fn literal(tokens: &[Token], wide: bool) -> Option<&Units>
    ensures none { IfNone result (is_literal wide (parser.next_body tokens.now) ≡ false) }
    ensures here { IfSome result (λ units. is_literal wide (parser.next_body tokens.now) ≡ true) }
    ensures units { IfSome result (λ units. spec.piece tokens.now ≡ parser.Found units.now (parser.tail tokens.now)) }
{
    match tokens {
        [
            Token {
                body: Body::Literal(units, width),
                ..
            },
            ..
        ] => {
            if *width == wide {
                return Some(units);
            }
            None
        }
        _ => None,
    }
}

/// More string literals of one width, behind the first (6.4.5p5): the units of each.
pub(crate) fn pieces<'a>(
    alloc: Global,
    tokens: &'a [Token],
    wide: bool,
) -> Result<(Vec<Units>, &'a [Token]), Fault<'a>>
    ensures { Gives (λ more. more.items) (spec.pieces wide tokens.now) result }
{
    let mut more = Vec::new(alloc);
    let mut rest = tokens;
    'each: while let Some(units) = literal(rest, wide) {
        more.push(Units::from_slice(alloc, units.as_slice())?)?;
        rest = tail(rest);
    }
    Ok((more, rest))
}
