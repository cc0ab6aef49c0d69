//! Type qualifiers (6.7.3).

ghost use Rattle.c_parser.specs.Agree.{Gives};
ghost use Rattle.c_reading.specs.ReadDeclarator as spec;
ghost use Rattle.c_syntax.specs.Scopes as names;

use crate::fault::Fault;
use crate::next::{qualifier_of, tail};
use c_lexer::Token;
use c_syntax::specifier::Qualifier;
use std::alloc::Global;

/// All qualifiers that follow.
pub(crate) fn qualifiers<'a>(
    alloc: Global,
    tokens: &'a [Token],
) -> Result<(Vec<Qualifier>, &'a [Token]), Fault<'a>>
    ensures { (scope : names.Scope) → Gives (λ x. x.items) (spec.qualifiers scope tokens.now) result }
{
    let mut all = Vec::new(alloc);
    let mut rest = tokens;
    'words: while let Some(word) = qualifier_of(rest) {
        all.push(word)?;
        rest = tail(rest);
    }
    Ok((all, rest))
}
