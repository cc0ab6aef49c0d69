//! What a unit is answered with, as text.
use crate::tests::printed::gives_back;
use crate::tests::show_unit::text_of_tree;
use c_lexer::lex;
use c_parser::{SyntaxFault, parse};
use std::alloc::{AllocError, Global};
use std::process::Abort;
use std::test::Fail;

/// The tree, which has to be printed as the unit's tokens, or why the unit is refused, and where.
pub fn answer_of(alloc: Global, unit: &str, parens: bool) -> Result<String, AllocError> {
    let Ok(tokens) = lex(alloc, unit.as_bytes()) else {
        return String::from_str(alloc, "no tokens");
    };
    match parse(alloc, &tokens) {
        Ok(tree) => {
            if !gives_back(alloc, &tokens, &tree)? {
                return String::from_str(alloc, "printed otherwise");
            }
            text_of_tree(alloc, &tree, parens)
        }
        Err(SyntaxFault::Syntax(pos)) => format!(in alloc; "Syntax {}:{}", pos.line, pos.column),
        Err(SyntaxFault::Deep(pos)) => format!(in alloc; "Deep {}:{}", pos.line, pos.column),
        Err(SyntaxFault::Memory(cause)) => Err(cause),
    }
}

pub fn check(rt: &impl Abort, alloc: Global, units: &[(&str, &str)]) -> Result<(), Fail> {
    for (unit, answer) in units {
        assert_eq!(rt; answer_of(alloc, unit, true)?.as_str(), *answer, "{unit}");
    }
    Ok(())
}

/// The same, but for the parentheses of expressions and declarators.
pub fn check_bare(rt: &impl Abort, alloc: Global, units: &[(&str, &str)]) -> Result<(), Fail> {
    for (unit, answer) in units {
        assert_eq!(rt; answer_of(alloc, unit, false)?.as_str(), *answer, "{unit}");
    }
    Ok(())
}
