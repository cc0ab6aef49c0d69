//! A unit is lexed and parsed, and what stands last in it is typed.

ghost use Rattle.std.specs.Prelude.{IfOk};
ghost use Rattle.c_core.specs.Ids.{IdIn};
ghost use Rattle.c_scopes.specs.Env.{ScopesIn};

use crate::answer::Answer;
use crate::declaring::{declare, declare_all};
use crate::words::words;
use c_core::{ConstFault, CoreExpr, TypeFault, constant};
use c_expr::expression::expression;
use c_expr::type_names::named;
use c_lexer::lex;
use c_parser::{SyntaxFault, parse};
use c_predeclared::predeclared;
use c_scopes::Scopes;
use c_syntax::{Expr, External, Tree};
use c_types::{TypeId, TypeTable};
use std::alloc::{AllocError, Global};

/// The type of what stands last in the unit, with its value where it is an integer constant expression; or the
/// constraint that is broken, and where.
pub fn answer_of(alloc: Global, unit: &str) -> Result<Answer, AllocError> {
    let Ok(tokens) = lex(alloc, unit.as_bytes()) else {
        return Ok(Answer::Nothing);
    };
    match parse(alloc, &tokens) {
        Ok(tree) => tree_answer(alloc, &tree),
        Err(SyntaxFault::Syntax(at)) => Ok(Answer::Unparsed(at)),
        Err(SyntaxFault::Deep(at)) => Ok(Answer::Unparsed(at)),
        Err(SyntaxFault::Memory(cause)) => Err(cause),
    }
}

fn tree_answer(alloc: Global, tree: &Tree) -> Result<Answer, AllocError> {
    match walked(alloc, tree) {
        Ok(answer) => Ok(answer),
        Err(TypeFault::Constraint(number, at)) => Ok(Answer::Refused(number, at)),
        Err(TypeFault::Memory(cause)) => Err(cause),
    }
}

// In a scope of its own inside that of the predeclared names.
fn walked(alloc: Global, tree: &Tree) -> Result<Answer, TypeFault> {
    let mut types = TypeTable::new(alloc)?;
    let mut scopes = predeclared(alloc, &mut types)?;
    scopes.enter()?;
    externals_answer(&mut scopes, &mut types, tree.externals.as_slice())
}

// The declarations in order, and the answer of the last.
fn externals_answer(
    scopes: &mut Scopes,
    types: &mut TypeTable,
    externals: &[External],
) -> Result<Answer, TypeFault>
    requires { ScopesIn types.old scopes.old }
{
    let Some((last, before)) = externals.split_last() else {
        return Ok(Answer::Nothing);
    };
    declare_all(scopes, types, before)?;
    last_answer(scopes, types, last)
}

// The type of a declaration, or of an assertion's condition.
fn last_answer(
    scopes: &mut Scopes,
    types: &mut TypeTable,
    external: &External,
) -> Result<Answer, TypeFault>
    requires { ScopesIn types.old scopes.old }
{
    match external {
        External::Declaration(declaration) => {
            let of = declare(scopes, types, declaration)?;
            type_answer(types, of)
        }
        External::Assert(assert) => condition_answer(scopes, types, &assert.condition),
        External::Function(_) => Ok(Answer::Nothing),
    }
}

// The type of an expression; of the operand where the expression is `sizeof` of a type without parentheses around it.
fn condition_answer(
    scopes: &mut Scopes,
    types: &mut TypeTable,
    condition: &Expr,
) -> Result<Answer, TypeFault>
    requires { ScopesIn types.old scopes.old }
{
    if let Expr::Measure(at, _, name) = condition {
        let of = named(scopes, types, *at, name)?;
        return type_answer(types, of);
    }
    let core = expression(scopes, types, condition)?;
    value_answer(types, &core)
}

fn type_answer(types: &TypeTable, of: TypeId) -> Result<Answer, TypeFault>
    requires { IdIn types.now of }
{
    let text = words(types, of)?;
    Ok(Answer::Type(text))
}

// The type of a value, and which it is where the expression is an integer constant expression.
fn value_answer(types: &TypeTable, core: &CoreExpr) -> Result<Answer, TypeFault>
    requires { IdIn types.now core.now.of }
{
    let text = words(types, core.of)?;
    match constant(types, core) {
        Ok(value) => Ok(Answer::Constant(text, value)),
        Err(ConstFault::Value) => Ok(Answer::Undefined(text)),
        Err(ConstFault::NotConstant) => Ok(Answer::Type(text)),
    }
}
