//! Static assertions of their parts.

ghost use Rattle.std.specs.Prelude.{◌≡◌, IfOk};
ghost use Rattle.c_syntax.specs.View.{expr_of, literals_of};
ghost use Rattle.c_syntax.specs.ViewUnit.{assert_of};

use c_syntax::declaration::Assert;
use c_syntax::expression::{Expr, Literals};
use critical_table::Pos;
use std::alloc::{AllocError, Global};

pub(crate) fn assertion(
    alloc: Global,
    pos: Pos,
    condition: Box<Expr>,
    message: Literals,
) -> Result<Box<Assert>, AllocError>
    ensures { IfOk result (λ x. assert_of x.value ≡ record {
      pos = pos;
      condition =
          expr_of condition.value;
      message = literals_of message;
    }) }
{
    Ok(Box::new(
        alloc,
        Assert {
            pos,
            condition: Box::into_inner(condition),
            message,
        },
    )?)
}
