//! Operands that rules take and give.
ghost use Rattle.std.specs.Prelude.{◌≡◌, false};

use c_conversions::operand::{Category, Operand};
use c_core::CoreExpr;

/// The two operands of an operator.
#[derive(Drop)]
pub struct Operands {
    pub left: Operand,
    pub right: Operand,
}

/// An expression that is no object.
pub fn value(core: CoreExpr) -> Operand
    ensures { result ≡ record { category = Category.Value; null = false; core = core } }
{
    Operand {
        category: Category::Value,
        null: false,
        core,
    }
}

/// An lvalue that designates no object declared with `register`.
pub fn lvalue(core: CoreExpr) -> Operand
    ensures { result ≡ record { category = Category.Lvalue false; null = false; core = core } }
{
    Operand {
        category: Category::Lvalue(false),
        null: false,
        core,
    }
}
