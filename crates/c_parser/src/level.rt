//! Precedence and association as levels (6.5): the higher binds tighter.

ghost use Rattle.std.specs.Prelude.{◌≡◌, ◌≤◌};
ghost use Rattle.c_syntax.specs.Levels as spec;
ghost use Rattle.c_reading.specs.ReadExpr.{own_level as level_of_tree};
ghost use Rattle.c_syntax.specs.View.{expr_of};

use c_syntax::expression::Expr;
use c_syntax::operator::{Arithmetic, Comparison, Infix, Prefix};

/// 6.5.17
pub(crate) const EXPRESSION: u8 = 0;
/// 6.5.16
pub(crate) const ASSIGNMENT: u8 = 1;
/// 6.5.15, and the constant expressions of 6.6
pub(crate) const CONDITIONAL: u8 = 2;
/// 6.5.14
pub(crate) const LOGICAL_OR: u8 = 3;
/// 6.5.13
pub(crate) const LOGICAL_AND: u8 = 4;
/// 6.5.12
pub(crate) const INCLUSIVE_OR: u8 = 5;
/// 6.5.11
pub(crate) const EXCLUSIVE_OR: u8 = 6;
/// 6.5.10
pub(crate) const BITWISE_AND: u8 = 7;
/// 6.5.9
pub(crate) const EQUALITY: u8 = 8;
/// 6.5.8
pub(crate) const RELATIONAL: u8 = 9;
/// 6.5.7
pub(crate) const SHIFT: u8 = 10;
/// 6.5.6
pub(crate) const ADDITIVE: u8 = 11;
/// 6.5.5
pub(crate) const MULTIPLICATIVE: u8 = 12;
/// 6.5.4
pub(crate) const CAST: u8 = 13;
/// 6.5.3
pub(crate) const UNARY: u8 = 14;
/// 6.5.2
pub(crate) const POSTFIX: u8 = 15;
/// 6.5.1
pub(crate) const PRIMARY: u8 = 16;

fn arithmetic_level(operator: Arithmetic) -> u8
    ensures value { result ≡ spec.arithmetic_level operator }
    ensures within { result ≤ 12 }
{
    match operator {
        Arithmetic::Multiply | Arithmetic::Divide | Arithmetic::Remainder => MULTIPLICATIVE,
        Arithmetic::Add | Arithmetic::Subtract => ADDITIVE,
        Arithmetic::ShiftLeft | Arithmetic::ShiftRight => SHIFT,
        Arithmetic::BitAnd => BITWISE_AND,
        Arithmetic::BitXor => EXCLUSIVE_OR,
        Arithmetic::BitOr => INCLUSIVE_OR,
    }
}

fn comparison_level(operator: Comparison) -> u8
    ensures value { result ≡ spec.comparison_level operator }
    ensures within { result ≤ 9 }
{
    match operator {
        Comparison::Less | Comparison::Greater | Comparison::LessEqual | Comparison::GreaterEqual =>
            RELATIONAL,
        Comparison::Equal | Comparison::NotEqual => EQUALITY,
    }
}

/// Of an expression with this operator.
pub(crate) fn infix_level(operator: Infix) -> u8
    ensures { result ≡ spec.infix_level operator }
{
    match operator {
        Infix::Arithmetic(operator) => arithmetic_level(operator),
        Infix::Comparison(operator) => comparison_level(operator),
        Infix::AndAlso => LOGICAL_AND,
        Infix::OrElse => LOGICAL_OR,
        Infix::Assign | Infix::AssignOp(_) => ASSIGNMENT,
        Infix::Comma => EXPRESSION,
    }
}

/// Of the operand on its left: `a - b - c` is `(a - b) - c`, and what is assigned to is a unary expression.
pub(crate) fn left_level(operator: Infix) -> u8
    ensures { result ≡ spec.left_level operator }
{
    match operator {
        Infix::Arithmetic(operator) => arithmetic_level(operator),
        Infix::Comparison(operator) => comparison_level(operator),
        Infix::AndAlso => LOGICAL_AND,
        Infix::OrElse => LOGICAL_OR,
        Infix::Assign | Infix::AssignOp(_) => UNARY,
        Infix::Comma => EXPRESSION,
    }
}

/// Of the operand on its right.
pub(crate) fn right_level(operator: Infix) -> u8
    ensures { result ≡ spec.right_level operator }
{
    match operator {
        Infix::Arithmetic(operator) => arithmetic_level(operator) + 1,
        Infix::Comparison(operator) => comparison_level(operator) + 1,
        Infix::AndAlso => INCLUSIVE_OR,
        Infix::OrElse => LOGICAL_AND,
        Infix::Assign | Infix::AssignOp(_) | Infix::Comma => ASSIGNMENT,
    }
}

/// Of the operand behind this operator: `++` and `sizeof` take no cast, so that `sizeof(int)*p` is a product.
pub(crate) fn operand_level(operator: Prefix) -> u8
    ensures { result ≡ spec.operand_level operator }
{
    match operator {
        Prefix::PreInc | Prefix::PreDec | Prefix::SizeExpr => UNARY,
        Prefix::AddressOf
        | Prefix::Deref
        | Prefix::Plus
        | Prefix::Minus
        | Prefix::Flip
        | Prefix::Not => CAST,
    }
}

/// Of a tree by its own operator.
pub(crate) fn own_level(expr: &Expr) -> u8
    ensures { result ≡ level_of_tree (expr_of expr.now) }
{
    match expr {
        Expr::Const(..) | Expr::Id(..) | Expr::Text(..) | Expr::Paren(..) => PRIMARY,
        Expr::Index(..) | Expr::Call(..) | Expr::Member(..) | Expr::Postfix(..) => POSTFIX,
        Expr::Prefix(..) | Expr::Measure(..) => UNARY,
        Expr::Cast(..) => CAST,
        Expr::Infix(_, operator, _, _) => infix_level(*operator),
        Expr::Cond(..) => CONDITIONAL,
    }
}
