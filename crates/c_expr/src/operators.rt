//! The operators of the grammar as the rules know them (6.5).

ghost use Rattle.std.specs.Prelude.{◌≡◌};
ghost use Rattle.c_syntax.specs.View.{expr_of};
ghost use Rattle.c_expr.specs.Operands as rule;
ghost use Rattle.c_type_parts.specs.Shapes as spec;

use c_core::{Comparison as Relation, Operator};
use c_syntax::{Arithmetic, Comparison, Expr, Postfix};
use critical_table::Pos;

pub fn operator_of(operator: Arithmetic) -> Operator
    ensures { result ≡ rule.operator_of operator }
{
    match operator {
        Arithmetic::Multiply => Operator::Multiply,
        Arithmetic::Divide => Operator::Divide,
        Arithmetic::Remainder => Operator::Remainder,
        Arithmetic::Add => Operator::Add,
        Arithmetic::Subtract => Operator::Subtract,
        Arithmetic::ShiftLeft => Operator::ShiftLeft,
        Arithmetic::ShiftRight => Operator::ShiftRight,
        Arithmetic::BitAnd => Operator::BitAnd,
        Arithmetic::BitXor => Operator::BitXor,
        Arithmetic::BitOr => Operator::BitOr,
    }
}

pub fn comparison_of(comparison: Comparison) -> Relation
    ensures { result ≡ rule.comparison_of comparison }
{
    match comparison {
        Comparison::Less => Relation::Less,
        Comparison::Greater => Relation::Greater,
        Comparison::LessEqual => Relation::LessEqual,
        Comparison::GreaterEqual => Relation::GreaterEqual,
        Comparison::Equal => Relation::Equal,
        Comparison::NotEqual => Relation::NotEqual,
    }
}

pub fn is_decrement(operator: Postfix) -> bool
    ensures { result ≡ rule.is_decrement operator }
{
    match operator {
        Postfix::PostInc => false,
        Postfix::PostDec => true,
    }
}

/// The place of an expression: the first byte of its operator. Parentheses have no place.
pub fn place_of(expr: &Expr) -> Pos
    ensures { result ≡ spec.place_of (expr_of expr.now) }
{
    match expr {
        Expr::Const(at, _) => *at,
        Expr::Id(at, _) => *at,
        Expr::Text(at, _) => *at,
        Expr::Paren(inner) => place_of(inner),
        Expr::Index(at, _, _) => *at,
        Expr::Call(at, _, _) => *at,
        Expr::Member(at, _, _, _) => *at,
        Expr::Postfix(at, _, _) => *at,
        Expr::Prefix(at, _, _) => *at,
        Expr::Measure(at, _, _) => *at,
        Expr::Cast(at, _, _) => *at,
        Expr::Infix(at, _, _, _) => *at,
        Expr::Cond(at, _, _, _) => *at,
    }
}
