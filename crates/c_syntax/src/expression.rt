//! Expressions, constants and string literals (6.4.4, 6.4.5, 6.5).

use crate::operator::{Access, Infix, Measure, Postfix, Prefix};
use crate::type_name::TypeName;
use c_lexer::{Number, Units};
use critical_table::{Name, Pos};

/// An integer or character constant (6.4.4).
#[derive(Clone, Copy, Debug, PartialEq, Eq)]
pub enum Constant {
    Number(Number),
    /// The value, and whether the form is wide.
    Character(i32, bool),
}

/// Adjacent string literals of one width (6.4.5p5): the units of each, and whether they are wide.
#[derive(Drop)]
pub struct Literals {
    pub units: Vec<Units>,
    pub wide: bool,
}

/// An expression (6.5). Its place is that of its operator: of a name, constant or literal the token, and of an
/// expression in parentheses that of the one inside.
#[cycle(tree)]
#[derive(Drop)]
pub enum Expr {
    /// 6.5.1p3
    Const(Pos, Constant),
    /// 6.5.1p2
    Id(Pos, Name),
    /// 6.5.1p4
    Text(Pos, Literals),
    /// `( expression )` (6.5.1p5)
    Paren(Box<Expr>),
    /// `a[i]`, the place being the bracket's (6.5.2.1)
    Index(Pos, Box<Expr>, Box<Expr>),
    /// `f(a, b)`, the place being that of the first parenthesis (6.5.2.2)
    Call(Pos, Box<Expr>, Vec<Expr>),
    /// 6.5.2.3
    Member(Pos, Access, Box<Expr>, Name),
    /// 6.5.2.4
    Postfix(Pos, Postfix, Box<Expr>),
    /// 6.5.3
    Prefix(Pos, Prefix, Box<Expr>),
    /// 6.5.3.4
    Measure(Pos, Measure, Box<TypeName>),
    /// `( type-name ) expression`, the place being that of the first parenthesis (6.5.4)
    Cast(Pos, Box<TypeName>, Box<Expr>),
    /// 6.5.5 to 6.5.14, 6.5.16, 6.5.17
    Infix(Pos, Infix, Box<Expr>, Box<Expr>),
    /// `a ? b : c`, the place being that of the question mark (6.5.15)
    Cond(Pos, Box<Expr>, Box<Expr>, Box<Expr>),
}
