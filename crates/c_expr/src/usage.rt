//! What an operand is to its operator (6.5).

ghost use Rattle.std.specs.Prelude.{◌≡◌, ◌<◌};
ghost use Rattle.c_types.specs.CType.{type_of};
ghost use Rattle.c_types.specs.Types.{count_of};
ghost use Rattle.c_expr.specs.Operands as rule;

use c_conversions::versions::is_void;
use c_syntax::{Access, Infix, Prefix};
use c_types::{TypeId, TypeTable};

/// What an operand is to its operator.
#[derive(Clone, Copy, Debug, PartialEq, Eq)]
pub enum Usage {
    /// A value that is needed.
    Value,
    /// A value, which may be void; the flag tells whether it is used.
    Used(bool),
    /// What is no value yet, as an lvalue that is assigned to.
    Target,
    /// A value that is not used.
    Unused,
}

/// What the two operands are to an operator between them.
#[derive(Clone, Copy, Debug, PartialEq, Eq)]
pub struct Usages {
    pub left: Usage,
    pub right: Usage,
}

/// What a structure or union, or a pointer to one, is to `.` and `->` (6.5.2.3).
pub fn whole_usage(access: Access) -> Usage
    ensures { result ≡ rule.whole_usage access }
{
    match access {
        Access::Dot => Usage::Target,
        Access::Arrow => Usage::Used(true),
    }
}

/// What an operand is to an operator before it (6.5.3).
pub fn prefix_usage(operator: Prefix) -> Usage
    ensures { result ≡ rule.prefix_usage operator }
{
    match operator {
        Prefix::PreInc => Usage::Target,
        Prefix::PreDec => Usage::Target,
        Prefix::AddressOf => Usage::Target,
        Prefix::SizeExpr => Usage::Target,
        Prefix::Deref => Usage::Value,
        Prefix::Plus => Usage::Value,
        Prefix::Minus => Usage::Value,
        Prefix::Flip => Usage::Value,
        Prefix::Not => Usage::Value,
    }
}

/// What the operand of a cast is to it (6.5.4).
pub fn cast_usage(types: &TypeTable, to: TypeId) -> Usage
    requires { to.0 < count_of types.now }
    ensures { result ≡ rule.cast_usage (type_of types.now to) }
{
    if is_void(types, to) {
        Usage::Unused
    } else {
        Usage::Value
    }
}

/// Two operands whose values are needed.
pub fn two_values() -> Usages
    ensures { result ≡ rule.two_values }
{
    Usages {
        left: Usage::Value,
        right: Usage::Value,
    }
}

/// What two operands are to the operator between them; the flag tells that the value of the whole is used.
pub fn infix_usages(used: bool, operator: Infix) -> Usages
    ensures { result ≡ rule.infix_usages used operator }
{
    let (left, right) = match operator {
        Infix::Arithmetic(_) => (Usage::Value, Usage::Value),
        Infix::Comparison(_) => (Usage::Value, Usage::Value),
        Infix::AndAlso => (Usage::Value, Usage::Value),
        Infix::OrElse => (Usage::Value, Usage::Value),
        Infix::Assign => (Usage::Target, Usage::Used(true)),
        Infix::AssignOp(_) => (Usage::Target, Usage::Value),
        Infix::Comma => (Usage::Unused, Usage::Used(used)),
    };
    Usages { left, right }
}

/// What the two results are to a conditional, by whether its own value is used (6.5.15).
pub fn choice_usages(used: bool) -> Usages
    ensures { result ≡ rule.choice_usages used }
{
    Usages {
        left: Usage::Used(used),
        right: Usage::Used(used),
    }
}
