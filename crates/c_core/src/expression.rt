//! Checked expressions.
use crate::form::{Content, Scalar};
use crate::named::{FunctionName, ObjectName};
use crate::operator::{By, Change, Comparison, Operator, Relation, Stride};
use acc_num::IntKind;
use c_types::TypeId;
use critical_table::Pos;

/// A checked expression (6.5), with its type and its place. The type of a place is that of the object; the type of a
/// function's name is a pointer to it.
#[cycle(core)]
#[derive(Drop)]
pub struct CoreExpr {
    pub of: TypeId,
    pub pos: Pos,
    pub node: CoreNode,
}

/// What a checked expression does. Every conversion is a node of its own. A place is a pointer to an object; a
/// structure's value is its place. Operands are evaluated from left to right.
#[cycle(core)]
#[derive(Drop)]
pub enum CoreNode {
    /// A number: a constant, an enumerator or a size (6.4.4, 6.5.3.4).
    Number(IntKind, i128),
    /// A null pointer (6.3.2.3p3).
    Null,
    /// The place of an object, with the object's bounds (6.5.1p2, p4).
    Object(ObjectName),
    /// A pointer to a function (6.3.2.1p4).
    Function(FunctionName),
    /// The place that a pointer designates, once that many bytes with that alignment are reached: `*E`, `E[F]`, and
    /// `E->m` before its member is taken (6.5.3.2p4, 6.5.2.1, 6.5.2.3p4).
    Reach(By, u32, u32, Box<CoreExpr>),
    /// The place of a member that begins at that byte of a structure (6.5.2.3p3).
    Member(u32, Box<CoreExpr>),
    /// The value that a scalar object holds (6.3.2.1p2).
    Load(Scalar, Box<CoreExpr>),
    /// A pointer to the first element of an array of that many bytes, which bound it (6.3.2.1p3).
    Narrow(u32, Box<CoreExpr>),
    /// A pointer to a place, with its bounds (6.5.3.2p3); to the first element of an array of unknown length too.
    AddressOf(Box<CoreExpr>),
    /// A number in another kind (6.3.1.2, 6.3.1.3).
    Convert(IntKind, Box<CoreExpr>),
    /// A pointer as one to another type (6.3.2.3p1, p2, p7, p8).
    Retype(Box<CoreExpr>),
    /// An `int` that is 1 where a pointer is not null: a pointer as a truth value (6.3.1.2, 6.5.13 to 6.5.15, 6.8.4.1,
    /// 6.8.5).
    NotNull(Box<CoreExpr>),
    /// An `int` that is 1 where a pointer is null: `!p` (6.5.3.3p5).
    IsNull(Box<CoreExpr>),
    /// Nothing: a value that is not used (6.3.2.2, 6.8.3p2).
    Discard(Box<CoreExpr>),
    /// `-E` (6.5.3.3p3).
    Negate(IntKind, Box<CoreExpr>),
    /// `~E` (6.5.3.3p4).
    Flip(IntKind, Box<CoreExpr>),
    /// An `int` that is 1 where a number is 0: `!E` (6.5.3.3p5).
    Not(Box<CoreExpr>),
    /// Two numbers of that kind to one; the count of a shift may have any kind (6.5.5 to 6.5.7, 6.5.10 to 6.5.12).
    Arithmetic(Operator, IntKind, Box<CoreExpr>, Box<CoreExpr>),
    /// An `int` that is 1 where two numbers of one kind compare so (6.5.8p6, 6.5.9p3).
    Compare(Comparison, Box<CoreExpr>, Box<CoreExpr>),
    /// An `int` that tells whether two pointers are equal (`true`) or unequal (`false`) (6.5.9p6).
    Same(bool, Box<CoreExpr>, Box<CoreExpr>),
    /// An `int` that is 1 where two pointers are so ordered (6.5.8p5).
    Order(Relation, Box<CoreExpr>, Box<CoreExpr>),
    /// A pointer that has moved by a number; the flag tells that the number stands first (6.5.6p8, 6.5.2.1p2).
    Step(Stride, bool, Box<CoreExpr>, Box<CoreExpr>),
    /// The elements of that size between two pointers, as a `long` (6.5.6p9).
    Difference(u32, Box<CoreExpr>, Box<CoreExpr>),
    /// `E && F` as an `int` (6.5.13).
    AndAlso(Box<CoreExpr>, Box<CoreExpr>),
    /// `E || F` as an `int` (6.5.14).
    OrElse(Box<CoreExpr>, Box<CoreExpr>),
    /// `E ? F : G` (6.5.15).
    Cond(Box<CoreExpr>, Box<CoreExpr>, Box<CoreExpr>),
    /// `E, F` (6.5.17).
    Comma(Box<CoreExpr>, Box<CoreExpr>),
    /// A scalar is stored at a place, and is the value (6.5.16.1).
    Assign(Scalar, Box<CoreExpr>, Box<CoreExpr>),
    /// A structure of that many bytes is stored at a place, which is the value (6.5.16.1).
    AssignWhole(u32, Box<CoreExpr>, Box<CoreExpr>),
    /// A place is changed by a number, and its new content is the value: `E op= F`, `++E`, `--E` (6.5.16.2, 6.5.3.1).
    Update(Change, Box<CoreExpr>, Box<CoreExpr>),
    /// A place is changed by 1, and its old content is the value: `E++`, `E--` (6.5.2.4).
    Postfix(Change, Box<CoreExpr>),
    /// What a function gives; the flag tells that the value is used (6.5.2.2, 6.9.1p12).
    Call(bool, Option<Content>, Box<CoreExpr>, Vec<CoreExpr>),
    /// The place of a value object that a structure of that many bytes is copied to: an argument (6.5.2.2p4).
    ValueObject(u32, Box<CoreExpr>),
}
