//! What an expression leaves, what a scalar object holds, and what is passed or stored as one.
ghost use Rattle.std.specs.Prelude.{◌≡◌};
ghost use Rattle.c_types.specs.Types.{Types};
ghost use Rattle.c_core.specs.Forms.{scalar_form, given_form, changed_form, form_of, node_form};
ghost use Rattle.c_core.specs.View.{core_of, node_of};

use crate::expression::{CoreExpr, CoreNode};
use crate::operator::Change;
use acc_num::IntKind;

/// What an expression leaves for the one around it.
#[derive(Clone, Copy, Debug, PartialEq, Eq)]
pub enum Form {
    /// A number of that kind.
    Number(IntKind),
    /// A pointer that is a value.
    Pointer,
    /// A pointer to an object: an lvalue, or a structure by the place where it stands.
    Place,
    /// Nothing: a void expression (6.3.2.2).
    Nothing,
}

/// What a scalar object holds (6.2.5p21): a number or a pointer.
#[derive(Clone, Copy, Debug, PartialEq, Eq)]
pub enum Scalar {
    Number(IntKind),
    Pointer,
}

/// What is passed, returned or stored as one: a scalar, or a structure or union of that many bytes.
#[derive(Clone, Copy, Debug, PartialEq, Eq)]
pub enum Content {
    Scalar(Scalar),
    Whole(u32),
}

impl Scalar {
    /// What a load of such an object leaves.
    pub fn form(self) -> Form
        ensures { result ≡ scalar_form self }
    {
        match self {
            Scalar::Number(kind) => Form::Number(kind),
            Scalar::Pointer => Form::Pointer,
        }
    }
}

impl Change {
    /// What the object holds.
    pub fn form(self) -> Form
        ensures { result ≡ changed_form self }
    {
        match self {
            Change::Number(_, held, _) => Form::Number(held),
            Change::Pointer(_) => Form::Pointer,
        }
    }
}

// What a call leaves that gives this.
fn call_form(gives: Option<Content>) -> Form
    ensures { result ≡ given_form gives }
{
    match gives {
        None => Form::Nothing,
        Some(Content::Scalar(scalar)) => scalar.form(),
        Some(Content::Whole(_)) => Form::Place,
    }
}

impl CoreExpr {
    /// What the expression leaves for the one around it.
    pub fn form(&self) -> Form
        ensures { (types : Types) → result ≡ form_of (core_of types self.now) }
    {
        match &self.node {
            CoreNode::Number(kind, _)
            | CoreNode::Convert(kind, _)
            | CoreNode::Negate(kind, _)
            | CoreNode::Flip(kind, _)
            | CoreNode::Arithmetic(_, kind, _, _) => Form::Number(*kind),
            CoreNode::Null
            | CoreNode::Function(_)
            | CoreNode::Narrow(_, _)
            | CoreNode::AddressOf(_)
            | CoreNode::Retype(_)
            | CoreNode::Step(_, _, _, _) => Form::Pointer,
            CoreNode::Object(_)
            | CoreNode::Reach(_, _, _, _)
            | CoreNode::Member(_, _)
            | CoreNode::AssignWhole(_, _, _)
            | CoreNode::ValueObject(_, _) => Form::Place,
            CoreNode::NotNull(_)
            | CoreNode::IsNull(_)
            | CoreNode::Not(_)
            | CoreNode::Compare(_, _, _)
            | CoreNode::Same(_, _, _)
            | CoreNode::Order(_, _, _)
            | CoreNode::AndAlso(_, _)
            | CoreNode::OrElse(_, _) => Form::Number(IntKind::I32),
            CoreNode::Difference(_, _, _) => Form::Number(IntKind::I64),
            CoreNode::Load(scalar, _) | CoreNode::Assign(scalar, _, _) => scalar.form(),
            CoreNode::Discard(_) => Form::Nothing,
            CoreNode::Cond(_, first, _) => first.form(),
            CoreNode::Comma(_, right) => right.form(),
            CoreNode::Update(change, _, _) | CoreNode::Postfix(change, _) => change.form(),
            CoreNode::Call(_, gives, _, _) => call_form(*gives),
        }
    }
}
