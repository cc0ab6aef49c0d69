//! Stacks of operands, each with a number.
ghost use Rattle.std.specs.Prelude.{◌≡◌, ◌<◌, ◌∷◌, [], length, IfOk, IfSome, MatchOption};
ghost use Rattle.operand_stacks.specs.Stacks.{stack_at, kind_number, node_at, MoreStacks};

use acc_num::IntKind;
use c_core::Scalar;
use std::alloc::{AllocError, Global};
use std::marker::Model;

/// A kind above a stack with a number.
#[derive(Clone, Copy, Debug, PartialEq, Eq)]
pub struct Node {
    pub kind: Scalar,
    pub below: usize,
}

/// The stacks of kinds that were met, each once. A stack is a number, and equal numbers are equal stacks. Contracts see
/// the list of them.
#[derive(Drop)]
pub struct Stacks {
    // the top of each stack; that of the first, which is empty, is none
    nodes: Vec<Option<Node>>,
    // for each stack the ten that have one kind more on top, as far as they are there; 0 elsewhere
    above: Vec<usize>,
}

impl Model for Stacks {
    ghost use Rattle.std.specs.Prelude.{List};
    ghost use Rattle.vm_code.specs.OperandKinds.{Kinds};

    ghost Value = { List Kinds };

    ghost use Rattle.operand_stacks.specs.Stacks.{stacks_of, AreStacksInside};

    ghost view = { stacks_of };

    ghost invariant = { AreStacksInside };
}

/// The number of a kind.
fn number_of(kind: Scalar) -> usize
    ensures { result ≡ kind_number kind }
{
    match kind {
        Scalar::Pointer => 0,
        Scalar::Number(IntKind::Bool) => 1,
        Scalar::Number(IntKind::I8) => 2,
        Scalar::Number(IntKind::U8) => 3,
        Scalar::Number(IntKind::I16) => 4,
        Scalar::Number(IntKind::U16) => 5,
        Scalar::Number(IntKind::I32) => 6,
        Scalar::Number(IntKind::U32) => 7,
        Scalar::Number(IntKind::I64) => 8,
        Scalar::Number(IntKind::U64) => 9,
    }
}

/// The top of a stack, where it has one.
fn node_at(nodes: &[Option<Node>], stack: usize) -> Option<Node>
    ensures { result ≡ node_at nodes.now stack }
{
    match nodes.get(stack).copied() {
        Some(node) => node,
        None => None,
    }
}

impl Stacks {
    /// The empty stack alone.
    pub fn new(alloc: Global) -> Result<Stacks, AllocError>
        ensures { IfOk result (λ stacks. stacks ≡ [] ∷ []) }
    {
        let nodes = vec![in alloc; None]?;
        let above = vec![in alloc; 0; 10]?;
        Ok(Stacks { nodes, above })
    }

    /// The top of a stack and what is below; `None` exactly where it is empty.
    pub fn top(&self, stack: usize) -> Option<Node>
        ensures is { MatchOption result (stack_at self.now stack ≡ [])
            (λ top. stack_at self.now stack ≡ top.kind ∷ stack_at self.now top.below) }
        ensures within { IfSome result (λ top. top.below < length self.now) }
    {
        node_at(&self.nodes, stack)
    }

    /// A stack with one kind more.
    pub fn push(&mut self, kind: Scalar, stack: usize) -> Result<usize, AllocError>
        requires { stack < length self.old }
        ensures is { IfOk result (λ number. stack_at self.new number ≡ kind ∷ stack_at self.old stack) }
        ensures within { IfOk result (λ number. number < length self.new) }
        ensures more { MoreStacks self.old self.new }
    {
        let number = self.nodes.len();
        let place = 10 * stack + number_of(kind);
        let known = self.above[place];
        if known != 0 {
            return Ok(known);
        }
        self.above.extend_from_slice(&[0; 10])?;
        self.nodes.push(Some(Node { kind, below: stack }))?;
        self.above[place] = number;
        Ok(number)
    }

    /// Equal stacks have equal numbers.
    pub fn number_law(&self, one: usize, other: usize)
        requires one { one < length self.now }
        requires other { other < length self.now }
        ensures { stack_at self.now one ≡ stack_at self.now other → one ≡ other }
    {
        let _nodes = &self.nodes;
    }
}
