//! Nodes with their heights.

ghost use Rattle.std.specs.Prelude.{◌≡◌, ◌++◌, ◌∷◌, [], max, IfOk};

use std::alloc::{AllocError, Global};

/// A node and its height.
#[derive(Drop)]
pub(crate) struct Part<T> {
    pub node: Box<T>,
    pub height: usize,
}

/// A list of nodes, and the height of the highest; 0 where there is none.
#[derive(Drop)]
pub(crate) struct Parts<T> {
    pub nodes: Vec<T>,
    pub height: usize,
}

impl<T: Drop> Parts<T> {
    /// No node.
    pub(crate) fn new(alloc: Global) -> Parts<T>
        ensures nodes { result.nodes.items ≡ [] }
        ensures height { result.height ≡ 0 }
    {
        Parts {
            nodes: Vec::new(alloc),
            height: 0,
        }
    }

    /// One more node behind the others.
    pub(crate) fn push(&mut self, part: Part<T>) -> Result<(), AllocError>
        ensures nodes { IfOk result (λ _. self.new.nodes.items ≡ self.old.nodes.items ++ part.node.value ∷ []) }
        ensures height { IfOk result (λ _. self.new.height ≡ max self.old.height part.height) }
    {
        self.height = self.height.max(part.height);
        self.nodes.push(Box::into_inner(part.node))?;
        Ok(())
    }
}
