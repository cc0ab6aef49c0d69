//! The arguments of a library call, in room that was taken before.
ghost use Rattle.std.specs.Prelude.{◌≡◌, ◌<◌, [], ◌∷◌, ◌++◌, length, slice_get, IfOk};

use crate::value::Arg;
use std::alloc::{AllocError, Global};
use std::marker::Model;

/// The arguments of a call, in order. Contracts see the list of them, and the room for it.
#[derive(Drop)]
pub struct Args {
    list: Vec<Arg>,
    room: usize,
}

impl Model for Args {
    ghost use Rattle.std.specs.Prelude.{◌≤◌, vec_capacity};
    ghost use Rattle.lib_defs.specs.Arguments.{Arguments};

    ghost Value = { Arguments };

    ghost view = { λ args. record { list = args.list.items; room = args.room } };

    ghost invariant = { λ args. args.room ≤ vec_capacity args.list };
}

impl Args {
    /// No arguments, with room for so many.
    pub fn with_room(alloc: Global, room: usize) -> Result<Args, AllocError>
        ensures { IfOk result (λ args. args ≡ record { list = []; room = room }) }
    {
        let list = Vec::with_capacity(alloc, room)?;
        Ok(Args { list, room })
    }

    /// Takes the arguments out; the room stays.
    pub fn clear(&mut self)
        ensures { self.new ≡ record self.old { list = [] } }
    {
        self.list.clear();
    }

    /// Adds an argument behind the others. It takes no memory.
    pub fn push(&mut self, arg: Arg)
        requires { length self.old.list < self.old.room }
        ensures { self.new ≡ record self.old { list = self.old.list ++ arg ∷ [] } }
    {
        self.list.push(arg).unwrap();
    }

    /// How many arguments there are.
    pub fn len(&self) -> usize
        ensures { result ≡ length self.now.list }
    {
        self.list.len()
    }

    /// The argument at the index, or `None` where the index is not below `len`.
    pub fn get(&self, index: usize) -> Option<Arg>
        ensures { result ≡ slice_get self.now.list index }
    {
        self.list.get(index).copied()
    }
}
