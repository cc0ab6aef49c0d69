//! The values on the line of a library call.
ghost use Rattle.std.specs.Prelude.{◌≡◌, ◌<◌, ◌≤◌, [], ◌∷◌, ◌++◌, length};
ghost use Rattle.std.specs.List.{All};
ghost use Rattle.run_defs.specs.Short.{IsShort};

use lib_defs::Shown;
use std::marker::Model;

/// The values of a call's arguments in order: at most four, each a number of 64 bits or a place. Contracts see the list
/// of them.
#[derive(Drop)]
pub struct Values {
    list: [Shown; 4],
    count: usize,
}

impl Model for Values {
    ghost use Rattle.std.specs.Prelude.{◌≤◌, List, take};
    ghost use Rattle.std.specs.List.{All};
    ghost use Rattle.lib_defs.specs.declared.shown.Shown.{Shown};
    ghost use Rattle.run_defs.specs.Short.{IsShort};

    ghost Value = { List Shown };

    ghost view = { λ values. take values.count values.list };

    ghost invariant = { λ values. (values.count ≤ 4) × All IsShort (take values.count values.list) };
}

impl Values {
    /// No values.
    pub fn new() -> Values
        ensures { result ≡ [] }
    {
        Values {
            list: [
                Shown::NoValue,
                Shown::NoValue,
                Shown::NoValue,
                Shown::NoValue,
            ],
            count: 0,
        }
    }

    /// Adds a value behind the others.
    pub fn push(&mut self, value: Shown)
        requires few { length self.old < 4 }
        requires short { IsShort value }
        ensures { self.new ≡ self.old ++ value ∷ [] }
    {
        self.list[self.count] = value;
        self.count += 1;
    }

    /// The values, at most four.
    pub fn as_slice(&self) -> &[Shown]
        ensures value { result.now ≡ self.now }
        ensures few { length result.now ≤ 4 }
        ensures short { All IsShort result.now }
    {
        &self.list[..self.count]
    }
}
