//! The values that a string literal is made of (6.4.5).

ghost use Rattle.std.specs.Prelude.{◌≡◌, length, IfOk};
ghost use Rattle.std.specs.List.{slice_get};

use std::alloc::{AllocError, Global};
use std::marker::Model;

/// The units of a string literal without the null at its end (6.4.5): values of `char` from -128 to 127 in a narrow
/// literal, of `int` in a wide one. Contracts see the list of them.
#[derive(Debug, Drop)]
pub struct Units {
    units: Vec<i64>,
}

impl Model for Units {
    ghost use Rattle.std.specs.Prelude.{ℤ, List};

    ghost Value = { List ℤ };

    ghost view = { λ u. u.units.items };
}

impl Units {
    pub(crate) fn new(units: Vec<i64>) -> Units
        ensures { result ≡ units.items }
    {
        Units { units }
    }

    /// A literal with these units.
    pub fn from_slice(alloc: Global, units: &[i64]) -> Result<Units, AllocError>
        ensures { IfOk result (λ made. made ≡ units.now) }
    {
        let units = Vec::from_slice(alloc, units)?;
        Ok(Units { units })
    }

    /// The units in order.
    pub fn as_slice(&self) -> &[i64]
        ensures { result.now ≡ self.now }
    {
        self.units.as_slice()
    }

    /// How many units there are.
    pub fn len(&self) -> usize
        ensures { result ≡ length self.now }
    {
        self.units.len()
    }

    /// The unit at an index, if there are more units than that.
    pub fn get(&self, index: usize) -> Option<i64>
        ensures { result ≡ slice_get self.now index }
    {
        self.units.get(index).copied()
    }
}
