//! Lists of names.

ghost use Rattle.std.specs.Prelude.{◌≡◌, ◌++◌, ◌∷◌, [], OnOk};
ghost use Rattle.c_type_rules.specs.Members.{is_among};

use critical_table::Name;
use std::alloc::{AllocError, Global};
use std::collections::BTreeSet;
use std::marker::Model;

/// Some names, which contracts see in order. Beside them stands an ordered set, in which a name is looked up.
#[derive(Drop)]
pub struct NameList {
    alloc: Global,
    names: Vec<Name>,
    given: BTreeSet<Name>,
}

impl Model for NameList {
    ghost use Rattle.std.specs.Prelude.{ℕ, List};

    ghost Value = { List (List ℕ) };

    ghost view = { λ list. list.names.items };

    ghost use Rattle.c_statement_rules.specs.Units.{IsKept};

    ghost invariant = { λ list. IsKept list.names.items list.given };
}

impl NameList {
    /// No names.
    pub fn new(alloc: Global) -> NameList
        ensures { result ≡ [] }
    {
        NameList {
            alloc,
            names: Vec::new(alloc),
            given: BTreeSet::new(alloc),
        }
    }

    /// The name is one of these.
    pub fn contains(&self, name: &Name) -> bool
        ensures { result ≡ is_among name.now self.now }
    {
        self.given.contains(name)
    }

    /// One more name.
    pub fn push(&mut self, name: &Name) -> Result<(), AllocError>
        ensures { OnOk result (self.new ≡ self.old ++ name.now ∷ []) }
    {
        let key = Name::new(self.alloc, name.bytes())?;
        let kept = Name::new(self.alloc, name.bytes())?;
        self.names.push(kept)?;
        if self.given.insert(key).is_err() {
            self.names.pop();
            return Err(AllocError);
        }
        Ok(())
    }
}
