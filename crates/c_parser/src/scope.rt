//! The names in scope (6.2.1): a map to what each is, and a list of what each declaration hid.

ghost use Rattle.std.specs.Prelude.{◌≡◌, ◌++◌, ◌∷◌, ◌≤◌, ◌-◌, [], length, map, take, true, IfOk};
ghost use Rattle.c_syntax.specs.Scopes as spec;

use critical_table::Name;
use std::alloc::{AllocError, Global};
use std::collections::BTreeMap;
use std::marker::Model;

/// A declaration, and what it hid: whether the name was a type's before, if it was declared.
#[derive(Drop)]
struct Entry {
    name: Name,
    names_type: bool,
    hidden: Option<bool>,
}

/// The names that are in scope (6.2.1), and whether each names a type. Contracts see the declarations, the innermost
/// one last. A name is looked up in a map, since to go through them each time would take long in a unit of many names.
#[derive(Drop)]
pub(crate) struct Scope {
    entries: Vec<Entry>,
    /// What the innermost declaration of each name says.
    names: BTreeMap<Name, bool>,
}

impl Model for Scope {
    ghost use Rattle.std.specs.Prelude.{List, map};
    ghost use Rattle.c_syntax.specs.Scopes.{DeclaredName};

    ghost Value = { List DeclaredName };

    ghost use Rattle.c_parser.specs.Known.{IsKept};

    ghost view = { λ s. map (λ e. record { name = e.name; names_type = e.names_type }) s.entries.items };

    ghost invariant = { λ s. IsKept s.entries.items s.names };
}

impl Scope {
    /// The scope that stands around each unit: the typedef names of the headers.
    pub(crate) fn new(alloc: Global) -> Result<Scope, AllocError>
        ensures { IfOk result (λ s. s ≡ spec.predeclared) }
    {
        let mut scope = Scope {
            entries: Vec::new(alloc),
            names: BTreeMap::new(alloc),
        };
        scope.declare_types(
            alloc,
            &[
                b"size_t",
                b"rsize_t",
                b"ptrdiff_t",
                b"wchar_t",
                b"errno_t",
                b"constraint_handler_t",
                b"bool",
                b"int8_t",
                b"int16_t",
                b"int32_t",
                b"int64_t",
                b"uint8_t",
                b"uint16_t",
                b"uint32_t",
                b"uint64_t",
            ],
        )?;
        Ok(scope)
    }

    /// Declares typedef names.
    fn declare_types(&mut self, alloc: Global, names: &[&[u8]]) -> Result<(), AllocError>
        ensures { IfOk result (λ _. self.new
            ≡ self.old ++ map (λ x. record { name = x.now; names_type = true }) names.now) }
    {
        for bytes in names {
            let name = Name::new(alloc, bytes)?;
            self.declare(alloc, &name, true)?;
        }
        Ok(())
    }

    /// Whether the innermost declaration of the name makes it a type.
    pub(crate) fn is_type(&self, name: &Name) -> bool
        ensures { result ≡ spec.is_type self.now name.now }
    {
        match self.names.get(name) {
            None => false,
            Some(names_type) => *names_type,
        }
    }

    /// How many declarations are in scope.
    pub(crate) fn len(&self) -> usize
        ensures { result ≡ length self.now }
    {
        self.entries.len()
    }

    /// Declares a name.
    pub(crate) fn declare(
        &mut self,
        alloc: Global,
        name: &Name,
        names_type: bool,
    ) -> Result<(), AllocError>
        ensures { IfOk result (λ _. self.new ≡ self.old ++ record { name = name.now; names_type = names_type } ∷ []) }
    {
        let key = Name::new(alloc, name.bytes())?;
        let name = Name::new(alloc, name.bytes())?;
        let hidden = self.names.get(&key).copied();
        self.entries.push(Entry {
            name,
            names_type,
            hidden,
        })?;
        match self.names.insert(key, names_type) {
            Ok(_) => Ok(()),
            Err(_) => {
                self.entries.pop();
                Err(AllocError)
            }
        }
    }

    /// Takes the innermost declaration away, and puts back what it hid.
    fn forget(&mut self)
        ensures { self.new ≡ take (length self.old - 1) self.old }
    {
        let Some(entry) = self.entries.pop() else {
            return;
        };
        match entry.hidden {
            None => {
                self.names.remove(&entry.name);
            }
            Some(names_type) => {
                // A name that is in the map needs no room, and so this succeeds.
                let _ = self.names.insert(entry.name, names_type);
            }
        }
    }

    /// Leaves the scopes that were entered behind these declarations.
    pub(crate) fn leave(&mut self, outer: usize)
        requires { outer ≤ length self.old }
        ensures { self.new ≡ take outer self.old }
    {
        while self.len() > outer {
            self.forget();
        }
    }
}
