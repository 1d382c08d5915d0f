// Atoms that are in a group already.
ghost use Rattle.std.specs.Prelude.{◌≡◌, ◌++◌, ◌∷◌, [], OnErr, OnOk, false, nat_eq};
ghost use Rattle.std.specs.List.{list_any};

use indexmap::IndexSet;
use std::alloc::{AllocError, Global};
use std::marker::Model;

/// Atoms in the order in which they were added, none of them twice. Contracts see the list of them. No public item of this
/// crate names this type, so that crates above load no code of the set.
#[derive(Drop)]
pub struct AtomSet {
    set: IndexSet<u32>,
}

impl Model for AtomSet {
    ghost use Rattle.std.specs.Prelude.{List, ℕ};

    ghost Value = { List ℕ };

    ghost view = { λ atoms. atoms.set.keys };
}

impl AtomSet {
    /// No atom.
    pub fn new(alloc: Global) -> AtomSet
        ensures { result ≡ [] }
    {
        AtomSet {
            set: IndexSet::new(alloc),
        }
    }

    /// Adds an atom that isn't there yet at the end.
    pub fn push(&mut self, atom: u32) -> Result<(), AllocError>
        requires { list_any (nat_eq atom) self.old ≡ false }
        ensures { OnOk result (self.new ≡ self.old ++ atom ∷ []) }
    {
        let Ok(_) = self.set.insert(atom) else {
            return Err(AllocError);
        };
        Ok(())
    }

    /// Whether an atom is there.
    pub fn contains(&self, atom: u32) -> bool
        ensures { result ≡ list_any (nat_eq atom) self.now }
    {
        self.set.contains(&atom)
    }
}
