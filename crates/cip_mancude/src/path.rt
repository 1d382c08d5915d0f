// The atoms that a search has met.
ghost use Rattle.std.specs.Prelude.{◌≡◌, ◌<◌, ◌∷◌, [], drop, length};
ghost use Rattle.cip_digraph.specs.rings.Alternating.{is_in};

use smallvec::SmallVec;
use std::alloc::Global;
use std::marker::Model;

/// How many atoms an alternating ring has at most.
const MOST_ATOMS: usize = 24;

/// The atoms that a search has met, at most those of a ring. Contracts see them from the last one back.
#[derive(Drop)]
pub struct Path {
    atoms: SmallVec<u32, MOST_ATOMS>,
}

impl Model for Path {
    ghost use Rattle.std.specs.Prelude.{◌≡◌, ◌≤◌, ℕ, List, length, reverse};

    ghost Value = { List ℕ };

    ghost view = { λ p. reverse p.atoms.items };

    // They lie in the path itself, so that no push takes memory.
    ghost invariant = { λ p. (p.atoms.capacity ≡ 24) × (length p.atoms.items ≤ 24) };
}

impl Path {
    /// No atom.
    pub fn new(alloc: Global) -> Path
        ensures { result ≡ [] }
    {
        Path {
            atoms: SmallVec::new(alloc),
        }
    }

    /// Whether an atom was met.
    pub fn contains(&self, atom: u32) -> bool
        ensures { result ≡ is_in atom self.now }
    {
        self.atoms.as_slice().contains(&atom)
    }

    /// Adds an atom.
    pub fn push(&mut self, atom: u32)
        requires { length self.old < 24 }
        ensures { self.new ≡ atom ∷ self.old }
    {
        self.atoms.push_reserved(atom);
    }

    /// Takes the last atom off.
    pub fn pop(&mut self)
        ensures { self.new ≡ drop 1 self.old }
    {
        self.atoms.pop();
    }
}
