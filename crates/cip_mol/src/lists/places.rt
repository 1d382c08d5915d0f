// Places in the lists of ligands of a unit: a short list.
ghost use Rattle.std.specs.Prelude.{◌≡◌, ◌<◌, ◌≤◌, ◌++◌, ◌∷◌, [], length, slice_get, Some};

use smallvec::SmallVec;
use std::alloc::Global;
use std::marker::Model;

/// The greatest number of ligands of a unit.
const MOST: usize = 4;

/// Places in the lists of a unit's ligands: at most four, which lie in the list itself, so that no push
/// takes memory. Contracts see the list of them.
#[derive(Drop)]
pub struct Places {
    items: SmallVec<u32, MOST>,
}

impl Model for Places {
    ghost use Rattle.std.specs.Prelude.{◌≡◌, ◌≤◌, ℕ, List, length};

    ghost Value = { List ℕ };

    ghost view = { λ places. places.items.items };

    ghost invariant = { λ places. (places.items.capacity ≡ 4) × (length places.items.items ≤ 4) };
}

impl Places {
    /// The empty list.
    pub fn new(alloc: Global) -> Places
        ensures { result ≡ [] }
    {
        Places {
            items: SmallVec::new(alloc),
        }
    }

    /// Adds a place at the end.
    pub fn push(&mut self, place: u32)
        requires { length self.old < 4 }
        ensures { self.new ≡ self.old ++ place ∷ [] }
    {
        self.items.push_reserved(place);
    }

    /// The number of places.
    pub fn len(&self) -> u32
        ensures counted { result ≡ length self.now }
        ensures few { length self.now ≤ 4 }
    {
        self.items.len() as u32
    }

    /// The item at a place, counted from 0.
    pub fn get(&self, place: u32) -> &u32
        requires { place < length self.now }
        ensures { slice_get self.now place ≡ Some result.now }
    {
        &self.items.as_slice()[place as usize]
    }

    /// The places in their order.
    pub fn as_slice(&self) -> &[u32]
        ensures value { result.now ≡ self.now }
        ensures few { length self.now ≤ 4 }
    {
        self.items.as_slice()
    }

    /// The same places once more. It takes no memory.
    pub fn copy(&self) -> Places
        ensures { result ≡ self.now }
    {
        let mut copy = Places::new(*self.items.allocator());
        for place in self.as_slice() {
            copy.push(*place);
        }
        copy
    }
}
