// The ligands of a unit: a short list.
ghost use Rattle.std.specs.Prelude.{◌≡◌, ◌<◌, ◌≤◌, ◌++◌, ◌∷◌, [], length, slice_get, Some};

use crate::site::Ligand;
use smallvec::SmallVec;
use std::alloc::Global;
use std::marker::Model;

/// The greatest number of ligands of a centre.
const MOST: usize = 4;

/// The ligands of a centre, or of an end of a bond or axis: at most four, which lie in the list itself, so that no push
/// takes memory. Contracts see the list of them.
#[derive(Drop)]
pub struct Ligands {
    items: SmallVec<Ligand, MOST>,
}

impl Model for Ligands {
    ghost use Rattle.std.specs.Prelude.{◌≡◌, ◌≤◌, List, length};
    ghost use Rattle.cip_mol.specs.declared.site.Ligand.{Ligand};

    ghost Value = { List Ligand };

    ghost view = { λ ligands. ligands.items.items };

    ghost invariant = { λ ligands. (ligands.items.capacity ≡ 4) × (length ligands.items.items ≤ 4) };
}

impl Ligands {
    /// The empty list.
    pub fn new(alloc: Global) -> Ligands
        ensures { result ≡ [] }
    {
        Ligands {
            items: SmallVec::new(alloc),
        }
    }

    /// Adds a ligand at the end.
    pub fn push(&mut self, ligand: Ligand)
        requires { length self.old < 4 }
        ensures { self.new ≡ self.old ++ ligand ∷ [] }
    {
        self.items.push_reserved(ligand);
    }

    /// The number of ligands.
    pub fn len(&self) -> u32
        ensures counted { result ≡ length self.now }
        ensures few { length self.now ≤ 4 }
    {
        self.items.len() as u32
    }

    /// The ligand at a place, counted from 0.
    pub fn get(&self, place: u32) -> &Ligand
        requires { place < length self.now }
        ensures { slice_get self.now place ≡ Some result.now }
    {
        &self.items.as_slice()[place as usize]
    }

    /// The ligands in their order.
    pub fn as_slice(&self) -> &[Ligand]
        ensures value { result.now ≡ self.now }
        ensures few { length self.now ≤ 4 }
    {
        self.items.as_slice()
    }

    /// The same ligands once more. It takes no memory.
    pub fn copy(&self) -> Ligands
        ensures { result ≡ self.now }
    {
        let mut copy = Ligands::new(*self.items.allocator());
        for ligand in self.as_slice() {
            copy.push(*ligand);
        }
        copy
    }
}
