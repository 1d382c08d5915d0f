// Another numbering of the same molecule.
ghost use Rattle.std.specs.Prelude.{◌≡◌, length, map, IfOk};
ghost use Rattle.cip_mol.specs.Bonds.{IsSound};
ghost use Rattle.cip_mol.specs.Permutations.{ArePlaces};
ghost use Rattle.cip_mol.specs.RenumberedDrawing.{place_of, placed, renamed, renumbered};

use crate::graph::molecule::{Bond, Molecule};
use std::alloc::{AllocError, Global};

impl Molecule {
    /// The molecule with atom i at place `atoms[i]` and bond i at place `bonds[i]`, its ends renamed in their order.
    /// Nothing else changes.
    pub fn renumber(
        &self,
        alloc: Global,
        atoms: &[u32],
        bonds: &[u32],
    ) -> Result<Molecule, AllocError>
        requires atoms { ArePlaces (length self.now.atoms) atoms.now }
        requires bonds { ArePlaces (length self.now.bonds) bonds.now }
        ensures drawn { IfOk result (λ m. m ≡ renumbered atoms.now bonds.now self.now) }
        ensures sound { IsSound (length self.now.atoms) self.now.bonds }
    {
        let Ok(renamed) = renamed_bonds(alloc, atoms, self.bonds()) else {
            return Err(AllocError);
        };
        let Ok(placed_atoms) = placed(alloc, atoms, self.atoms()) else {
            return Err(AllocError);
        };
        match placed(alloc, bonds, &renamed) {
            Ok(placed_bonds) => Molecule::of_sound(alloc, placed_atoms, placed_bonds),
            Err(error) => Err(error),
        }
    }
}

// Bonds between the places of their ends.
fn renamed_bonds(alloc: Global, atoms: &[u32], bonds: &[Bond]) -> Result<Vec<Bond>, AllocError>
    ensures { IfOk result (λ v. v.items ≡ map (renamed (place_of atoms.now)) bonds.now) }
{
    let Ok(mut between) = Vec::with_capacity(alloc, bonds.len()) else {
        return Err(AllocError);
    };
    for bond in bonds {
        between.push_reserved(renamed(atoms, *bond));
    }
    Ok(between)
}

fn renamed(atoms: &[u32], bond: Bond) -> Bond
    ensures { result ≡ renamed (place_of atoms.now) bond }
{
    Bond {
        a: place_of(atoms, bond.a),
        b: place_of(atoms, bond.b),
        ..bond
    }
}

fn place_of(atoms: &[u32], atom: u32) -> u32
    ensures { result ≡ place_of atoms.now atom }
{
    atoms.get(atom as usize).copied().unwrap_or(atom)
}

// Each item at its place.
fn placed<T: Copy>(alloc: Global, places: &[u32], items: &[T]) -> Result<Vec<T>, AllocError>
    requires { ArePlaces (length items.now) places.now }
    ensures { IfOk result (λ v. (none : T) → v.items ≡ placed none places.now items.now) }
{
    let Ok(mut there) = items.to_vec(alloc) else {
        return Err(AllocError);
    };
    for (k, item) in items.iter().enumerate() {
        there[places[k] as usize] = *item;
    }
    Ok(there)
}
