// The mirror image of a molecule.
ghost use Rattle.std.specs.Prelude.{◌≡◌, All, map, IfOk};
ghost use Rattle.cip_mol.specs.Ranges.{IsAtom, IsPlace};
ghost use Rattle.cip_mol.specs.Reflection.{exchanged, mirrored_atom, mirrored_bond, reflected};

use crate::graph::molecule::{Atom, Bond, Mark, Molecule};
use std::alloc::{AllocError, Global};

impl Molecule {
    /// The molecule with every z negated, and Up and Down in each other's place.
    pub fn mirror(&self, alloc: Global) -> Result<Molecule, AllocError>
        ensures { IfOk result (λ m. m ≡ reflected self.now) }
    {
        let Ok(atoms) = mirrored_atoms(alloc, self.atoms()) else {
            return Err(AllocError);
        };
        match mirrored_bonds(alloc, self.bonds()) {
            Ok(bonds) => Molecule::of_sound(alloc, atoms, bonds),
            Err(error) => Err(error),
        }
    }
}

fn mirrored_atoms(alloc: Global, atoms: &[Atom]) -> Result<Vec<Atom>, AllocError>
    requires { All IsAtom atoms.now }
    ensures { IfOk result (λ v. v.items ≡ map mirrored_atom atoms.now) }
{
    let Ok(mut mirrored) = Vec::with_capacity(alloc, atoms.len()) else {
        return Err(AllocError);
    };
    for atom in atoms {
        mirrored.push_reserved(mirrored_atom(*atom));
    }
    Ok(mirrored)
}

fn mirrored_atom(atom: Atom) -> Atom
    requires { IsPlace atom.at }
    ensures { result ≡ mirrored_atom atom }
{
    let mut mirrored = atom;
    mirrored.at.z = -atom.at.z;
    mirrored
}

fn mirrored_bonds(alloc: Global, bonds: &[Bond]) -> Result<Vec<Bond>, AllocError>
    ensures { IfOk result (λ v. v.items ≡ map mirrored_bond bonds.now) }
{
    let Ok(mut mirrored) = Vec::with_capacity(alloc, bonds.len()) else {
        return Err(AllocError);
    };
    for bond in bonds {
        mirrored.push_reserved(mirrored_bond(*bond));
    }
    Ok(mirrored)
}

fn mirrored_bond(bond: Bond) -> Bond
    ensures { result ≡ mirrored_bond bond }
{
    let mut mirrored = bond;
    mirrored.mark = exchanged(bond.mark);
    mirrored
}

fn exchanged(mark: Mark) -> Mark
    ensures { result ≡ exchanged mark }
{
    match mark {
        Mark::Up => Mark::Down,
        Mark::Down => Mark::Up,
        Mark::Plain => Mark::Plain,
        Mark::Either => Mark::Either,
    }
}
