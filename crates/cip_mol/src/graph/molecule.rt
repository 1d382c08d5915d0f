// Atoms and bonds as they are drawn, and molecules, whose bonds are checked once.
ghost use Rattle.std.specs.Prelude.{◌≡◌, ◌<◌, ◌≤◌, All, length, IfOk, IfErr};
ghost use Rattle.cip_mol.specs.Bonds.{IsSound, Refuses};
ghost use Rattle.cip_mol.specs.Neighbours.{bonds_at, neighbours};
ghost use Rattle.cip_mol.specs.Points.{is_spatial};
ghost use Rattle.cip_mol.specs.Ranges.{IsInRange};
ghost use Rattle.cip_mol.specs.declared.faults.MolFault.TheVariants.{Memory};

use crate::faults::MolFault;
use crate::graph::adjacency::Table;
use crate::graph::bonds::BondList;
use crate::soundness::sound_bonds;
use cip_num::Vec3;
use std::alloc::{AllocError, Global};
use std::marker::Model;

/// The mark of a bond: its far end comes out of the plane, or goes behind it, or may do either.
#[derive(Clone, Copy, Default, PartialEq, Eq)]
pub enum Mark {
    #[default]
    Plain,
    Up,
    Down,
    Either,
}

/// An atom as it is drawn.
#[derive(Clone, Copy)]
pub struct Atom {
    /// Atomic number.
    pub z: u8,
    /// Mass number; 0 where the atom isn't labelled.
    pub isotope: u16,
    /// In elementary charges.
    pub charge: i8,
    /// As in CTfile: 0 none, 1 singlet, 2 doublet, 3 triplet.
    pub radical: u8,
    /// As in CTfile: 0 no mark, 1 to 14 the valence, 15 zero.
    pub valence_mark: u8,
    /// In ten-thousandths of an ångström as drawn.
    pub at: Vec3,
}

/// A bond as it is drawn. Its ends count atoms from 0; the narrow end of a single bond is `a`.
#[derive(Clone, Copy, Default)]
pub struct Bond {
    pub a: u32,
    pub b: u32,
    /// 1 single, 2 double, 3 triple.
    pub order: u8,
    pub mark: Mark,
}

/// Atoms and bonds without a fault. Contracts see a molecule as its two lists.
#[derive(Drop)]
pub struct Molecule {
    atoms: Vec<Atom>,
    bonds: Vec<Bond>,
    table: Table,
    spatial: bool,
}

impl Model for Molecule {
    ghost use Rattle.std.specs.Prelude.{◌≡◌, length};
    ghost use Rattle.cip_mol.specs.Drawing.{Drawing};

    ghost Value = { Drawing };

    ghost view = { λ m. record { atoms = m.atoms.items; bonds = m.bonds.items } };

    ghost use Rattle.cip_mol.specs.Bonds.{IsSound};
    ghost use Rattle.cip_mol.specs.Points.{is_spatial};
    ghost use Rattle.cip_mol.specs.Ranges.{IsInRange};
    ghost use Rattle.cip_mol.specs.Tables.{IsTable};

    ghost invariant = { λ m. IsInRange (record { atoms = m.atoms.items; bonds = m.bonds.items })
        × IsSound (length m.atoms.items) m.bonds.items
        × IsTable (length m.atoms.items) m.bonds.items m.table
        × (m.spatial ≡ is_spatial m.atoms.items) };
}

impl Molecule {
    /// Checks the bonds in order. The first bond with a fault is refused, by the first cause that holds there.
    /// Its cost is linear in the numbers of atoms and bonds.
    pub fn new(alloc: Global, atoms: Vec<Atom>, bonds: Vec<Bond>) -> Result<Molecule, MolFault>
        requires { IsInRange (record { atoms = atoms.items; bonds = bonds.items }) }
        ensures drawn { IfOk result (λ m. m ≡ record { atoms = atoms.items; bonds = bonds.items }) }
        ensures sound { IfOk result (λ _. IsSound (length atoms.items) bonds.items) }
        ensures refused { IfErr result (Refuses (length atoms.items) bonds.items) }
        ensures accepted { IsSound (length atoms.items) bonds.items → IfErr result (λ fault. fault ≡ Memory) }
    {
        match sound_bonds(alloc, atoms.len(), &bonds) {
            Ok(sound) => Ok(Molecule::from_bonds(atoms, sound)),
            Err(fault) => Err(fault),
        }
    }

    /// The molecule of atoms and of bonds between them that were checked as they came.
    pub fn from_bonds(atoms: Vec<Atom>, bonds: BondList) -> Molecule
        requires counted { bonds.atoms ≡ length atoms.items }
        requires range { IsInRange (record { atoms = atoms.items; bonds = bonds.bonds }) }
        ensures { result ≡ record { atoms = atoms.items; bonds = bonds.bonds } }
    {
        let BondList { bonds, table } = bonds;
        let spatial = is_any_off_plane(&atoms);
        Molecule {
            atoms,
            bonds,
            table,
            spatial,
        }
    }

    /// The molecule of bonds that are known to have no fault.
    pub fn of_sound(
        alloc: Global,
        atoms: Vec<Atom>,
        bonds: Vec<Bond>,
    ) -> Result<Molecule, AllocError>
        requires range { IsInRange (record { atoms = atoms.items; bonds = bonds.items }) }
        requires sound { IsSound (length atoms.items) bonds.items }
        ensures { IfOk result (λ m. m ≡ record { atoms = atoms.items; bonds = bonds.items }) }
    {
        match Molecule::new(alloc, atoms, bonds) {
            Ok(molecule) => Ok(molecule),
            Err(MolFault::Memory) => Err(AllocError),
            Err(MolFault::Bond { .. }) => unreachable!(),
        }
    }

    /// The atoms, in the order of the record.
    pub fn atoms(&self) -> &[Atom]
        ensures value { result.now ≡ self.now.atoms }
        ensures range { IsInRange self.now }
        ensures sound { IsSound (length self.now.atoms) self.now.bonds }
    {
        &self.atoms
    }

    /// The bonds, in the order of the record.
    pub fn bonds(&self) -> &[Bond]
        ensures value { result.now ≡ self.now.bonds }
        ensures range { IsInRange self.now }
        ensures sound { IsSound (length self.now.atoms) self.now.bonds }
    {
        &self.bonds
    }

    /// The bonds of an atom, in the order of the record.
    pub fn bonds_at(&self, atom: u32) -> &[Bond]
        requires { atom < length self.now.atoms }
        ensures { result.now ≡ bonds_at atom self.now.bonds }
    {
        self.table.row(atom).bonds()
    }

    /// The neighbours of an atom, by their places among the atoms, in the order of the bonds.
    pub fn neighbours(&self, atom: u32) -> &[u32]
        requires { atom < length self.now.atoms }
        ensures value { result.now ≡ neighbours atom self.now.bonds }
        ensures within { All (λ other. other < length self.now.atoms) result.now }
        ensures few { length result.now ≤ 8 }
    {
        self.table.row(atom).neighbours()
    }

    /// Whether the molecule is drawn in three dimensions.
    pub fn is_spatial(&self) -> bool
        ensures { result ≡ is_spatial self.now.atoms }
    {
        self.spatial
    }
}

fn is_any_off_plane(atoms: &[Atom]) -> bool
    ensures { result ≡ is_spatial atoms.now }
{
    for atom in atoms {
        if atom.at.z != 0 {
            return true;
        }
    }
    false
}
