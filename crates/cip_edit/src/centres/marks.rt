// Molecules with other marks at an atom.
ghost use Rattle.std.specs.Prelude.{◌≡◌, length, map, IfOk};
ghost use Rattle.cip_mol.specs.Bonds.{IsSound};
ghost use Rattle.cip_mol.specs.Marks.{is_narrow_at, joins};
ghost use Rattle.cip_mol.specs.Ranges.{IsInRange};
ghost use Rattle.cip_edit.specs.Marking.{bare, bare_bonds, can_be_marked, marked, marked_to, with_mark, without_mark};

use cip_mol::{Bond, Mark, Molecule};
use std::alloc::{AllocError, Global};

/// The molecule with one mark whose narrow end is the atom, at the bond to a neighbour, where that bond is single and
/// has no mark at the neighbour.
pub fn with_mark(
    alloc: Global,
    molecule: &Molecule,
    atom: u32,
    neighbour: u32,
    mark: Mark,
) -> Result<Molecule, AllocError>
    ensures { IfOk result (λ m. m ≡ with_mark molecule.now atom neighbour mark) }
{
    let Ok(bare) = without_marks(alloc, molecule, atom) else {
        return Err(AllocError);
    };
    marked(alloc, &bare, atom, neighbour, mark)
}

/// The molecule with no mark that has its narrow end at the atom.
pub fn without_marks(alloc: Global, molecule: &Molecule, atom: u32) -> Result<Molecule, AllocError>
    ensures { IfOk result (λ m. m ≡ bare molecule.now atom) }
{
    let bonds = bare_bonds(alloc, molecule.bonds(), atom)?;
    with_bonds(alloc, molecule, bonds)
}

/// The molecule with a mark at the free bond between the atom and a neighbour, its narrow end at the atom.
pub fn marked(
    alloc: Global,
    molecule: &Molecule,
    atom: u32,
    neighbour: u32,
    mark: Mark,
) -> Result<Molecule, AllocError>
    ensures { IfOk result (λ m. m ≡ marked molecule.now atom neighbour mark) }
{
    let bonds = marked_bonds(alloc, molecule.bonds(), atom, neighbour, mark)?;
    with_bonds(alloc, molecule, bonds)
}

// The molecule with other bonds that have no fault.
fn with_bonds(alloc: Global, molecule: &Molecule, bonds: Vec<Bond>) -> Result<Molecule, AllocError>
    requires range { IsInRange (record { atoms = molecule.now.atoms; bonds = bonds.items }) }
    requires sound { IsSound (length molecule.now.atoms) bonds.items }
    ensures { IfOk result (λ m. m ≡ record { atoms = molecule.now.atoms; bonds = bonds.items }) }
{
    let atoms = molecule.atoms().to_vec(alloc)?;
    Molecule::of_sound(alloc, atoms, bonds)
}

fn bare_bonds(alloc: Global, bonds: &[Bond], atom: u32) -> Result<Vec<Bond>, AllocError>
    ensures { IfOk result (λ v. v.items ≡ bare_bonds atom bonds.now) }
{
    bonds
        .iter()
        .map(|bond| without_mark(*bond, atom))
        .collect(alloc)
}

fn without_mark(bond: Bond, atom: u32) -> Bond
    ensures { result ≡ without_mark atom bond }
{
    if is_narrow_at(bond, atom) {
        Bond {
            mark: Mark::Plain,
            ..bond
        }
    } else {
        bond
    }
}

fn is_narrow_at(bond: Bond, atom: u32) -> bool
    ensures { result ≡ is_narrow_at atom bond }
{
    bond.a == atom && bond.order == 1
}

fn marked_bonds(
    alloc: Global,
    bonds: &[Bond],
    atom: u32,
    neighbour: u32,
    mark: Mark,
) -> Result<Vec<Bond>, AllocError>
    ensures { IfOk result (λ v. v.items ≡ map (marked_to atom neighbour mark) bonds.now) }
{
    bonds
        .iter()
        .map(|bond| marked_to(*bond, atom, neighbour, mark))
        .collect(alloc)
}

fn marked_to(bond: Bond, atom: u32, neighbour: u32, mark: Mark) -> Bond
    ensures { result ≡ marked_to atom neighbour mark bond }
{
    if can_be_marked(bond, atom, neighbour) {
        Bond {
            a: atom,
            b: neighbour,
            order: bond.order,
            mark,
        }
    } else {
        bond
    }
}

/// Whether a bond is a single one between two atoms, without a mark.
pub fn can_be_marked(bond: Bond, atom: u32, neighbour: u32) -> bool
    ensures { result ≡ can_be_marked atom neighbour bond }
{
    joins(bond, atom, neighbour) && bond.order == 1 && bond.mark == Mark::Plain
}

fn joins(bond: Bond, a: u32, b: u32) -> bool
    ensures { result ≡ joins a b bond }
{
    (bond.a == a && bond.b == b) || (bond.a == b && bond.b == a)
}
