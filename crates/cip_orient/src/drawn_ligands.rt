// The ligands that are drawn.
ghost use Rattle.std.specs.Prelude.{◌≡◌, ◌<◌, All, length};
ghost use Rattle.cip_mol.specs.DrawnLigands.{drawn, drawn_number};
ghost use Rattle.cip_mol.specs.Sites.{IsEnd};
ghost use Rattle.cip_orient.specs.DrawnEnds.{IsDrawn};

use cip_mol::{AtMostFour, End, Ligand, Ligands, Molecule};

/// An end of a bond or axis, with its drawn ligands by their numbers.
#[derive(Drop)]
pub(crate) struct DrawnEnd {
    pub(crate) at: u32,
    pub(crate) ligands: AtMostFour<u32>,
}

/// What is drawn of an end.
pub(crate) fn drawn_end(molecule: &Molecule, end: &End<'_>) -> DrawnEnd
    requires { IsEnd (length molecule.now.atoms) end.now.at end.now.ligands.now }
    ensures is { result
        ≡ record { at = end.now.at; ligands = drawn (length molecule.now.atoms) end.now.ligands.now } }
    ensures drawn { IsDrawn (length molecule.now.atoms) result }
{
    DrawnEnd {
        at: end.at,
        ligands: drawn_atoms(molecule, end.ligands),
    }
}

/// The atoms among ligands, in their order.
pub fn drawn_atoms(molecule: &Molecule, ligands: &Ligands) -> AtMostFour<u32>
    ensures value { result ≡ drawn (length molecule.now.atoms) ligands.now }
    ensures within { All (λ number. number < length molecule.now.atoms) result }
{
    let atoms = molecule.atoms().len();
    let mut numbers = AtMostFour::new();
    for ligand in ligands.as_slice() {
        if let Some(number) = drawn_number(atoms, *ligand) {
            numbers.push(number);
        }
    }
    numbers
}

fn drawn_number(atoms: usize, ligand: Ligand) -> Option<u32>
    ensures { result ≡ drawn_number atoms ligand }
{
    match ligand {
        Ligand::Vertex(vertex) if (vertex as usize) < atoms => Some(vertex),
        _ => None,
    }
}
