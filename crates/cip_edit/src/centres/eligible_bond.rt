// Which ligand of a centre is marked.
ghost use Rattle.std.specs.Prelude.{◌≡◌, length, IfOk};
ghost use Rattle.std.specs.List.{list_any};
ghost use Rattle.cip_mol.specs.DrawnLigands.{drawn};
ghost use Rattle.cip_mol.specs.Sites.{IsSite};
ghost use Rattle.cip_edit.specs.Marking.{first_where, is_eligible, can_be_marked, ligands_of, shows_coincident, shows_reentrant};

use crate::centres::marks::{can_be_marked, marked};
use cip_mol::{Bond, Cause, Geometry, Mark, Molecule, Site};
use cip_orient::{drawn_atoms, orient};
use std::alloc::{AllocError, Global};

/// The first of a centre's drawn ligands at whose bond a mark shows a sense. No mark has its narrow end at the centre.
pub fn eligible_ligand(
    alloc: Global,
    bare: &Molecule,
    atom: u32,
    site: &Site,
) -> Result<Option<u32>, AllocError>
    requires { IsSite (length bare.now.atoms) site.now }
    ensures { IfOk result (λ found. found
        ≡ first_where (is_eligible bare.now atom site.now) (drawn (length bare.now.atoms) (ligands_of site.now))) }
{
    match site {
        Site::Centre { ligands, .. } => {
            let drawn = drawn_atoms(bare, ligands);
            first_eligible(alloc, bare, atom, site, drawn.as_slice())
        }
        _ => Ok(None),
    }
}

fn first_eligible(
    alloc: Global,
    bare: &Molecule,
    atom: u32,
    site: &Site,
    numbers: &[u32],
) -> Result<Option<u32>, AllocError>
    requires { IsSite (length bare.now.atoms) site.now }
    ensures { IfOk result (λ found. found ≡ first_where (is_eligible bare.now atom site.now) numbers.now) }
{
    for number in numbers {
        let Ok(eligible) = is_eligible(alloc, bare, atom, site, *number) else {
            return Err(AllocError);
        };
        if eligible {
            return Ok(Some(*number));
        }
    }
    Ok(None)
}

fn is_eligible(
    alloc: Global,
    bare: &Molecule,
    atom: u32,
    site: &Site,
    neighbour: u32,
) -> Result<bool, AllocError>
    requires { IsSite (length bare.now.atoms) site.now }
    ensures { IfOk result (λ found. found ≡ is_eligible bare.now atom site.now neighbour) }
{
    if has_free(bare.bonds(), atom, neighbour) {
        match marked(alloc, bare, atom, neighbour, Mark::Up) {
            Ok(up) => Ok(!shows_reentrant(orient(alloc, &up, site))),
            Err(fault) => Err(fault),
        }
    } else {
        Ok(false)
    }
}

fn has_free(bonds: &[Bond], atom: u32, neighbour: u32) -> bool
    ensures { result ≡ list_any (can_be_marked atom neighbour) bonds.now }
{
    for bond in bonds {
        if can_be_marked(*bond, atom, neighbour) {
            return true;
        }
    }
    false
}

fn shows_reentrant(geometry: Geometry) -> bool
    ensures { result ≡ shows_reentrant geometry }
{
    matches!(geometry, Geometry::Unknown(Cause::Reentrant))
}

/// Whether two ligands are drawn in one direction, or one at the centre.
pub fn shows_coincident(geometry: Geometry) -> bool
    ensures { result ≡ shows_coincident geometry }
{
    matches!(geometry, Geometry::Unknown(Cause::Coincident))
}
