// Another numbering of the same molecule.
ghost use Rattle.std.specs.Prelude.{◌≡◌, length, IfOk};
ghost use Rattle.cip_mol.specs.Permutations.{ArePlaces};
ghost use Rattle.cip_mol.specs.RenumberedDrawing.{renumbered};
ghost use Rattle.cip_laws.specs.RenumberingLaw.{KeepsOutcomes, RenumberingKeepsOutcomes, RenumberingsAreSound, UnitsShareNoEnd};
ghost use Rattle.cip_laws.specs.VertexImages.{vertex_image, RenumberedDrawingsAreRenumberings};
ghost use Rattle.cip_laws.specs.WorkedNumberings.{AreRenumbered};
ghost use Rattle.cip_laws.specs.WorkedRenumbering.{IsRenumbered};
ghost use Rattle.cip_laws.specs.FurtherLaws.{RenumberingKeepsFurther};

use cip_mol::Molecule;
use std::alloc::{AllocError, Global};

/// The molecule with atom i at place `atoms[i]` and bond i at place `bonds[i]`: its units are those of the molecule,
/// with their outcomes and costs.
pub fn renumber(
    alloc: Global,
    molecule: &Molecule,
    atoms: &[u32],
    bonds: &[u32],
) -> Result<Molecule, AllocError>
    requires atoms { ArePlaces (length molecule.now.atoms) atoms.now }
    requires bonds { ArePlaces (length molecule.now.bonds) bonds.now }
    ensures drawn { IfOk result (λ m. m ≡ renumbered atoms.now bonds.now molecule.now) }
    ensures outcomes { IfOk result (λ m. KeepsOutcomes molecule.now m (vertex_image molecule.now m atoms.now)) }
{
    molecule.renumber(alloc, atoms, bonds)
}

/// Each stereogenic unit goes to a unit of the renumbered molecule, and each unit there comes from one, with the same
/// descriptor, rule, sphere and cost, or the same reason why there is none; the ligands in rank order go along.
pub fn renumbering_keeps_outcomes()
    ensures { RenumberingKeepsOutcomes }
{}

/// No atom is an end of two stereogenic units.
pub fn units_share_no_end()
    ensures { UnitsShareNoEnd }
{}

/// In another numbering, too, bonds join two different atoms of the molecule, no two of them the same ones, and no
/// atom has more than eight.
pub fn renumberings_are_sound()
    ensures { RenumberingsAreSound }
{}

/// With its atoms and bonds at the places of two permutations, a drawing is the same molecule in another numbering:
/// each implicit hydrogen goes with the atom that carries it.
pub fn renumbered_drawings_are_renumberings()
    ensures { RenumberedDrawingsAreRenumberings }
{}

/// Bromochlorofluoromethane drawn with its atoms and bonds in two orders, and the label of its centre in both.
pub fn worked_renumbering_is_labelled()
    ensures { IsRenumbered }
{}

/// Six molecules and their labels in other numberings: a centre, a double bond whose ends change places, an allene,
/// centres with hydrogens that aren't drawn, and menthol.
pub fn worked_molecules_are_renumbered()
    ensures { AreRenumbered }
{}

/// Each further unit goes to one of the renumbered molecule, and each one there comes from one, with the same
/// descriptor, rule, sphere and cost, or the same reason why there is none.
pub fn renumbering_keeps_further()
    ensures { RenumberingKeepsFurther }
{}
