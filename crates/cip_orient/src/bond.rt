// What a drawing shows of a double bond.
ghost use Rattle.std.specs.Prelude.{◌≡◌, length};
ghost use Rattle.cip_mol.specs.Geometry.{bond_geometry};
ghost use Rattle.cip_mol.specs.Sites.{IsEnd};

use crate::drawn_ligands::drawn_end;
use crate::marks::{has_either, is_crossed};
use crate::pairs::{PairSign, show_drawn_pairs};
use cip_mol::{Cause, Geometry, Molecule, TwoEnds};

/// What is shown of a bond between two ends.
pub(crate) fn show_bond(molecule: &Molecule, ends: &TwoEnds<'_>) -> Geometry
    requires nearer { IsEnd (length molecule.now.atoms) ends.now.nearer.at ends.now.nearer.ligands.now }
    requires far { IsEnd (length molecule.now.atoms) ends.now.far.at ends.now.far.ligands.now }
    ensures { result ≡ bond_geometry molecule.now ends.now.nearer.at ends.now.far.at ends.now.nearer.ligands.now
        ends.now.far.ligands.now }
{
    let (a, b) = (ends.nearer.at, ends.far.at);
    if has_either(molecule, a) || has_either(molecule, b) || is_crossed(molecule, a, b) {
        Geometry::Unknown(Cause::Either)
    } else {
        let nearer = drawn_end(molecule, &ends.nearer);
        let far = drawn_end(molecule, &ends.far);
        show_drawn_pairs(molecule, PairSign::Sides, &nearer, &far)
    }
}
