// What a drawing shows of an axis.
ghost use Rattle.std.specs.Prelude.{◌≡◌, length};
ghost use Rattle.cip_mol.specs.Geometry.{axis_geometry, axis_in_plane};
ghost use Rattle.cip_mol.specs.Sites.{IsEnd};
ghost use Rattle.cip_orient.specs.DrawnEnds.{IsDrawn, of_drawn_axis};

use crate::coordinates::{step_between, steps};
use crate::drawn_ligands::{DrawnEnd, drawn_end};
use crate::flat_axis::show_by_marks;
use crate::marks::{has_either, marks_to};
use crate::pairs::{PairSign, show_drawn_pairs};
use cip_mol::{Cause, Geometry, Molecule, TwoEnds};

/// What is shown of an axis between two ends.
pub(crate) fn show_axis(molecule: &Molecule, ends: &TwoEnds<'_>) -> Geometry
    requires nearer { IsEnd (length molecule.now.atoms) ends.now.nearer.at ends.now.nearer.ligands.now }
    requires far { IsEnd (length molecule.now.atoms) ends.now.far.at ends.now.far.ligands.now }
    ensures { result ≡ axis_geometry molecule.now ends.now.nearer.at ends.now.far.at ends.now.nearer.ligands.now
        ends.now.far.ligands.now }
{
    if has_either(molecule, ends.nearer.at) || has_either(molecule, ends.far.at) {
        Geometry::Unknown(Cause::Either)
    } else {
        let nearer = drawn_end(molecule, &ends.nearer);
        let far = drawn_end(molecule, &ends.far);
        show_drawn_axis(molecule, &nearer, &far)
    }
}

// By the twists of the drawn ligands, or in the plane by their marks.
fn show_drawn_axis(molecule: &Molecule, nearer: &DrawnEnd, far: &DrawnEnd) -> Geometry
    requires nearer { IsDrawn (length molecule.now.atoms) nearer.now }
    requires far { IsDrawn (length molecule.now.atoms) far.now }
    ensures { result ≡ of_drawn_axis molecule.now nearer.now far.now }
{
    if molecule.is_spatial() {
        show_drawn_pairs(molecule, PairSign::Twist, nearer, far)
    } else {
        show_in_plane(molecule, nearer, far)
    }
}

// By the marks of the drawn ligands, and by their sides.
fn show_in_plane(molecule: &Molecule, nearer: &DrawnEnd, far: &DrawnEnd) -> Geometry
    requires nearer { IsDrawn (length molecule.now.atoms) nearer.now }
    requires far { IsDrawn (length molecule.now.atoms) far.now }
    ensures { result ≡ axis_in_plane molecule.now.atoms molecule.now.bonds nearer.now.at far.now.at nearer.now.ligands
        far.now.ligands }
{
    let marks = marks_to(molecule, nearer.at, &nearer.ligands);
    let other_marks = marks_to(molecule, far.at, &far.ligands);
    let axis = step_between(molecule, nearer.at, far.at);
    let firsts = steps(molecule, nearer.at, &nearer.ligands);
    let seconds = steps(molecule, far.at, &far.ligands);
    show_by_marks(
        axis,
        marks.as_slice(),
        other_marks.as_slice(),
        firsts.as_slice(),
        seconds.as_slice(),
    )
}
