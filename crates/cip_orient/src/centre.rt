// What a drawing shows of a centre.
ghost use Rattle.std.specs.Prelude.{◌≡◌, ◌≤◌, All, length, map, if◌then◌else◌};
ghost use Rattle.cip_mol.specs.FlatCentres.{in_plane};
ghost use Rattle.cip_mol.specs.Geometry.{centre_geometry};
ghost use Rattle.cip_mol.specs.Marks.{mark_to};
ghost use Rattle.cip_mol.specs.Points.{flat_steps, is_spatial, point};
ghost use Rattle.cip_mol.specs.Ranges.{IsPlace};
ghost use Rattle.cip_mol.specs.Sites.{IsCentre};
ghost use Rattle.cip_mol.specs.SpatialCentres.{in_space};
ghost use Rattle.cip_orient.specs.DrawnEnds.{IsDrawnCentre};

use crate::coordinates::{flat_steps, point, points, step};
use crate::drawn_ligands::drawn_atoms;
use crate::flat_centre::show_in_plane;
use crate::marks::{has_either, marks_to};
use crate::pairs::shown_by;
use cip_mol::{AtMostFour, Cause, End, Geometry, Molecule};
use cip_num::{Vec3, volume};

/// What is shown of a centre.
pub(crate) fn show_centre(molecule: &Molecule, centre: &End<'_>) -> Geometry
    requires { IsCentre (length molecule.now.atoms) centre.now.at centre.now.ligands.now }
    ensures { result ≡ centre_geometry molecule.now centre.now.at centre.now.ligands.now }
{
    let at = centre.at;
    if has_either(molecule, at) {
        Geometry::Unknown(Cause::Either)
    } else {
        let drawn = drawn_atoms(molecule, centre.ligands);
        show_drawn(molecule, at, &drawn)
    }
}

// By the numbers of its drawn ligands.
fn show_drawn(molecule: &Molecule, at: u32, drawn: &AtMostFour<u32>) -> Geometry
    requires { IsDrawnCentre (length molecule.now.atoms) at drawn.now }
    ensures { result ≡ (if is_spatial molecule.now.atoms
        then in_space (point molecule.now.atoms at) (map (point molecule.now.atoms) drawn.now)
        else in_plane (flat_steps molecule.now.atoms at drawn.now) (map (mark_to at molecule.now.bonds) drawn.now)) }
{
    if molecule.is_spatial() {
        let points = points(molecule, drawn);
        show_in_space(point(molecule, at), points.as_slice())
    } else {
        let directions = flat_steps(molecule, at, drawn);
        let marks = marks_to(molecule, at, drawn);
        show_in_plane(directions.as_slice(), marks.as_slice())
    }
}

fn show_in_space(centre: Vec3, points: &[Vec3]) -> Geometry
    requires centre { IsPlace centre }
    requires points { All IsPlace points.now }
    requires three { 3 ≤ length points.now }
    ensures { result ≡ in_space centre points.now }
{
    let from = if points.len() > 3 { points[3] } else { centre };
    shown_by(volume(
        step(from, points[0]),
        step(from, points[1]),
        step(from, points[2]),
    ))
}
