// Axes drawn in the plane.
ghost use Rattle.std.specs.Prelude.{◌≡◌, ◌<◌, All, length};
ghost use Rattle.std.specs.List.{list_any};
ghost use Rattle.cip_num.specs.Signs.{is_zero};
ghost use Rattle.cip_num.specs.Space.{IsSmall3};
ghost use Rattle.cip_mol.specs.FlatAxes.{by_marks, flank, has_no_length, is_coincident, is_contradictory, lead, lies_on_line, lies_on_one_side, repeats_mark, upright};
ghost use Rattle.cip_mol.specs.Pairs.{are_two_alike};

use crate::marks::{has_mark, opposite};
use crate::pairs::shown_by;
use cip_mol::{Cause, Geometry};
use cip_num::{Sign, Vec3, volume};

/// What the marks and ligands of both ends show, by the step between these.
pub(crate) fn show_by_marks(
    axis: Vec3,
    marks: &[Sign],
    other_marks: &[Sign],
    firsts: &[Vec3],
    seconds: &[Vec3],
) -> Geometry
    requires axis { IsSmall3 axis }
    requires marks { length marks.now ≡ length firsts.now }
    requires other_marks { length other_marks.now ≡ length seconds.now }
    requires firsts { All IsSmall3 firsts.now }
    requires seconds { All IsSmall3 seconds.now }
    requires first { 0 < length firsts.now }
    requires second { 0 < length seconds.now }
    ensures { result ≡ by_marks axis marks.now other_marks.now firsts.now seconds.now }
{
    if is_coincident(axis, marks, other_marks, firsts, seconds) {
        Geometry::Unknown(Cause::Coincident)
    } else if is_contradictory(axis, marks, other_marks, firsts, seconds) {
        Geometry::Unknown(Cause::Contradictory)
    } else if has_mark(marks) {
        shown_by(volume(axis, upright(lead(marks)), seconds[0]))
    } else if has_mark(other_marks) {
        shown_by(volume(axis, firsts[0], upright(lead(other_marks))))
    } else {
        Geometry::Unknown(Cause::NoMark)
    }
}

fn is_coincident(
    axis: Vec3,
    marks: &[Sign],
    other_marks: &[Sign],
    firsts: &[Vec3],
    seconds: &[Vec3],
) -> bool
    requires axis { IsSmall3 axis }
    requires firsts { All IsSmall3 firsts.now }
    requires seconds { All IsSmall3 seconds.now }
    ensures { result ≡ is_coincident axis marks.now other_marks.now firsts.now seconds.now }
{
    has_no_length(axis)
        || lies_on_line(axis, marks, firsts)
        || lies_on_line(axis, other_marks, seconds)
}

fn is_contradictory(
    axis: Vec3,
    marks: &[Sign],
    other_marks: &[Sign],
    firsts: &[Vec3],
    seconds: &[Vec3],
) -> bool
    requires axis { IsSmall3 axis }
    requires firsts { All IsSmall3 firsts.now }
    requires seconds { All IsSmall3 seconds.now }
    ensures { result ≡ is_contradictory axis marks.now other_marks.now firsts.now seconds.now }
{
    has_mark(marks) && has_mark(other_marks)
        || repeats_mark(marks)
        || repeats_mark(other_marks)
        || lies_on_one_side(axis, marks, firsts)
        || lies_on_one_side(axis, other_marks, seconds)
}

fn has_no_length(axis: Vec3) -> bool
    ensures { result ≡ has_no_length axis }
{
    axis.x == 0 && axis.y == 0 && axis.z == 0
}

fn lies_on_line(axis: Vec3, marks: &[Sign], ligands: &[Vec3]) -> bool
    requires axis { IsSmall3 axis }
    requires ligands { All IsSmall3 ligands.now }
    ensures { result ≡ lies_on_line axis marks.now ligands.now }
{
    !has_mark(marks) && is_any_on_line(axis, ligands)
}

fn is_any_on_line(axis: Vec3, ligands: &[Vec3]) -> bool
    requires axis { IsSmall3 axis }
    requires ligands { All IsSmall3 ligands.now }
    ensures { result ≡ list_any (λ ligand. is_zero (flank axis ligand)) ligands.now }
{
    for ligand in ligands {
        if matches!(flank(axis, *ligand), Sign::Zero) {
            return true;
        }
    }
    false
}

fn lies_on_one_side(axis: Vec3, marks: &[Sign], ligands: &[Vec3]) -> bool
    requires axis { IsSmall3 axis }
    requires ligands { All IsSmall3 ligands.now }
    ensures { result ≡ lies_on_one_side axis marks.now ligands.now }
{
    !has_mark(marks) && ligands.len() == 2 && flank(axis, ligands[0]) == flank(axis, ligands[1])
}

// The side of the axis on which a ligand lies, seen from above.
fn flank(axis: Vec3, ligand: Vec3) -> Sign
    requires axis { IsSmall3 axis }
    requires ligand { IsSmall3 ligand }
    ensures { result ≡ flank axis ligand }
{
    volume(upright(Sign::Plus), axis, ligand)
}

fn upright(mark: Sign) -> Vec3
    ensures value { result ≡ upright mark }
    ensures small { IsSmall3 result }
{
    match mark {
        Sign::Plus => Vec3 { x: 0, y: 0, z: 1 },
        Sign::Minus => Vec3 { x: 0, y: 0, z: -1 },
        Sign::Zero => Vec3 { x: 0, y: 0, z: 0 },
    }
}

fn repeats_mark(marks: &[Sign]) -> bool
    ensures { result ≡ repeats_mark marks.now }
{
    marks.len() == 2 && marks[0] != Sign::Zero && marks[0] == marks[1]
}

// The mark of the first ligand, or the opposite of the second one's.
fn lead(marks: &[Sign]) -> Sign
    requires { 0 < length marks.now }
    ensures { result ≡ lead marks.now }
{
    match marks {
        [Sign::Zero, second, ..] => opposite(*second),
        _ => marks[0],
    }
}
