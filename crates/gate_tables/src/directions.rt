// Directions in the plane and in space.
ghost use Rattle.std.specs.Prelude.{All, IsTrue};
ghost use Rattle.cip_num.specs.Plane.{IsSmall};
ghost use Rattle.cip_num.specs.Space.{IsSmall3};

use crate::output::text::Text;
use crate::rows::lists::{Point, points};
use crate::rows::row::Row;
use cip_num::{Sign, Vec2, Vec3, circular, same_side, volume};
use std::alloc::{AllocError, Global};

/// In which order the directions of a row are met counterclockwise from the first.
pub fn around(alloc: Global, out: &mut Text, row: &Row) {
    let Ok(points) = points(alloc, row.field(2)) else {
        return out.miss();
    };
    let Ok(directions) = in_plane(alloc, &points) else {
        return out.miss();
    };
    push_order(alloc, out, &directions)
}

fn in_plane(alloc: Global, points: &[Point]) -> Result<Vec<Vec2>, AllocError> {
    points.iter().map(|&(x, y, _)| Vec2 { x, y }).collect(alloc)
}

fn push_order(alloc: Global, out: &mut Text, directions: &[Vec2]) {
    if !are_small(directions) || directions.len() > 4 {
        return out.push_str("out of range");
    }
    match circular(alloc, directions) {
        Some(numbers) => push_places(out, numbers.as_slice()),
        None => out.push_str("none"),
    }
}

fn push_places(out: &mut Text, numbers: &[u8]) {
    for number in numbers {
        out.push_number(i64::from(*number));
    }
}

/// The sign of the volume of the three directions of a row.
pub fn sign_of_volume(alloc: Global, out: &mut Text, row: &Row) {
    let Ok(points) = points(alloc, row.field(2)) else {
        return out.miss();
    };
    match points.as_slice() {
        [a, b, c] => out.push_str(named(volume(space(*a), space(*b), space(*c)))),
        _ => out.push_str("not three"),
    }
}

/// Whether the second and the third direction of a row lie on the same side of the first.
pub fn sign_of_side(alloc: Global, out: &mut Text, row: &Row) {
    let Ok(points) = points(alloc, row.field(2)) else {
        return out.miss();
    };
    match points.as_slice() {
        [u, a, b] => out.push_str(named(same_side(space(*u), space(*a), space(*b)))),
        _ => out.push_str("not three"),
    }
}

fn named(sign: Sign) -> &'static str {
    match sign {
        Sign::Plus => "Plus",
        Sign::Minus => "Minus",
        Sign::Zero => "Zero",
    }
}

fn is_small(direction: Vec2) -> bool
    ensures { IsTrue result → IsSmall direction }
{
    direction.x.unsigned_abs() <= 1_000_000_000 && direction.y.unsigned_abs() <= 1_000_000_000
}

fn are_small(directions: &[Vec2]) -> bool
    ensures { IsTrue result → All IsSmall directions.now }
{
    directions.iter().all(|direction| is_small(*direction))
}

// A direction in space, which is zero where a component is out of range.
fn space(point: Point) -> Vec3
    ensures { IsSmall3 result }
{
    let (x, y, z) = point;
    let most = 1_000_000_000;
    if x.unsigned_abs() <= most && y.unsigned_abs() <= most && z.unsigned_abs() <= most {
        Vec3 { x, y, z }
    } else {
        Vec3 { x: 0, y: 0, z: 0 }
    }
}
