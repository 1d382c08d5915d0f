// Carbon atoms at points, and bonds by how they are drawn.
ghost use Rattle.std.specs.Prelude.{◌≡◌, All, IfOk, IsTrue, length};
ghost use Rattle.cip_mol.specs.Ranges.{IsAtom, IsBond, IsPlace};

use crate::rows::lists::{Line, Point};
use cip_mol::{Atom, Bond, Mark};
use cip_num::Vec3;
use std::alloc::{AllocError, Global};

fn is_place(point: Vec3) -> bool
    ensures { IsTrue result → IsPlace point }
{
    point.x.unsigned_abs() <= 500_000_000
        && point.y.unsigned_abs() <= 500_000_000
        && point.z.unsigned_abs() <= 500_000_000
}

/// A carbon atom, at the origin where the point is out of range.
pub fn carbon(point: Point) -> Atom
    ensures { IsAtom result }
{
    let (x, y, z) = point;
    let at = Vec3 { x, y, z };
    Atom {
        z: 6,
        isotope: 0,
        charge: 0,
        radical: 0,
        valence_mark: 0,
        at: if is_place(at) {
            at
        } else {
            Vec3 { x: 0, y: 0, z: 0 }
        },
    }
}

fn bond(line: Line) -> Bond
    ensures { IsBond result }
{
    let (a, b, drawn) = line;
    let (order, mark) = match drawn {
        b'^' => (1, Mark::Up),
        b'v' => (1, Mark::Down),
        b'~' => (1, Mark::Either),
        b'=' => (2, Mark::Plain),
        b'x' => (2, Mark::Either),
        _ => (1, Mark::Plain),
    };
    Bond { a, b, order, mark }
}

/// The bonds of lines.
pub fn bonds(alloc: Global, lines: &[Line]) -> Result<Vec<Bond>, AllocError>
    ensures count { IfOk result (λ bonds. length bonds.items ≡ length lines.now) }
    ensures each { IfOk result (λ bonds. All IsBond bonds.items) }
{
    lines.iter().map(|line| bond(*line)).collect(alloc)
}
