// Where atoms are drawn, and the steps between them.
ghost use Rattle.std.specs.Prelude.{◌≡◌, ◌≤◌, ◌<◌, ◌-ℤ◌, All, length, map, unsigned_abs};
ghost use Rattle.cip_num.specs.Plane.{IsSmall};
ghost use Rattle.cip_num.specs.Space.{IsSmall3};
ghost use Rattle.cip_mol.specs.Points.{flat_step, flat_steps, point, step, steps};
ghost use Rattle.cip_mol.specs.Ranges.{IsPlace};

use cip_mol::{AtMostFour, Molecule};
use cip_num::{Vec2, Vec3};

/// Where an atom is drawn.
pub(crate) fn point(molecule: &Molecule, atom: u32) -> Vec3
    requires { atom < length molecule.now.atoms }
    ensures value { result ≡ point molecule.now.atoms atom }
    ensures place { IsPlace result }
{
    molecule.atoms()[atom as usize].at
}

/// Where atoms are drawn.
pub(crate) fn points(molecule: &Molecule, numbers: &AtMostFour<u32>) -> AtMostFour<Vec3>
    requires { All (λ number. number < length molecule.now.atoms) numbers.now }
    ensures value { result ≡ map (point molecule.now.atoms) numbers.now }
    ensures places { All IsPlace result }
{
    let mut points = AtMostFour::new();
    for number in numbers.as_slice() {
        points.push(point(molecule, *number));
    }
    points
}

/// The step from one point to another.
pub(crate) fn step(from: Vec3, to: Vec3) -> Vec3
    requires from { IsPlace from }
    requires to { IsPlace to }
    ensures value { result ≡ step from to }
    ensures small { IsSmall3 result }
{
    Vec3 {
        x: difference(to.x, from.x),
        y: difference(to.y, from.y),
        z: difference(to.z, from.z),
    }
}

/// The step from one atom to another.
pub(crate) fn step_between(molecule: &Molecule, from: u32, to: u32) -> Vec3
    requires from { from < length molecule.now.atoms }
    requires to { to < length molecule.now.atoms }
    ensures value { result ≡ step (point molecule.now.atoms from) (point molecule.now.atoms to) }
    ensures small { IsSmall3 result }
{
    step(point(molecule, from), point(molecule, to))
}

/// The steps from an atom to others.
pub(crate) fn steps(molecule: &Molecule, from: u32, numbers: &AtMostFour<u32>) -> AtMostFour<Vec3>
    requires from { from < length molecule.now.atoms }
    requires within { All (λ number. number < length molecule.now.atoms) numbers.now }
    ensures value { result ≡ steps molecule.now.atoms from numbers.now }
    ensures small { All IsSmall3 result }
{
    let mut steps = AtMostFour::new();
    for number in numbers.as_slice() {
        steps.push(step_between(molecule, from, *number));
    }
    steps
}

/// The steps from an atom to others in the plane.
pub(crate) fn flat_steps(
    molecule: &Molecule,
    from: u32,
    numbers: &AtMostFour<u32>,
) -> AtMostFour<Vec2>
    requires from { from < length molecule.now.atoms }
    requires within { All (λ number. number < length molecule.now.atoms) numbers.now }
    ensures value { result ≡ flat_steps molecule.now.atoms from numbers.now }
    ensures small { All IsSmall result }
{
    let mut steps = AtMostFour::new();
    for number in numbers.as_slice() {
        steps.push(flat_step_between(molecule, from, *number));
    }
    steps
}

fn flat_step_between(molecule: &Molecule, from: u32, to: u32) -> Vec2
    requires from { from < length molecule.now.atoms }
    requires to { to < length molecule.now.atoms }
    ensures value { result ≡ flat_step (point molecule.now.atoms from) (point molecule.now.atoms to) }
    ensures small { IsSmall result }
{
    let (from, to) = (point(molecule, from), point(molecule, to));
    Vec2 {
        x: difference(to.x, from.x),
        y: difference(to.y, from.y),
    }
}

fn difference(a: i64, b: i64) -> i64
    requires a { unsigned_abs a ≤ 500000000 }
    requires b { unsigned_abs b ≤ 500000000 }
    ensures value { result ≡ a -ℤ b }
    ensures small { unsigned_abs result ≤ 1000000000 }
{
    a - b
}
