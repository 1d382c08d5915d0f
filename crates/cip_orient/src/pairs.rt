// Pairs of drawn ligands, one of each end of a bond or axis.
ghost use Rattle.std.specs.Prelude.{◌≡◌, ◌<◌, All, length};
ghost use Rattle.std.specs.List.{list_any};
ghost use Rattle.cip_num.specs.Signs.{is_zero};
ghost use Rattle.cip_num.specs.Space.{IsSmall3};
ghost use Rattle.cip_mol.specs.Pairs.{are_two_alike, by_pairs, has_flat_pair, keeps_sign};
ghost use Rattle.cip_mol.specs.Senses.{shown_by};
ghost use Rattle.cip_orient.specs.DrawnEnds.{IsDrawn};
ghost use Rattle.cip_orient.specs.PairSigns.{by_drawn_pairs, pair_sign};

use crate::coordinates::{step_between, steps};
use crate::drawn_ligands::DrawnEnd;
use cip_mol::{Cause, Geometry, Molecule, Sense};
use cip_num::{Sign, Vec3, same_side, volume};

/// The sign that is asked of a pair: at a bond on which sides its ligands lie, at an axis how they are twisted.
#[derive(Clone, Copy)]
pub(crate) enum PairSign {
    Sides,
    Twist,
}

/// What the pairs of drawn ligands show.
pub(crate) fn show_drawn_pairs(
    molecule: &Molecule,
    sign: PairSign,
    nearer: &DrawnEnd,
    far: &DrawnEnd,
) -> Geometry
    requires nearer { IsDrawn (length molecule.now.atoms) nearer.now }
    requires far { IsDrawn (length molecule.now.atoms) far.now }
    ensures { result ≡ by_drawn_pairs sign molecule.now.atoms nearer.now far.now }
{
    let between = step_between(molecule, nearer.at, far.at);
    let firsts = steps(molecule, nearer.at, &nearer.ligands);
    let seconds = steps(molecule, far.at, &far.ligands);
    show_pairs(sign, between, firsts.as_slice(), seconds.as_slice())
}

// What the pairs show, by the step between the two ends.
fn show_pairs(sign: PairSign, between: Vec3, firsts: &[Vec3], seconds: &[Vec3]) -> Geometry
    requires between { IsSmall3 between }
    requires firsts { All IsSmall3 firsts.now }
    requires seconds { All IsSmall3 seconds.now }
    requires first { 0 < length firsts.now }
    requires second { 0 < length seconds.now }
    ensures { result ≡ by_pairs (pair_sign sign between) firsts.now seconds.now }
{
    if has_flat_pair(sign, between, firsts, seconds) {
        Geometry::Unknown(Cause::Coincident)
    } else if keeps_sign(sign, between, firsts, seconds) {
        Geometry::Unknown(Cause::Contradictory)
    } else {
        shown_by(pair_sign(sign, between, firsts[0], seconds[0]))
    }
}

/// What a sign shows: that of nought that points coincide.
pub(crate) fn shown_by(sign: Sign) -> Geometry
    ensures { result ≡ shown_by sign }
{
    match sign {
        Sign::Plus => Geometry::Known(Sense::Plus),
        Sign::Minus => Geometry::Known(Sense::Minus),
        Sign::Zero => Geometry::Unknown(Cause::Coincident),
    }
}

fn pair_sign(sign: PairSign, between: Vec3, first: Vec3, second: Vec3) -> Sign
    requires between { IsSmall3 between }
    requires first { IsSmall3 first }
    requires second { IsSmall3 second }
    ensures { result ≡ pair_sign sign between first second }
{
    match sign {
        PairSign::Sides => same_side(between, first, second),
        PairSign::Twist => volume(between, first, second),
    }
}

fn has_flat_pair(sign: PairSign, between: Vec3, firsts: &[Vec3], seconds: &[Vec3]) -> bool
    requires between { IsSmall3 between }
    requires firsts { All IsSmall3 firsts.now }
    requires seconds { All IsSmall3 seconds.now }
    ensures { result ≡ has_flat_pair (pair_sign sign between) firsts.now seconds.now }
{
    for first in firsts {
        if is_flat_with_any(sign, between, *first, seconds) {
            return true;
        }
    }
    false
}

fn is_flat_with_any(sign: PairSign, between: Vec3, first: Vec3, seconds: &[Vec3]) -> bool
    requires between { IsSmall3 between }
    requires first { IsSmall3 first }
    requires seconds { All IsSmall3 seconds.now }
    ensures { result ≡ list_any (λ second. is_zero (pair_sign sign between first second)) seconds.now }
{
    for second in seconds {
        if matches!(pair_sign(sign, between, first, *second), Sign::Zero) {
            return true;
        }
    }
    false
}

fn keeps_sign(sign: PairSign, between: Vec3, firsts: &[Vec3], seconds: &[Vec3]) -> bool
    requires between { IsSmall3 between }
    requires firsts { All IsSmall3 firsts.now }
    requires seconds { All IsSmall3 seconds.now }
    ensures { result ≡ keeps_sign (pair_sign sign between) firsts.now seconds.now }
{
    keeps_for_a_first(sign, between, firsts, seconds)
        || keeps_for_a_second(sign, between, firsts, seconds)
}

fn keeps_for_a_first(sign: PairSign, between: Vec3, firsts: &[Vec3], seconds: &[Vec3]) -> bool
    requires between { IsSmall3 between }
    requires firsts { All IsSmall3 firsts.now }
    requires seconds { All IsSmall3 seconds.now }
    ensures { result ≡ list_any (λ first. are_two_alike (λ second. pair_sign sign between first second) seconds.now)
        firsts.now }
{
    for first in firsts {
        if has_two_seconds_alike(sign, between, *first, seconds) {
            return true;
        }
    }
    false
}

fn keeps_for_a_second(sign: PairSign, between: Vec3, firsts: &[Vec3], seconds: &[Vec3]) -> bool
    requires between { IsSmall3 between }
    requires firsts { All IsSmall3 firsts.now }
    requires seconds { All IsSmall3 seconds.now }
    ensures { result ≡ list_any (λ second. are_two_alike (λ first. pair_sign sign between first second) firsts.now)
        seconds.now }
{
    for second in seconds {
        if has_two_firsts_alike(sign, between, firsts, *second) {
            return true;
        }
    }
    false
}

fn has_two_seconds_alike(sign: PairSign, between: Vec3, first: Vec3, seconds: &[Vec3]) -> bool
    requires between { IsSmall3 between }
    requires first { IsSmall3 first }
    requires seconds { All IsSmall3 seconds.now }
    ensures { result ≡ are_two_alike (λ second. pair_sign sign between first second) seconds.now }
{
    seconds.len() == 2
        && pair_sign(sign, between, first, seconds[0])
            == pair_sign(sign, between, first, seconds[1])
}

fn has_two_firsts_alike(sign: PairSign, between: Vec3, firsts: &[Vec3], second: Vec3) -> bool
    requires between { IsSmall3 between }
    requires firsts { All IsSmall3 firsts.now }
    requires second { IsSmall3 second }
    ensures { result ≡ are_two_alike (λ first. pair_sign sign between first second) firsts.now }
{
    firsts.len() == 2
        && pair_sign(sign, between, firsts[0], second)
            == pair_sign(sign, between, firsts[1], second)
}
