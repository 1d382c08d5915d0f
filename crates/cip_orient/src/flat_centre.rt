// Centres drawn in the plane.
ghost use Rattle.std.specs.Prelude.{◌≡◌, ◌≤◌, ◌<◌, All, count_by, length, nat_lt};
ghost use Rattle.cip_num.specs.Around.{places};
ghost use Rattle.cip_num.specs.Plane.{IsSmall};
ghost use Rattle.cip_mol.specs.FlatCentres.{by_votes, common, has_minus, has_plus, in_plane, inversions, is_left, is_marked_inside, is_reentrant, lies_between, turned, turned_by_place, votes};
ghost use Rattle.cip_mol.specs.Senses.{sense_of};

use crate::marks::{has_mark, opposite};
use cip_mol::{AtMostFour, Cause, Geometry, Sense};
use cip_num::{Sign, Vec2, has_coincident, place_of, side};

/// What three or four ligands show, by their directions and marks.
pub(crate) fn show_in_plane(directions: &[Vec2], marks: &[Sign]) -> Geometry
    requires small { All IsSmall directions.now }
    requires few { length directions.now ≤ 4 }
    requires some { 0 < length directions.now }
    requires marks { length marks.now ≡ length directions.now }
    ensures { result ≡ in_plane directions.now marks.now }
{
    if has_coincident(directions) {
        Geometry::Unknown(Cause::Coincident)
    } else if has_mark(marks) {
        let places = places(directions);
        show_by_places(is_reentrant(directions, marks), places.as_slice(), marks)
    } else {
        // Most centres have no mark: the order of their directions isn't looked for.
        Geometry::Unknown(Cause::NoMark)
    }
}

// By the places of the directions in that order.
fn show_by_places(reentrant: bool, places: &[usize], marks: &[Sign]) -> Geometry
    requires few { length places.now ≤ 4 }
    requires marks { length marks.now ≡ length places.now }
    ensures { result ≡ by_votes reentrant places.now (votes places.now marks.now) }
{
    if places.len() == 4 {
        let votes = turned_by_place(places, marks);
        show_by_votes(reentrant, places, votes.as_slice())
    } else {
        show_by_votes(reentrant, places, marks)
    }
}

// The places of directions in their counterclockwise order.
fn places(directions: &[Vec2]) -> AtMostFour<usize>
    requires some { 0 < length directions.now }
    requires few { length directions.now ≤ 4 }
    requires small { All IsSmall directions.now }
    ensures { result ≡ places directions.now }
{
    let mut places = AtMostFour::new();
    // The first is met first.
    places.push(0);
    for number in 1..directions.len() {
        places.push(place_of(directions, directions[number]));
    }
    places
}

// Each sign turned as often as its place says.
fn turned_by_place(places: &[usize], marks: &[Sign]) -> AtMostFour<Sign>
    requires few { length places.now ≤ 4 }
    requires marks { length marks.now ≡ length places.now }
    ensures { result ≡ turned_by_place places.now marks.now }
{
    let mut votes = AtMostFour::new();
    for (number, place) in places.iter().enumerate() {
        votes.push(turned(*place, marks[number]));
    }
    votes
}

fn turned(times: usize, sign: Sign) -> Sign
    ensures { result ≡ turned times sign }
{
    if times % 2 == 0 { sign } else { opposite(sign) }
}

fn show_by_votes(reentrant: bool, places: &[usize], votes: &[Sign]) -> Geometry
    requires { length places.now ≤ 4 }
    ensures { result ≡ by_votes reentrant places.now votes.now }
{
    if has_plus(votes) && has_minus(votes) {
        Geometry::Unknown(Cause::Contradictory)
    } else if reentrant {
        Geometry::Unknown(Cause::Reentrant)
    } else if has_plus(votes) || has_minus(votes) {
        Geometry::Known(sense_of(turned(inversions(places), common(votes))))
    } else {
        Geometry::Unknown(Cause::NoMark)
    }
}

fn has_plus(votes: &[Sign]) -> bool
    ensures { result ≡ has_plus votes.now }
{
    votes.contains(&Sign::Plus)
}

fn has_minus(votes: &[Sign]) -> bool
    ensures { result ≡ has_minus votes.now }
{
    votes.contains(&Sign::Minus)
}

fn common(votes: &[Sign]) -> Sign
    ensures { result ≡ common votes.now }
{
    if has_plus(votes) {
        Sign::Plus
    } else {
        Sign::Minus
    }
}

fn sense_of(sign: Sign) -> Sense
    ensures { result ≡ sense_of sign }
{
    match sign {
        Sign::Minus => Sense::Minus,
        _ => Sense::Plus,
    }
}

// How many pairs of places are in the other order.
fn inversions(places: &[usize]) -> usize
    requires { length places.now ≤ 4 }
    ensures { result ≡ inversions places.now }
{
    let mut count = 0;
    for (number, place) in places.iter().enumerate() {
        count += lower_places(*place, &places[number + 1..]);
    }
    count
}

// How many places are lower than this one.
fn lower_places(place: usize, places: &[usize]) -> usize
    ensures value { result ≡ count_by (λ other. nat_lt other place) places.now }
    ensures few { result ≤ length places.now }
{
    let mut count = 0;
    for other in places {
        if *other < place {
            count += 1;
        }
    }
    count
}

// Whether one of three ligands is marked and lies between the other two.
fn is_reentrant(directions: &[Vec2], marks: &[Sign]) -> bool
    requires marks { length marks.now ≡ length directions.now }
    requires small { All IsSmall directions.now }
    ensures { result ≡ is_reentrant directions.now marks.now }
{
    directions.len() == 3
        && (is_marked_inside(marks[0], directions[0], directions[1], directions[2])
            || is_marked_inside(marks[1], directions[1], directions[0], directions[2])
            || is_marked_inside(marks[2], directions[2], directions[0], directions[1]))
}

fn is_marked_inside(mark: Sign, inner: Vec2, one: Vec2, other: Vec2) -> bool
    requires inner { IsSmall inner }
    requires one { IsSmall one }
    requires other { IsSmall other }
    ensures { result ≡ is_marked_inside mark inner one other }
{
    mark != Sign::Zero && (lies_between(one, inner, other) || lies_between(other, inner, one))
}

fn lies_between(first: Vec2, inner: Vec2, last: Vec2) -> bool
    requires first { IsSmall first }
    requires inner { IsSmall inner }
    requires last { IsSmall last }
    ensures { result ≡ lies_between first inner last }
{
    is_left(first, inner) && is_left(inner, last) && is_left(first, last)
}

fn is_left(one: Vec2, other: Vec2) -> bool
    requires one { IsSmall one }
    requires other { IsSmall other }
    ensures { result ≡ is_left one other }
{
    matches!(side(one, other), Sign::Plus)
}
