// The turns of ligands that are in rank order.
ghost use Rattle.std.specs.Prelude.{◌≡◌, ◌≤◌, count_by, length, nat_lt};
ghost use Rattle.cip_mol.specs.FlatCentres.{inversions};
ghost use Rattle.cip_digraph.specs.units.Descriptors.{is_odd};
ghost use Rattle.cip_digraph.specs.TurnsOf.{places_turns};

use crate::decisions::parity::{Parity, is_odd};
use cip_mol::Places;

/// How many pairs four ligands have. Those of more take memory.
pub const MOST_PAIRS: usize = 6;

/// How the places of an end's ligands in rank order turn the sense, with R and with S first in the last rule.
pub fn parity_of(places: &Places, turned: &Places) -> Parity
    ensures { result ≡ places_turns places.now turned.now }
{
    Parity {
        natural: is_odd(inversions(places.as_slice())),
        turned: is_odd(inversions(turned.as_slice())),
    }
}

// How many pairs of places are in descending order.
fn inversions(places: &[u32]) -> usize
    requires { length places.now ≤ 4 }
    ensures { result ≡ inversions places.now }
{
    let mut count = 0;
    for (at, place) in places.iter().enumerate() {
        count += lower_places(*place, &places[at + 1..]);
    }
    count
}

// How many places are lower than this one.
fn lower_places(place: u32, places: &[u32]) -> usize
    ensures value { result ≡ count_by (λ other. nat_lt other place) places.now }
    ensures few { result ≤ length places.now }
{
    let mut count = 0;
    for other in places {
        if *other < place {
            count += 1;
        }
    }
    count
}
