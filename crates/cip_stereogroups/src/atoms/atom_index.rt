// The atoms of a molfile by their indices.
ghost use Rattle.std.specs.Prelude.{◌≡◌, ◌<◌, ◌^◌, ℕ, IfOk, IfSome, OnOk, length, nat_eq, position};
ghost use Rattle.std.specs.HashMap.{get};
ghost use Rattle.cip_v3000.specs.BondLine.{place_named, place_of};
ghost use Rattle.cip_stereogroups.specs.Places.{AreAtoms, or_here};

use cip_ctfile::parse_number;
use std::alloc::{AllocError, Global};
use std::collections::HashMap;
use std::marker::Model;

/// The greatest index.
const GREATEST: u32 = 1_000_000_000;

/// Indices of atoms, each with its first place in a table. Contracts see their list.
#[derive(Drop)]
pub struct AtomIndex<'a> {
    indices: &'a [u32],
    places: HashMap<u32, u32>,
}

impl<'a> Model for AtomIndex<'a> {
    ghost use Rattle.std.specs.Prelude.{List, ℕ};
    ghost use Rattle.cip_stereogroups.specs.Places.{AreAtoms};

    ghost Value = { List ℕ };

    ghost view = { λ atoms. atoms.indices.now };

    ghost invariant = { λ atoms. AreAtoms atoms.places atoms.indices.now };
}

impl<'a> AtomIndex<'a> {
    /// The atoms of these indices, in their order.
    pub fn of(alloc: Global, indices: &'a [u32]) -> Result<AtomIndex<'a>, AllocError>
        requires few { length indices.now < 2 ^ 32 }
        ensures { IfOk result (λ atoms. atoms ≡ indices.now) }
    {
        match places_of(alloc, indices) {
            Ok(places) => Ok(AtomIndex { indices, places }),
            Err(error) => Err(error),
        }
    }

    /// The atom, from 0, that a word names by its index.
    #[tactic(auto, unfolding(cip_v3000::specs::BondLine::place_named))]
    pub fn atom_named(&self, word: &[u8]) -> Option<u32>
        ensures { result ≡ place_named self.now word.now }
    {
        self.atom(parse_number(GREATEST, word))
    }

    // The atom, from 0, of an index.
    fn atom(&self, index: Option<u32>) -> Option<u32>
        ensures { result ≡ place_of self.now index }
    {
        match index {
            Some(index) => self.places.get(&index).copied(),
            None => None,
        }
    }
}

fn places_of(alloc: Global, indices: &[u32]) -> Result<HashMap<u32, u32>, AllocError>
    requires few { length indices.now < 2 ^ 32 }
    ensures { IfOk result (λ places. AreAtoms places indices.now) }
{
    let mut places = HashMap::new(alloc);
    for (place, index) in indices.iter().enumerate() {
        let Ok(()) = note_index(&mut places, *index, place as u32) else {
            return Err(AllocError);
        };
    }
    Ok(places)
}

// The first place of an index is kept.
fn note_index(places: &mut HashMap<u32, u32>, index: u32, place: u32) -> Result<(), AllocError>
    ensures { OnOk result ((other : ℕ) → get nat_eq places.new other
        ≡ or_here (get nat_eq places.old other) (nat_eq other index) place) }
{
    if places.contains_key(&index) {
        Ok(())
    } else {
        match places.insert(index, place) {
            Ok(_) => Ok(()),
            Err(_) => Err(AllocError),
        }
    }
}
