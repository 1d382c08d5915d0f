// Indices of atoms or bonds, in order of appearance.
ghost use Rattle.std.specs.Prelude.{◌≡◌, false, nat_eq, IfOk};
ghost use Rattle.std.specs.List.{list_any};
ghost use Rattle.cip_v3000.specs.AtomLine.{unless_known};
ghost use Rattle.cip_v3000.specs.Counted.{is_counted};

use cip_mol::ReadCause;
use indexmap::IndexSet;
use std::alloc::{AllocError, Global};
use std::marker::Model;

/// The greatest index.
pub const GREATEST: u32 = 1_000_000_000;

/// Indices in order of appearance, none of them twice. Contracts see their list. Most records number their atoms 1, 2, 3
/// and so on: such a beginning is counted, and the set holds the indices after it. No public item of this crate names
/// this type, so that crates above load no code of the set.
#[derive(Drop)]
pub struct AtomIndices {
    list: Vec<u32>,
    counted: u32,
    others: IndexSet<u32>,
}

impl Model for AtomIndices {
    ghost use Rattle.std.specs.Prelude.{◌≡◌, List, ℕ};
    ghost use Rattle.cip_v3000.specs.Counted.{with_counted};

    ghost Value = { List ℕ };

    ghost view = { λ indices. indices.list.items };

    ghost invariant = { λ indices. indices.list.items ≡ with_counted indices.counted indices.others.keys };
}

impl AtomIndices {
    ghost use Rattle.std.specs.Prelude.{◌≡◌, ◌<◌, ◌++◌, ◌∷◌, [], false, length, nat_eq, position, IfSome, OnOk};
    ghost use Rattle.std.specs.List.{list_any};

    /// No index.
    pub fn new(alloc: Global) -> AtomIndices
        ensures { result ≡ [] }
    {
        AtomIndices {
            list: Vec::new(alloc),
            counted: 0,
            others: IndexSet::new(alloc),
        }
    }

    /// The number of indices.
    pub fn len(&self) -> usize
        ensures { result ≡ length self.now }
    {
        self.list.len()
    }

    /// All indices as a list. The set is dropped here.
    pub fn into_list(self) -> Vec<u32>
        ensures { result.items ≡ self }
    {
        self.list
    }

    /// Adds an index that isn't there yet at the end.
    #[tactic(auto, using(crate::proofs::lemmas::Counted::counted_more, crate::proofs::lemmas::Counted::none_behind))]
    pub fn push(&mut self, index: u32) -> Result<(), AllocError>
        requires { list_any (nat_eq index) self.old ≡ false }
        ensures { OnOk result (self.new ≡ self.old ++ index ∷ []) }
    {
        match self.list.push(index) {
            Ok(()) => {
                if self.others.is_empty() && index > 0 && index - 1 == self.counted {
                    self.counted = index;
                    Ok(())
                } else {
                    match self.others.insert(index) {
                        Ok(_) => Ok(()),
                        Err(_) => {
                            self.list.pop();
                            Err(AllocError)
                        }
                    }
                }
            }
            Err(_) => Err(AllocError),
        }
    }

    /// Whether an index is there.
    #[tactic(auto, using(crate::proofs::lemmas::Counted::any_with_counted, crate::proofs::lemmas::Counted::none_of_none))]
    pub fn contains(&self, index: u32) -> bool
        ensures { result ≡ list_any (nat_eq index) self.now }
    {
        is_counted(self.counted, index) || !self.others.is_empty() && self.others.contains(&index)
    }

    /// The place of an index, from 0.
    #[tactic(auto, using(crate::proofs::lemmas::Counted::place_counted, crate::proofs::lemmas::Counted::place_behind, crate::proofs::lemmas::Counted::length_with_counted))]
    pub fn place(&self, index: u32) -> Option<usize>
        ensures value { result ≡ position (nat_eq index) self.now }
        ensures within { IfSome result (λ place. place < length self.now) }
    {
        if is_counted(self.counted, index) {
            Some(index as usize - 1)
        } else {
            // Reading how many there are says that they are few.
            let _others = self.others.len();
            match self.others.get_index_of(&index) {
                Some(place) => Some(self.counted as usize + place),
                None => None,
            }
        }
    }
}

// Whether an index is one of n that are counted from 1.
fn is_counted(counted: u32, index: u32) -> bool
    ensures { result ≡ is_counted counted index }
{
    1 <= index && index <= counted
}

/// The index that was read, which is none of those known.
pub fn new_index(known: &AtomIndices, index: Option<u32>) -> Result<u32, ReadCause>
    ensures value { result ≡ unless_known known.now index }
    ensures fresh { IfOk result (λ index. list_any (nat_eq index) known.now ≡ false) }
{
    match index {
        Some(index) if index > 0 && !known.contains(index) => Ok(index),
        _ => Err(ReadCause::Index),
    }
}
