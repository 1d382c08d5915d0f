// How what is decided between pairs of ligands turns a sense.
ghost use Rattle.std.specs.Prelude.{◌≡◌, count_by, map};
ghost use Rattle.cip_digraph.specs.units.Descriptors.{is_odd};
ghost use Rattle.cip_digraph.specs.Sides.{is_below};
ghost use Rattle.cip_aux.specs.Turning.{found_by, side_at};

use crate::ligand_ranker::FoundParity;
use cip_digraph::{BranchPair, Parity, all_decided, is_odd};
use std::cmp::Ordering;

// The later one of two ligands precedes.
fn is_below(pair: &BranchPair) -> bool
    ensures { result ≡ is_below (side_at pair.now) }
{
    match pair.decision {
        Some(found) => found.side == Ordering::Less,
        None => false,
    }
}

// Whether an odd number of pairs stands against its order in the list.
fn is_turned(pairs: &[BranchPair]) -> bool
    ensures { result ≡ is_odd (count_by is_below (map side_at pairs.now)) }
{
    let mut count = 0;
    for pair in pairs {
        if is_below(pair) {
            count += 1;
        }
    }
    is_odd(count)
}

impl FoundParity {
    /// Those by what is decided between each two ligands, with R and with S first in the last rule; none where two
    /// ligands tie.
    #[tactic(auto, using(crate::proofs::lemmas::TurnedPairs::open_turns, crate::proofs::lemmas::TurnedPairs::decided_turns))]
    pub fn of(pairs: &[BranchPair], turned: &[BranchPair], by_constitution: bool) -> FoundParity
        ensures { result ≡ found_by by_constitution pairs.now turned.now }
    {
        if all_decided(pairs) {
            FoundParity {
                parities: Some(Parity {
                    natural: is_turned(pairs),
                    turned: is_turned(turned),
                }),
                by_constitution,
            }
        } else {
            FoundParity {
                parities: None,
                by_constitution,
            }
        }
    }
}
