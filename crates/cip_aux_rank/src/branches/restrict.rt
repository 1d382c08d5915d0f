// Pairs that constitution leaves open, asked about once more by their branches alone: the others are dropped with all
// their places.
ghost use Rattle.std.specs.Prelude.{◌≡◌, IfOk, map, slice_index};
ghost use Rattle.cip_aux_rank.specs.Narrowing.{is_open_top, is_top_of, moved, unresolved_tops};

use crate::branches::ligand_branches::LigandBranches;
use crate::pairs::pair_of;
use cip_digraph::BranchPair;
use std::alloc::{AllocError, Global};

// The node at the top of a branch.
fn top_at(tops: &[u32], branch: u32) -> u32
    ensures { result ≡ slice_index tops.now branch }
{
    match tops.get(branch as usize) {
        Some(top) => *top,
        None => 0,
    }
}

// Whether a pair is undecided and one of its branches has this top.
fn is_top_of(tops: &[u32], top: u32, pair: &BranchPair) -> bool
    ensures { result ≡ is_top_of tops.now top pair.now }
{
    pair.decision.is_none() && (top_at(tops, pair.first) == top || top_at(tops, pair.second) == top)
}

// Whether a top is in an undecided pair.
fn is_open_top(tops: &[u32], pairs: &[BranchPair], top: u32) -> bool
    ensures { result ≡ is_open_top tops.now pairs.now top }
{
    for pair in pairs {
        if is_top_of(tops, top, pair) {
            return true;
        }
    }
    false
}

/// The tops of the branches in open pairs.
#[tactic(auto, using(crate::proofs::lemmas::Narrowed::more_open))]
pub fn unresolved_tops(
    alloc: Global,
    tops: &[u32],
    pairs: &[BranchPair],
) -> Result<Vec<Option<u32>>, AllocError>
    ensures { IfOk result (λ found. found.items ≡ unresolved_tops tops.now pairs.now) }
{
    let mut found = Vec::new(alloc);
    for top in tops {
        if is_open_top(tops, pairs, *top) {
            let Ok(()) = found.push(Some(*top)) else {
                return Err(AllocError);
            };
        }
    }
    Ok(found)
}

// A pair by the branches of a restricted ranking; a decided pair needs none.
fn moved(ligand_branches: &LigandBranches, tops: &[u32], pair: BranchPair) -> BranchPair
    ensures { result ≡ moved tops.now ligand_branches.now.tops pair }
{
    match pair.decision {
        Some(_) => BranchPair {
            first: 0,
            second: 0,
            decision: pair.decision,
        },
        None => pair_of(
            ligand_branches,
            Some(top_at(tops, pair.first)),
            Some(top_at(tops, pair.second)),
        ),
    }
}

/// Asks about the same pairs by other branches. Of those that are decided the branches don't matter.
pub fn renumber_pairs(ligand_branches: &LigandBranches, tops: &[u32], pairs: &mut [BranchPair])
    ensures { pairs.new ≡ map (moved tops.now ligand_branches.now.tops) pairs.old }
{
    for pair in pairs.iter_mut() {
        *pair = moved(ligand_branches, tops, *pair);
    }
}
