// What the numbers of branches decide between pairs of them.
ghost use Rattle.std.specs.Prelude.{◌≡◌, ◌<◌, ◌+◌, ◌^◌, map};
ghost use Rattle.cip_digraph.specs.Asking.{found_between, with_found};

use cip_branches::Branches;
use cip_digraph::{BranchPair, Decision};
use cip_mol::Rule;
use std::cmp::Ordering;

// With what the numbers of a depth decide, where nothing was decided.
fn noted(branches: &Branches, rule: Rule, depth: u32, pairs: BranchPair) -> BranchPair
    requires few { depth + 1 < 2 ^ 32 }
    ensures { result ≡ with_found (found_between branches.now.layers.ranked.numbers rule depth) pairs }
{
    if pairs.decision.is_some() {
        pairs
    } else {
        match branches.order(pairs.first, pairs.second) {
            Ordering::Equal => pairs,
            side => BranchPair {
                decision: Some(Decision {
                    side,
                    rule,
                    sphere: depth + 1,
                }),
                ..pairs
            },
        }
    }
}

/// Notes what the numbers of a depth decide between pairs of branches.
pub fn record_decisions(branches: &Branches, rule: Rule, depth: u32, pairs: &mut [BranchPair])
    requires few { depth + 1 < 2 ^ 32 }
    ensures { pairs.new ≡ map (with_found (found_between branches.now.layers.ranked.numbers rule depth)) pairs.old }
{
    for one in pairs.iter_mut() {
        *one = noted(branches, rule, depth, *one);
    }
}
