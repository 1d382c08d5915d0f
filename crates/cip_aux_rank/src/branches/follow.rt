// The branches of a node's ligands, followed by Rule 1a as long as two of them tie.
ghost use Rattle.std.specs.Prelude.{◌≡◌, ◌<◌, ◌≤◌, All, true, false, length};
ghost use Rattle.std.specs.List.{list_any};
ghost use Rattle.cip_aux.specs.Views.{IsReal, sight_of};
ghost use Rattle.cip_digraph.specs.digraph.NodeList.{parents_of};
ghost use Rattle.cip_digraph.specs.Asking.{AreWithin};
ghost use Rattle.cip_aux_rank.specs.Keys.{IsFlagged};
ghost use Rattle.cip_aux_rank.specs.LigandBranches.{AreTops, AreFollowedFrom};

use cip_aux::WholeDigraph;
use cip_branches::{Branches, ViewedTree};
use cip_digraph::{BranchPair, Nodes};
use cip_mol::Rule;
use cip_rules::{ByAtom, record_decisions};

// Whether some branches tie and go on.
fn goes_on(branches: &Branches) -> bool
    ensures more { result ≡ true → branches.now.first < length branches.now.layers.place_tree.place_parents }
    ensures ended { result ≡ false → list_any (λ flag. flag) branches.now.unresolved ≡ true
        → length branches.now.layers.place_tree.place_parents ≤ branches.now.first }
{
    branches.any_unresolved() && branches.first() < branches.len()
}

/// Follows the branches below some neighbours of a node, as it is seen by these flags of the way there, and notes at
/// each depth what Rule 1a decides between pairs of them.
pub fn follow_to_end<N: Nodes>(
    branches: &mut Branches,
    whole: &WholeDigraph<'_, N>,
    way: &[bool],
    node: u32,
    tops: &[u32],
    requested: &mut [BranchPair],
)
    requires room { length whole.now.node_data ≤ branches.old.layers.place_tree.room }
    requires real { IsReal (sight_of whole.now).nodes node }
    requires way { IsFlagged (parents_of whole.now.node_data) node way.now }
    requires tops { AreTops (parents_of whole.now.node_data) node tops.now }
    requires within { All (AreWithin (length tops.now)) requested.old }
    ensures followed { AreFollowedFrom (sight_of whole.now) node tops.now branches.new requested.old requested.new }
    ensures room { branches.new.layers.place_tree.room ≡ branches.old.layers.place_tree.room }
{
    let nodes = whole.nodes();
    let table = nodes.table();
    let keys = ByAtom { nodes };
    let around = ViewedTree { table, way };
    let _count = table.len();
    branches.begin(tops, &keys);
    record_decisions(branches, Rule::R1a, 0, requested);
    while goes_on(branches) {
        branches.follow(&around, &keys);
        let depth = branches.last();
        record_decisions(branches, Rule::R1a, depth, requested);
    }
}
