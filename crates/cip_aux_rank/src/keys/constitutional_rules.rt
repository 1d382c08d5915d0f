// Constitution, by the branches of a node's ligands.
ghost use Rattle.std.specs.Prelude.{◌≡◌, ◌<◌, ◌≤◌, ◌^◌, All, length};
ghost use Rattle.std.specs.List.{list_all};
ghost use Rattle.cip_aux.specs.Views.{IsReal, sight_of};
ghost use Rattle.cip_digraph.specs.digraph.NodeList.{parents_of};
ghost use Rattle.cip_digraph.specs.Asking.{AreWithin, is_decided};
ghost use Rattle.cip_aux_rank.specs.Keys.{IsFlagged};
ghost use Rattle.cip_aux_rank.specs.LigandBranches.{AreTops, AreConstituted};

use crate::branches::follow::follow_to_end;
use crate::branches::steps_from::{Viewpoint, count_distances};
use crate::keys::distance_keys::Distances;
use cip_aux::WholeDigraph;
use cip_branches::Branches;
use cip_digraph::{BranchPair, Nodes, all_decided};
use cip_partition::ReservedVec;
use cip_rules::{ByMass, decide_constitution};

/// Follows the branches below some neighbours of a node by Rule 1a, as it is seen by these flags of the way there, and
/// takes Rules 1b and 2 as long as a pair of them is undecided; says whether all are decided. Where Rule 1b is taken
/// over many places the steps to all nodes are counted before.
pub fn decide_constitutional_rules<N: Nodes>(
    branches: &mut Branches,
    whole: &WholeDigraph<'_, N>,
    from: &Viewpoint<'_>,
    steps: &mut ReservedVec<u32>,
    tops: &[u32],
    requested: &mut [BranchPair],
) -> bool
    requires room { length whole.now.node_data ≤ branches.old.layers.place_tree.room }
    requires few { branches.old.layers.place_tree.room < 2 ^ 31 }
    requires steps_room { length whole.now.node_data ≤ steps.old.room }
    requires real { IsReal (sight_of whole.now).nodes from.now.node }
    requires way { IsFlagged (parents_of whole.now.node_data) from.now.node from.now.way.now }
    requires tops { AreTops (parents_of whole.now.node_data) from.now.node tops.now }
    requires within { All (AreWithin (length tops.now)) requested.old }
    ensures constituted { AreConstituted (sight_of whole.now) from.now.node tops.now branches.new requested.old requested.new }
    ensures all { result ≡ list_all is_decided requested.new }
    ensures room { branches.new.layers.place_tree.room ≡ branches.old.layers.place_tree.room }
    ensures steps_room { steps.new.room ≡ steps.old.room }
{
    follow_to_end(branches, whole, from.way, from.node, tops, requested);
    if all_decided(requested) {
        true
    } else {
        count_distances(whole, from, branches.len(), steps);
        let nodes = whole.nodes();
        let distances = Distances {
            whole,
            way: from.way,
            known: steps.as_slice(),
            from: from.node,
        };
        let masses = ByMass { nodes };
        decide_constitution(branches, &distances, &masses, requested)
    }
}
