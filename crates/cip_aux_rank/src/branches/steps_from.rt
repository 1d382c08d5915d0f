// How many steps the nodes of a digraph are away from one of them.
ghost use Rattle.std.specs.Prelude.{◌≡◌, ◌<◌, ◌≤◌, ◌+◌, ◌^◌, length};
ghost use Rattle.cip_aux.specs.Views.{IsReal, path_at, sight_of};
ghost use Rattle.cip_digraph.specs.digraph.NodeList.{parents_of};
ghost use Rattle.cip_digraph.specs.digraph.View.{apart};
ghost use Rattle.cip_aux_rank.specs.Keys.{IsFlagged, KnowSteps};

use crate::keys::distance_keys::is_off_path;
use cip_aux::WholeDigraph;
use cip_digraph::Nodes;
use cip_partition::ReservedVec;
use cip_rank::path_flags::parent_of;

/// A node that is looked from, and flags of the nodes on the way to it from the root.
#[derive(Clone, Copy)]
pub struct Viewpoint<'a> {
    pub node: u32,
    pub way: &'a [bool],
}

// How many steps the next node is away: one more than its parent, unless it is on the way.
fn next_steps<N: Nodes>(whole: &WholeDigraph<'_, N>, from: &Viewpoint<'_>, known: &[u32]) -> u32
    requires real { IsReal (sight_of whole.now).nodes from.now.node }
    requires way { IsFlagged (parents_of whole.now.node_data) from.now.node from.now.way.now }
    requires known { KnowSteps (sight_of whole.now) from.now.node (length known.now) known.now }
    requires within { length known.now < length whole.now.node_data }
    requires few { length whole.now.node_data < 2 ^ 31 }
    ensures steps { IsReal (sight_of whole.now).nodes (length known.now) → result
        ≡ apart (path_at (sight_of whole.now).nodes from.now.node)
        (path_at (sight_of whole.now).nodes (length known.now)) }
    ensures few { result ≤ length whole.now.node_data + length known.now }
{
    let nodes = whole.nodes();
    let table = nodes.table();
    let _count = table.len();
    let node = known.len() as u32;
    if is_off_path(from.way, node) {
        known[parent_of(table, node) as usize] + 1
    } else {
        table.sphere(from.node).saturating_sub(table.sphere(node))
    }
}

/// Counts the steps of all nodes, the first ones first, where branches have a quarter of n places. Else none are
/// known: few are asked about then, and may be climbed for.
pub fn count_distances<N: Nodes>(
    whole: &WholeDigraph<'_, N>,
    from: &Viewpoint<'_>,
    places: u32,
    steps: &mut ReservedVec<u32>,
)
    requires real { IsReal (sight_of whole.now).nodes from.now.node }
    requires way { IsFlagged (parents_of whole.now.node_data) from.now.node from.now.way.now }
    requires few { length whole.now.node_data < 2 ^ 31 }
    requires room { length whole.now.node_data ≤ steps.old.room }
    ensures known { KnowSteps (sight_of whole.now) from.now.node (length steps.new.items) steps.new.items }
    ensures room { steps.new.room ≡ steps.old.room }
{
    steps.clear();
    let nodes = whole.nodes();
    let count = nodes.table().len();
    let unresolved = if places < count / 4 { 0 } else { count };
    for _ in 0..unresolved {
        let next = next_steps(whole, from, steps.as_slice());
        steps.push(next);
    }
}
