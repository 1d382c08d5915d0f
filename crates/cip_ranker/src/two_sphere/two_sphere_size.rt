// How many nodes the first two spheres of a root have, before any is made.
ghost use Rattle.std.specs.Prelude.{◌≡◌, ◌≤◌, ◌^◌, [], flat_map, length, nat_le};
ghost use Rattle.cip_digraph.specs.digraph.Digraph.{children, digraph, edge_children, real_children};
ghost use Rattle.cip_ranker.specs.Counting.{way_up};

use crate::root::Root;
use cip_arena::duplicate_count;
use cip_digraph::Edge;

// How many nodes an edge gives below the node of a vertex that came along another one, or is the root.
fn count_edge(root: &Root<'_>, vertex: u32, above: Option<u32>, edge: &Edge) -> u64
    ensures count { result ≡ length (edge_children root.now.positions.now vertex (way_up above) edge.now) }
    ensures small { result ≤ 256 }
{
    let real = match above {
        Some(above) => above != edge.other_end(vertex),
        None => true,
    };
    real as u64 + duplicate_count(edge) as u64
}

// How many child nodes a vertex has in the digraph, where `above` is the vertex of its parent.
#[tactic(auto, using(crate::proofs::lemmas::Counted::below_counted))]
fn count_below(root: &Root<'_>, vertex: u32, above: Option<u32>) -> u64
    ensures count { result ≡ length (real_children root.now.graph.now root.now.positions.now vertex (way_up above)) }
    ensures small { result ≤ 2 ^ 40 }
{
    let mut count = 0u64;
    for edge in root.graph.edges_at(vertex) {
        count += count_edge(root, vertex, above, edge);
    }
    count
}

// How many nodes are in the second sphere below those that an edge gives in the first one.
#[tactic(auto, using(crate::proofs::lemmas::Counted::beyond_counted))]
fn count_beyond(root: &Root<'_>, edge: &Edge) -> u64
    ensures count { result ≡ length (flat_map (children root.now.graph.now root.now.positions.now)
        (edge_children root.now.positions.now root.now.at [] edge.now)) }
    ensures small { result ≤ 2 ^ 40 }
{
    let other = edge.other_end(root.at);
    if root.at == other {
        0
    } else {
        count_below(root, other, Some(root.at))
    }
}

/// Whether the digraph of a root has at most n nodes up to its second sphere.
pub fn fits_bound(root: &Root<'_>, bound: u32) -> bool
    ensures { result ≡ nat_le (length (digraph root.now.graph.now root.now.positions.now root.now.at 2)) bound }
{
    let mut count = 1 + count_below(root, root.at, None);
    for edge in root.graph.edges_at(root.at) {
        if count > bound as u64 {
            return false;
        }
        count += count_beyond(root, edge);
    }
    count <= bound as u64
}
