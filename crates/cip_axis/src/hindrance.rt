// Neighbours that leave an axis no room to turn.
ghost use Rattle.std.specs.Prelude.{◌≡◌, ◌≤◌, length};
ghost use Rattle.cip_digraph.specs.graph.Graph.{edges_at};
ghost use Rattle.cip_axis.specs.Biaryls.{hindered_at, stands_beside};
ghost use Rattle.cip_axis.specs.Listing.{beside_along, is_hindered_outside};

use crate::count_three::one_if;
use cip_digraph::Graph;
use cip_mancude::share_alternating_ring;
use cip_unit::vertex_at;
use std::alloc::Global;

/// How many neighbours of an end outside the unit are hindered.
pub fn hindered_count(alloc: Global, graph: &Graph, unit: &[u32], end: u32) -> usize
    ensures value { result ≡ length (hindered_at graph.now unit.now end) }
    ensures few { result ≤ length (edges_at graph.now end) }
{
    let mut count = 0;
    for edge in graph.edges_at(end) {
        count += one_if(is_hindered_outside(alloc, graph, unit, end, edge.other_end(end)));
    }
    count
}

fn is_hindered_outside(alloc: Global, graph: &Graph, unit: &[u32], end: u32, neighbour: u32) -> bool
    ensures { result ≡ is_hindered_outside graph.now unit.now end neighbour }
{
    !unit.contains(&neighbour)
        && graph.edges_at(neighbour).len() == 3
        && beside_along(alloc, graph, end, neighbour)
}

fn beside_along(alloc: Global, graph: &Graph, end: u32, neighbour: u32) -> bool
    ensures { result ≡ beside_along graph.now end neighbour (edges_at graph.now neighbour) }
{
    for edge in graph.edges_at(neighbour) {
        if stands_beside(alloc, graph, end, neighbour, edge.other_end(neighbour)) {
            return true;
        }
    }
    false
}

fn stands_beside(alloc: Global, graph: &Graph, end: u32, neighbour: u32, other: u32) -> bool
    ensures { result ≡ stands_beside graph.now end neighbour other }
{
    vertex_at(graph, other).z != 1
        && other != end
        && !share_alternating_ring(alloc, graph, neighbour, other)
}
