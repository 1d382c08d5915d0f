// How many nodes the next sphere has, before any is made.
ghost use Rattle.std.specs.Prelude.{◌≡◌, ◌<◌, ◌≤◌, ◌+◌, ◌-◌, ◌^◌, cond, length, IfSome, IfNone};
ghost use Rattle.cip_arena.specs.Walk.{IsEarlier};
ghost use Rattle.cip_arena.specs.Making.{edge_size as size_of_edge, node_size as size_of_node};
ghost use Rattle.cip_arena.specs.Making.{real_vertex as vertex_if_real, size_upto};

use crate::ancestors::is_above;
use cip_digraph::{Edge, Graph, NodeData, NodeKind};

/// How many duplicates an edge gives at an end.
pub fn duplicate_count(edge: &Edge) -> u8
    ensures { result ≡ cond edge.now.counted (edge.now.order - 1) 0 }
{
    if edge.counted {
        edge.order.saturating_sub(1)
    } else {
        0
    }
}

/// How many nodes an edge gives below a node of a vertex.
pub fn edge_size(nodes: &[NodeData], node: u32, vertex: u32, edge: &Edge) -> u64
    requires within { node < length nodes.now }
    requires earlier { IsEarlier nodes.now }
    ensures size { result ≡ size_of_edge nodes.now node vertex edge.now }
    ensures small { result ≤ 256 }
{
    let nearer = if is_above(nodes, node, edge.other_end(vertex)) {
        0
    } else {
        1
    };
    nearer + duplicate_count(edge) as u64
}

/// The vertex of a real node.
pub fn real_vertex(node_data: &NodeData) -> Option<u32>
    ensures { result ≡ vertex_if_real node_data.now }
{
    match node_data.kind {
        NodeKind::Real => Some(node_data.vertex),
        NodeKind::Closure => None,
        NodeKind::Multiple => None,
        NodeKind::Delocalised => None,
    }
}

/// How many children a node has.
pub fn node_size(graph: &Graph, nodes: &[NodeData], node: u32) -> u64
    requires within { node < length nodes.now }
    requires earlier { IsEarlier nodes.now }
    ensures size { result ≡ size_of_node graph.now nodes.now node }
    ensures small { result ≤ 2 ^ 40 }
{
    let mut size = 0u64;
    if let Some(vertex) = real_vertex(&nodes[node as usize]) {
        for edge in graph.edges_at(vertex) {
            size += edge_size(nodes, node, vertex, edge);
        }
    }
    size
}

/// How many children the nodes from a first one up to another have, none where they are more than there is room for.
#[tactic(auto, using(crate::proofs::lemmas::Sized::size_more, crate::proofs::lemmas::Sized::size_le))]
pub fn sphere_size(
    graph: &Graph,
    nodes: &[NodeData],
    first: u32,
    past: u32,
    room: u32,
) -> Option<u32>
    requires order { first ≤ past }
    requires within { past ≤ length nodes.now }
    requires earlier { IsEarlier nodes.now }
    ensures size { IfSome result (λ n. n ≡ size_upto graph.now nodes.now first (past - first)) }
    ensures fits { IfSome result (λ n. n ≤ room) }
    ensures over { IfNone result (room < size_upto graph.now nodes.now first (past - first)) }
{
    let mut size = 0u32;
    for node in first..past {
        let sum = size as u64 + node_size(graph, nodes, node);
        if sum > room as u64 {
            return None;
        }
        size = sum as u32;
    }
    Some(size)
}
