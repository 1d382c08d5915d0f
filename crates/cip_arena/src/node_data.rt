// What is known of one node.
ghost use Rattle.std.specs.Prelude.{◌≡◌, ◌<◌, ◌≤◌, ◌+◌, ◌-◌, ◌*◌, ◌/◌, ◌^◌, length, sum, map};
ghost use Rattle.cip_arena.specs.Walk.{comes_from};
ghost use Rattle.cip_arena.specs.Making.{real_told, closure_told, duplicate_told};
ghost use Rattle.cip_digraph.specs.graph.Graph.{vertex_at, other_end as end_of};
ghost use Rattle.cip_digraph.specs.rules.Keys.{atom_mass};
ghost use Rattle.cip_digraph.specs.digraph.NodeList.{told_at};

use cip_digraph::{Edge, Graph, NodeData, NodeKind, Positions};
use cip_elem::natural_half;

/// A real node, the vertex that it stands for, and that of its parent: the root has none.
#[derive(Clone, Copy)]
pub struct RealNode {
    pub node: u32,
    pub vertex: u32,
    pub above: Option<u32>,
}

impl RealNode {
    /// Whether a vertex is that of the parent, and not the node's own.
    pub fn comes_from(&self, other: u32) -> bool
        ensures { result ≡ comes_from self.now.above self.now.vertex other }
    {
        match self.above {
            Some(above) => above == other && self.vertex != other,
            None => false,
        }
    }
}

/// The atomic number of a vertex, 0 at a number that is no vertex.
pub fn z_of(graph: &Graph, vertex: u32) -> u8
    ensures { result ≡ (vertex_at graph.now vertex).z }
{
    match graph.vertices().get(vertex as usize) {
        Some(vertex) => vertex.z,
        None => 0,
    }
}

/// The mass key of an atom of a vertex.
#[tactic(auto, using(crate::proofs::lemmas::Masses::no_atom))]
pub fn mass_of(graph: &Graph, vertex: u32) -> u32
    ensures { result ≡ atom_mass (vertex_at graph.now vertex) }
{
    match graph.vertices().get(vertex as usize) {
        Some(vertex) => {
            if vertex.isotope == 0 {
                natural_half(vertex.z) as u32
            } else {
                2 * vertex.isotope as u32
            }
        }
        None => 1,
    }
}

/// Six times the mean atomic number of some vertices.
pub fn mean_atomic_key(graph: &Graph, others: &[u32]) -> u32
    requires some { 0 < length others.now }
    requires few { length others.now ≤ 3 }
    ensures { result ≡ 6 * sum (map (λ other. (vertex_at graph.now other).z) others.now) / length others.now }
{
    let mut total = 0u32;
    for other in others {
        total += z_of(graph, *other) as u32;
    }
    6 * total / others.len() as u32
}

/// What is known of a neighbour that isn't on the way up.
pub fn real_node_data(graph: &Graph, nodes: &[NodeData], node: u32, other: u32) -> NodeData
    requires within { node < length nodes.now }
    requires nearer { (told_at nodes.now node).as_printed + 1 < 2 ^ 32 }
    ensures { result ≡ real_told graph.now nodes.now node other }
{
    let sphere = nodes[node as usize].as_printed + 1;
    NodeData {
        parent: node,
        kind: NodeKind::Real,
        vertex: other,
        counterpart: None,
        atomic: 6 * z_of(graph, other) as u32,
        mass: mass_of(graph, other),
        as_printed: sphere,
        as_corrected: sphere,
    }
}

/// What is known of a neighbour that is on the way up.
pub fn closure_node_data(
    graph: &Graph,
    nodes: &[NodeData],
    node: u32,
    other: u32,
    at: u32,
) -> NodeData
    requires { at < length nodes.now }
    ensures { result ≡ closure_told graph.now nodes.now node other at }
{
    let sphere = nodes[at as usize].as_printed;
    NodeData {
        parent: node,
        kind: NodeKind::Closure,
        vertex: other,
        counterpart: Some(at),
        atomic: 6 * z_of(graph, other) as u32,
        mass: 0,
        as_printed: sphere,
        as_corrected: sphere,
    }
}

/// What is known of the duplicate for a multiple bond from a real node, whose other end is at a node.
pub fn duplicate_node_data(
    graph: &Graph,
    positions: &Positions,
    nodes: &[NodeData],
    from: RealNode,
    edge: &Edge,
    stands: u32,
) -> NodeData
    requires within { from.node < length nodes.now }
    requires stands { stands < length nodes.now }
    ensures { result ≡ duplicate_told graph.now positions.now nodes.now from.node from.vertex
        (end_of from.vertex edge.now) stands edge.now.order }
{
    let others = positions.of(from.vertex);
    let sphere = nodes[from.node as usize].as_printed;
    if edge.order == 2 && others.len() > 1 {
        NodeData {
            parent: from.node,
            kind: NodeKind::Delocalised,
            vertex: from.vertex,
            counterpart: None,
            atomic: mean_atomic_key(graph, others),
            mass: 0,
            as_printed: sphere,
            as_corrected: sphere,
        }
    } else {
        let other = edge.other_end(from.vertex);
        NodeData {
            parent: from.node,
            kind: NodeKind::Multiple,
            vertex: other,
            counterpart: Some(stands),
            atomic: 6 * z_of(graph, other) as u32,
            mass: 0,
            as_printed: nodes[stands as usize].as_printed,
            as_corrected: sphere,
        }
    }
}
