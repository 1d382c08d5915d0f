// The way from a node up to the root.
ghost use Rattle.std.specs.Prelude.{◌≡◌, ◌<◌, ◌≤◌, ◌==◌, length, IfSome};
ghost use Rattle.cip_arena.specs.Walk.{walk, is_above as stands_above, vertex_above as parent_vertex, IsEarlier, IsFlagged};

use cip_digraph::NodeData;

// Looks at one node after the other.
#[tactic(auto, using(crate::proofs::lemmas::Walked::step_up, crate::proofs::lemmas::Walked::found_here, crate::proofs::lemmas::Walked::none_at_root))]
fn find_on(nodes: &[NodeData], node: u32, vertex: u32) -> Option<u32>
    requires within { node < length nodes.now }
    requires earlier { IsEarlier nodes.now }
    ensures found { result ≡ walk nodes.now node vertex }
    ensures low { IfSome result (λ at. at ≤ node) }
{
    let mut at = node;
    while at != 0 {
        let node_data = &nodes[at as usize];
        if node_data.vertex == vertex {
            return Some(at);
        }
        at = node_data.parent;
    }
    if nodes[0].vertex == vertex {
        Some(0)
    } else {
        None
    }
}

/// The node of a vertex on the way from a node up to the root.
#[tactic(auto, using(crate::proofs::lemmas::Flagged::none_flagged))]
pub fn find_ancestor(nodes: &[NodeData], present: &[bool], node: u32, vertex: u32) -> Option<u32>
    requires within { node < length nodes.now }
    requires earlier { IsEarlier nodes.now }
    requires flagged { IsFlagged present.now nodes.now }
    ensures found { result ≡ walk nodes.now node vertex }
    ensures low { IfSome result (λ at. at ≤ node) }
{
    match present.get(vertex as usize) {
        Some(false) => None,
        _ => find_on(nodes, node, vertex),
    }
}

/// Whether the parent of a node has this vertex.
pub fn is_above(nodes: &[NodeData], node: u32, vertex: u32) -> bool
    requires within { node < length nodes.now }
    requires earlier { IsEarlier nodes.now }
    ensures { result ≡ stands_above nodes.now node vertex }
{
    if node == 0 {
        false
    } else {
        nodes[nodes[node as usize].parent as usize].vertex == vertex
    }
}

/// The vertex of the parent of a node. The root has none.
pub fn vertex_above(nodes: &[NodeData], node: u32) -> Option<u32>
    requires within { node < length nodes.now }
    requires earlier { IsEarlier nodes.now }
    ensures { result ≡ parent_vertex nodes.now node }
{
    if node == 0 {
        None
    } else {
        Some(nodes[nodes[node as usize].parent as usize].vertex)
    }
}
