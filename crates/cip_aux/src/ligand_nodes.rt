// The ligands of a root, and the other end of a unit, by number.
ghost use Rattle.std.specs.Prelude.{◌≡◌, ◌<◌, ◌-◌, length, map, IfSome};
ghost use Rattle.cip_rank.specs.Tree.{IsTree, children_of};
ghost use Rattle.cip_digraph.specs.rules.Auxiliary.{stands_for};
ghost use Rattle.cip_digraph.specs.digraph.NodeList.{parents_of};
ghost use Rattle.cip_aux.specs.Neighbours.{first_where, parent_of, is_real_of, ligand_number};
ghost use Rattle.cip_aux.specs.Neighbours.{real_child, shape_at};

use cip_digraph::{NodeKind, Nodes};
use cip_mol::{AtMostFour, Ligand, Ligands};

// A real node or a closure of this vertex.
fn is_ligand<N: Nodes>(nodes: &N, node: u32, vertex: u32) -> bool
    requires within { node < length (N.nodes nodes.now) }
    ensures { result ≡ stands_for vertex (shape_at (N.nodes nodes.now) node) }
{
    match nodes.kind(node) {
        NodeKind::Real | NodeKind::Closure => nodes.vertex(node) == Some(vertex),
        NodeKind::Multiple | NodeKind::Delocalised => false,
    }
}

// A real node of this vertex.
fn is_atom<N: Nodes>(nodes: &N, node: u32, vertex: u32) -> bool
    requires within { node < length (N.nodes nodes.now) }
    ensures { result ≡ is_real_of vertex (shape_at (N.nodes nodes.now) node) }
{
    match nodes.kind(node) {
        NodeKind::Real => nodes.vertex(node) == Some(vertex),
        NodeKind::Closure | NodeKind::Multiple | NodeKind::Delocalised => false,
    }
}

// The child of a node that stands for a ligand.
fn ligand_child<N: Nodes>(nodes: &N, node: u32, vertex: u32) -> Option<u32>
    requires within { node < length (N.nodes nodes.now) }
    ensures { result ≡ first_where (λ number. stands_for vertex (shape_at (N.nodes nodes.now) number))
        (children_of (parents_of (N.nodes nodes.now)) node) }
{
    let (first, past) = nodes.table().children(node);
    for child in first..past {
        if is_ligand(nodes, child, vertex) {
            return Some(child);
        }
    }
    None
}

/// The real child of a vertex.
pub fn real_child<N: Nodes>(nodes: &N, node: u32, vertex: u32) -> Option<u32>
    requires within { node < length (N.nodes nodes.now) }
    ensures child { result ≡ real_child (shape_at (N.nodes nodes.now)) (parents_of (N.nodes nodes.now)) node vertex }
    ensures low { IfSome result (λ child. child < length (N.nodes nodes.now)) }
{
    let (first, past) = nodes.table().children(node);
    for child in first..past {
        if is_atom(nodes, child, vertex) {
            return Some(child);
        }
    }
    None
}

// The parent of a node, if it stands for a ligand.
fn ligand_parent<N: Nodes>(nodes: &N, node: u32, vertex: u32) -> Option<u32>
    requires within { node < length (N.nodes nodes.now) }
    requires tree { IsTree (parents_of (N.nodes nodes.now)) }
    ensures { result ≡ first_where (λ number. stands_for vertex (shape_at (N.nodes nodes.now) number))
        (parent_of (parents_of (N.nodes nodes.now)) node) }
{
    match nodes.table().parent(node) {
        Some(parent) if is_ligand(nodes, parent, vertex) => Some(parent),
        _ => None,
    }
}

// The node next to `node` that stands for a ligand: a child or the parent; none for a lone pair.
fn ligand<N: Nodes>(nodes: &N, node: u32, ligand: Ligand) -> Option<u32>
    requires within { node < length (N.nodes nodes.now) }
    requires tree { IsTree (parents_of (N.nodes nodes.now)) }
    ensures { result ≡ ligand_number (shape_at (N.nodes nodes.now)) (parents_of (N.nodes nodes.now)) node ligand }
{
    match ligand {
        Ligand::LonePair => None,
        Ligand::Vertex(vertex) => match ligand_child(nodes, node, vertex) {
            Some(child) => Some(child),
            None => ligand_parent(nodes, node, vertex),
        },
    }
}

/// The ligands of a root as nodes next to it; none for a lone pair.
pub fn ligands_at<N: Nodes>(nodes: &N, node: u32, ligands: &Ligands) -> AtMostFour<Option<u32>>
    requires within { node < length (N.nodes nodes.now) }
    requires tree { IsTree (parents_of (N.nodes nodes.now)) }
    ensures { result
        ≡ map (ligand_number (shape_at (N.nodes nodes.now)) (parents_of (N.nodes nodes.now)) node) ligands.now }
{
    let mut numbers = AtMostFour::new();
    for place in ligands.as_slice() {
        numbers.push(ligand(nodes, node, *place));
    }
    numbers
}
