// Which child of the root stands for a ligand.
ghost use Rattle.std.specs.Prelude.{◌≡◌, ◌<◌, ◌-◌, length, IfSome};
ghost use Rattle.cip_constitution.specs.Standing.{stands_told, ligand_number};
ghost use Rattle.cip_digraph.specs.digraph.NodeList.{told_at};
ghost use Rattle.cip_mol.specs.declared.site.Ligand.TheVariants.{Vertex};

use cip_digraph::{NodeKind, Nodes};
use cip_mol::Ligand;

// Whether a node is the vertex, or a ring closure to it.
fn is_of<N: Nodes>(nodes: &N, node: u32, vertex: u32) -> bool
    requires { node < length (N.nodes nodes.now) }
    ensures { result ≡ stands_told vertex (told_at (N.nodes nodes.now) node) }
{
    match nodes.kind(node) {
        NodeKind::Real | NodeKind::Closure => match nodes.vertex(node) {
            Some(other) => other == vertex,
            None => false,
        },
        NodeKind::Multiple | NodeKind::Delocalised => false,
    }
}

/// The number of the node of a ligand: the root's child of its vertex; none for a lone pair.
pub fn node_of_ligand<N: Nodes>(nodes: &N, ligand: &Ligand) -> Option<u32>
    requires { 0 < length (N.nodes nodes.now) }
    ensures number { result ≡ ligand_number (N.nodes nodes.now) ligand.now }
    ensures within { IfSome result (λ node. node < length (N.nodes nodes.now)) }
{
    let Ligand::Vertex(vertex) = *ligand else {
        return None;
    };
    let (first, past) = nodes.table().children(0);
    for node in first..past {
        if is_of(nodes, node, vertex) {
            return Some(node);
        }
    }
    None
}
