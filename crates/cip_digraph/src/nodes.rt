// A digraph as the list of its nodes.
ghost use Rattle.std.specs.Prelude.{◌≡◌, ◌<◌, List, length};
ghost use Rattle.cip_digraph.specs.declared.nodes.NodeData.{NodeData};
ghost use Rattle.cip_digraph.specs.digraph.NodeList.{told_at, parents_of, vertex_told, distance_told};

use cip_rank::{Rules, Table};

/// What a node of a digraph is: an atom, or a duplicate of an atom that is on the path, at the end of a ring; or
/// of the other end of a multiple bond; or of what the other end of a delocalised double bond is on the mean.
#[derive(Clone, Copy, PartialEq, Eq)]
pub enum NodeKind {
    Real,
    Closure,
    Multiple,
    Delocalised,
}

/// What is known of a node.
#[derive(Clone, Copy)]
pub struct NodeData {
    /// The number of its parent; 0 for the root.
    pub parent: u32,
    pub kind: NodeKind,
    /// The last vertex of a real node, or what a duplicate repeats; of a delocalised one, its carrier's.
    pub vertex: u32,
    /// The number of the real node that stands for what a closure or the duplicate of a multiple bond repeats.
    pub counterpart: Option<u32>,
    pub atomic: u32,
    pub mass: u32,
    /// The distance key as printed in 2013.
    pub as_printed: u32,
    /// The distance key as corrected in 2018.
    pub as_corrected: u32,
}

/// A digraph, or its first spheres, as the layers above see it: its nodes numbered in order of spheres, from the
/// root's 0.
pub trait Nodes {
    /// The nodes, by number.
    ghost nodes: { Self → List NodeData };

    /// Parents, spheres and children.
    fn table(&self) -> &Table
        ensures { result.now.parents ≡ parents_of (nodes self.now) };

    /// What kind of node it is.
    fn kind(&self, node: u32) -> NodeKind
        requires { node < length (nodes self.now) }
        ensures { result ≡ (told_at (nodes self.now) node).kind };

    /// None for a delocalised duplicate.
    fn vertex(&self, node: u32) -> Option<u32>
        requires { node < length (nodes self.now) }
        ensures { result ≡ vertex_told (told_at (nodes self.now) node) };

    /// None for a real node and for a delocalised duplicate.
    fn counterpart(&self, node: u32) -> Option<u32>
        requires { node < length (nodes self.now) }
        ensures { result ≡ (told_at (nodes self.now) node).counterpart };

    /// The key of Rule 1a: six times the atomic number, or the mean of a delocalised duplicate.
    fn atom_key(&self, node: u32) -> u32
        requires { node < length (nodes self.now) }
        ensures { result ≡ (told_at (nodes self.now) node).atomic };

    /// The key of Rule 1b in this wording: a distance from the root.
    fn distance_key(&self, node: u32, rules: Rules) -> u32
        requires { node < length (nodes self.now) }
        ensures { result ≡ distance_told rules (told_at (nodes self.now) node) };

    /// The key of Rule 2, in half mass units.
    fn mass_key(&self, node: u32) -> u32
        requires { node < length (nodes self.now) }
        ensures { result ≡ (told_at (nodes self.now) node).mass };
}
