// The root of a digraph that isn't grown.
use cip_digraph::{Graph, Positions};

/// A vertex of a graph, around which its nodes are read off.
#[derive(Clone, Copy)]
pub struct Root<'a> {
    pub graph: &'a Graph,
    pub positions: &'a Positions,
    pub at: u32,
}
