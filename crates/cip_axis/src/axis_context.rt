// What further units are looked for in.

use cip_digraph::{Graph, Positions};
use cip_mol::Molecule;

/// A molecule, its graph, and where its double bonds can be.
#[derive(Drop)]
pub struct AxisContext<'a> {
    pub molecule: &'a Molecule,
    pub graph: &'a Graph,
    pub positions: &'a Positions,
}
