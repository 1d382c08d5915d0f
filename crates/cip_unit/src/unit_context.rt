// A molecule as its units are looked for.
use cip_digraph::{Graph, Positions};
use cip_mol::Molecule;

/// A molecule with its graph, and where the double bonds at a vertex can be.
#[derive(Clone, Copy)]
pub struct UnitContext<'a> {
    pub molecule: &'a Molecule,
    pub graph: &'a Graph,
    pub positions: &'a Positions,
}
