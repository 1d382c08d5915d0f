// What the ligands of a root are asked about.
use cip_digraph::{FlaggedUnits, Graph, Positions};
use cip_mol::Ligand;
use cip_rank::Rules;

/// A graph with its positions and its units, the ligands of a root, and the wording of the rules.
#[derive(Clone, Copy)]
pub(crate) struct RootContext<'a, 'u> {
    pub(crate) graph: &'a Graph,
    pub(crate) positions: &'a Positions,
    pub(crate) units: &'a FlaggedUnits<'u>,
    pub(crate) ligands: &'a [Ligand],
    pub(crate) rules: Rules,
}
