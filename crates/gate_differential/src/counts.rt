// How much was compared.
use std::fmt;

/// How many roots, nodes, and pairs of branches by one wording of Rule 1b.
#[derive(Clone, Copy)]
pub struct Counts {
    pub roots: u64,
    pub nodes: u64,
    pub pairs: u64,
}

impl Counts {
    pub fn none() -> Counts {
        Counts {
            roots: 0,
            nodes: 0,
            pairs: 0,
        }
    }

    pub fn add(&mut self, other: Counts) {
        self.roots = self.roots.saturating_add(other.roots);
        self.nodes = self.nodes.saturating_add(other.nodes);
        self.pairs = self.pairs.saturating_add(other.pairs);
    }
}

impl fmt::Display for Counts {
    fn fmt<W: fmt::Write>(&self, f: &mut fmt::Formatter<W>) -> fmt::Result {
        write!(
            f,
            "{} roots, {} nodes, {} pairs",
            self.roots, self.nodes, self.pairs
        )
    }
}
