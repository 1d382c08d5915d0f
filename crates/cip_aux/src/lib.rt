//! The auxiliary descriptors of a whole digraph.
//!
//! `auxiliaries` finds them from the last node to the first. At each node where a unit ends it requests the parity of
//! the node's ligands from a `LigandRanker`, which the caller supplies. `ParityCache` caches the parities that Rules 1a
//! to 2 decide, since they hold for any senses. `UnitIndex` finds the units that end at a vertex, and `flag_subtrees`
//! extends flags to all nodes below. Uses the definitions of `cip_digraph`.
#![tactic(auto)]

mod auxiliary_descriptors;
mod context;
mod ligand_nodes;
mod ligand_ranker;
mod node_descriptor;
mod parities;
mod units;
mod whole_digraph;

pub use auxiliary_descriptors::{AuxiliaryRequest, auxiliaries};
pub use context::InnerContext;
pub use ligand_ranker::{FoundParity, LigandRanker};
pub use parities::parity_cache::{CachedParity, ParityCache};
pub use units::subtree_flags::flag_subtrees;
pub use units::unit_index::UnitIndex;
pub use whole_digraph::WholeDigraph;
