//! Ranks the ligands of an inner node of a digraph by all rules.
//!
//! `AuxRanker` is the `LigandRanker` of `cip_aux`. It caches rankings that Rules 1a to 2 leave tied, and resumes them
//! when they are requested again. `LigandBranches` follows the branches of one node's ligands, seen from that node,
//! `Distances` are the keys of Rule 1b seen from there, and `SubtreeDescriptors` the descriptors that count there. Uses
//! `cip_rules` and `cip_branches`.
#![tactic(auto)]

mod branches;
mod cached;
mod descriptors;
mod keys;
mod pairs;
mod ranker;
mod subtree_descriptors;

pub use branches::ligand_branches::LigandBranches;
pub use descriptors::descriptors_inside;
pub use keys::distance_keys::Distances;
pub use ranker::AuxRanker;
pub use subtree_descriptors::SubtreeDescriptors;
