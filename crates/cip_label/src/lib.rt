//! The outcome of a unit: rank order, reason and descriptor.
//!
//! `Labeller::label` ranks the ligands at each end of a unit by a `RootRanker`, and returns the label with its rule,
//! sphere and ligand order, or `Tie` or `Over`. `LabelContext` has what the units of a record share: graph, positions,
//! units, and the wording of Rule 1b. `RootRanker` is the contract of `cip_ranker`, so this crate and those above it
//! are proved over any ranker. Uses the definitions of `cip_digraph`, and smallvec.
#![tactic(auto)]

mod context;
mod decisions;
mod insert;
mod labeller;
mod ligand_order;
mod outcome;
mod rank_order;
mod ranked_root;
mod reason;
mod root_ranker;

pub use context::LabelContext;
pub use labeller::Labeller;
pub use ligand_order::reversed;
pub use ranked_root::Ranked;
pub use root_ranker::{Ranking, RootRanker};
