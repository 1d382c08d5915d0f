//! Grows a digraph until its ligands are settled, and applies Rules 1a to 2.
//!
//! `settle` grows an `Arena` sphere by sphere and returns `Ordered`, `Tied`, `Whole` or `Over`. `Work` follows the
//! branches of the root, records what Rule 1a decides in each sphere, and applies the later rules (`apply_rules_1b_2`,
//! `apply_rules_3_to_5`). `VertexPair` is a pair of ligands with its decision. Growth takes one step a node. Uses
//! `cip_arena` and `cip_rules`.
#![tactic(auto)]

mod context;
mod ligand_nodes;
mod pairs;
mod rules;
mod steps;
mod ties;
mod work;

pub use pairs::VertexPair;
pub use steps::settling::{Settled, settle};
pub use work::Work;
