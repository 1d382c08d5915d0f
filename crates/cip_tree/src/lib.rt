//! A second, slow ranker, to compare the fast one with.
//!
//! `plain_tree` makes a digraph of boxed nodes up to a sphere, `plain_order` compares two children of the root by Rules
//! 1a, 1b and 2 as the definition says it, and `flat` lists the nodes in order of spheres. Its crate has proofs of its
//! own, and `gate_differential` compares both rankers. The program doesn't use it.
#![tactic(auto)]

mod comparing;
mod flat;
mod growing;
mod labels;
mod order;
mod paths;
mod placing;
mod reading;
mod tree;

pub use flat::Flat;
pub use growing::plain_tree;
pub use order::plain_order;
pub use tree::PlainTree;
