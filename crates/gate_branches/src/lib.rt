//! The calls of `branches.txt`: branches of small trees.
//!
//! `Ranks` is the `Caller`. A row ranks the branches of a tree, seen from the root or from another node, and prints
//! their order, the nodes that were followed and the branches that are unresolved. `ranked by nodes` and `decided` make
//! the calls of `cip_branches` and `cip_rules` whose contracts speak of nodes of any kind: there the tree is a
//! `SmallDigraph`, and `readiness` tests what the calls ask for. Uses `gate_tables`.
#![tactic(auto)]

mod answering;
mod by_nodes;
mod digraph_rows;
mod digraphs;
mod pairs;
mod ranking;
mod readiness;
mod trees;

pub use answering::Ranks;
