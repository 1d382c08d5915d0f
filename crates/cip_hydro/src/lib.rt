//! The graph of a molecule.
//!
//! `graph_of` adds implicit hydrogens and lone pairs to the drawn atoms, and says which multiple bonds are counted:
//! those at P, As, S and Se with four ligands or more are neglected. It takes linear time. Uses the valences of
//! `cip_elem` and the types of `cip_digraph`.
#![tactic(auto)]

mod drawn_graph;
mod edges;
mod valence;
mod valence_state;
mod vertices;

pub use drawn_graph::graph_of;
