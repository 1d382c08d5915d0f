// The branches of an inner node, sphere by sphere.
pub mod branch_tops;
pub mod follow;
pub mod ligand_branches;
pub mod restrict;
pub mod steps_from;
pub mod unresolved;
