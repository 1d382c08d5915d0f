// Units at nodes of a digraph, and where each has its other end.
pub mod subtree_flags;
pub mod unit_ends;
pub mod unit_index;
