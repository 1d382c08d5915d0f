// Pairs that tie whatever follows.
pub mod branch_ends;
pub mod closed_branches;
pub mod distinct;
pub mod early_tie;
pub mod early_tie_candidates;
