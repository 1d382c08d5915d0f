// What is decided between branches, and the parity of ranks.
pub mod branch_pair;
pub mod decision;
pub mod parity;
pub mod rank_parity;
