// Parities of units as seen from a node, and those that are kept.
pub mod parity;
pub mod parity_cache;
