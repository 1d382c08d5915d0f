// Keys of nodes as seen from an inner node.
pub mod constitutional_rules;
pub mod distance_keys;
