// Rankings of inner nodes that are kept.
pub mod cache;
pub mod cached_ranking;
