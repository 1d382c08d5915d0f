// Outcomes of roots that are alike.
pub mod cache;
pub mod cache_key;
pub mod cached;
pub mod child_keys;
pub mod uncached;
