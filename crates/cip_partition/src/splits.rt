// Classes that are split.
pub mod by_keys;
pub mod dirty;
pub mod refine;
pub mod split;
pub mod split_class;
