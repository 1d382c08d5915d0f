// Numbers and keys.
pub mod counts;
pub mod keys;
pub mod numbers;
