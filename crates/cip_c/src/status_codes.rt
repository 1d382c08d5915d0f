// What a call answers in place of a count of bytes.

/// Memory was refused.
pub(crate) const NO_MEMORY: i64 = -1;

/// A pointer is null.
pub(crate) const NULL_POINTER: i64 = -2;

/// The labeller was given back, or couldn't be made.
pub(crate) const NOT_MADE: i64 = -3;

/// The bound on the nodes of a digraph is 0, or larger than a million.
pub(crate) const BOUND_OUTSIDE: i64 = -4;

/// The wording of Rule 1b is neither that of 2013 nor that of 2018.
pub(crate) const WORDING_UNKNOWN: i64 = -5;

/// The record is longer than a labeller takes.
pub(crate) const RECORD_TOO_LONG: i64 = -6;
