// Branches as they were, to go back to.
pub mod checkpoint;
pub mod copies;
