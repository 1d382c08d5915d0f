// Whole runs of the program.
pub mod collections;
pub mod edits;
pub mod groups;
pub mod runs;
pub mod streams;
