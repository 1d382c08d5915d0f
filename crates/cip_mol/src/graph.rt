// Atoms and bonds.
pub mod adjacency;
pub mod adjacency_row;
pub mod bonds;
pub mod molecule;
