// The graph of a drawing, with its positions.
pub mod graph;
pub mod incidence;
pub mod positions;
