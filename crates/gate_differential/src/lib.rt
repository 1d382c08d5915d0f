//! Fast digraphs against slow ones.
//!
//! `compare_records` makes the digraphs of records twice, by `cip_arena` and by `cip_tree`, and compares them node by
//! node and decision by decision. `Worked` are the calls of `digraphs.txt`: worked molecules, their units, spheres and
//! auxiliary descriptors. Uses `gate_tables`.
#![tactic(auto)]

mod answering;
mod boxes;
mod counts;
mod digraphs;
mod molecule_rows;
mod records;
mod tables;

pub use answering::Worked;
pub use records::compare_records;
