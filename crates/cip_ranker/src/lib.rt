//! Ranks the ligands of a root in memory that is reserved once.
//!
//! `Ranker` is the `RootRanker` of the program. If the first two spheres decide, it reads them from the graph.
//! Otherwise it grows the digraph and applies as many rules as needed. It caches the last costly root, which may be
//! requested again with other senses. `RecordLabeller` is a labeller over it. Outside the gate, only `cip_run`,
//! `cip_record` and `cip_c` name these types. Uses `cip_constitution`, `cip_aux` and `cip_aux_rank`.
#![tactic(auto)]

mod caches;
mod checkpoint;
mod decisions;
mod grown_root;
mod ranker;
mod root;
mod two_sphere;
mod whole_digraph;
mod workspace;

pub use ranker::{Ranker, RecordLabeller};
