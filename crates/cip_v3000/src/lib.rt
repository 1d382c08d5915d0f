//! The reader of V3000 molfiles.
//!
//! `read_lines` returns the molecule of a record's lines, or the first line with a fault and its cause; lines that end
//! in `-` are joined with the next one. `read_table` also returns the atom indices and the lines after the bonds, for
//! the readers of collections. `specs/` has the grammar. Uses the fields of `cip_ctfile`, and indexmap for atom
//! indices.
#![tactic(auto)]

mod atom_indices;
mod atoms;
mod blocks;
mod bonds;
mod lines;
mod reading;
mod table;
mod values;

pub use lines::block_lines::{BlockLine, is_frame};
pub use lines::continuation::{LogicalLine, Text, text_of};
pub use lines::word_splitter::words;
pub use reading::{read, read_lines};
pub use table::{Table, read_table};
