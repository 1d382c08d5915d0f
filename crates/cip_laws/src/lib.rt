//! Laws of the definitions, and worked examples.
//!
//! Each law is a public function with an empty body whose contract is the statement. They say what renumbering, a
//! mirror and ties do to labels and to records, what is read of groups and axes, and what a finished run has written.
//! Worked examples compute. Each table that definitions take from the code is written out a second time. The laws of a
//! single crate's definitions are in a module of their own. The program uses none of this.
#![tactic(auto)]

pub mod answers;
mod biaryls;
pub mod drawings;
pub mod labels;
pub mod program;
pub mod ranking;
pub mod readers;
mod worked;

pub use biaryls::delocalised_atoms_are_ends;
pub use drawings::cumulenes::chains_are_listed;
pub use drawings::marks::{given_marks_keep_ligands, given_marks_keep_orders, marks_keep_orders};
pub use drawings::reflection::{
    mirror, reflection_keeps_drawings, reflection_keeps_further, reflection_mirrors_outcomes,
    whole_inversions_are_mirrors, worked_molecules_are_mirrored,
};
pub use drawings::renumbering::{
    renumber, renumbered_drawings_are_renumberings, renumbering_keeps_further,
    renumbering_keeps_outcomes, renumberings_are_sound, units_share_no_end,
    worked_molecules_are_renumbered, worked_renumbering_is_labelled,
};
pub use program::groups::{groups_are_of_lines, repeated_is_named_twice};
pub use program::runs::{
    annotating_repeats, items_come_out, parts_add_up, records_come_back, runs_complete,
    runs_repeat, streams_repeat, worked_records_are_given, worked_streams_are_given,
    workers_change_nothing,
};
pub use ranking::rings::delocalised_atoms_lie_in_rings;
pub use ranking::ties::{lone_pairs_tie_with_nothing, ties_are_same_trees};
pub use readers::records::{
    mirrored_records_are_read, mirrored_records_mirror, readings_are_sound, records_go,
    records_mirror, tables_are_drawn,
};
pub use readers::tables::{elements_are_written, help_is_written};
pub use worked::{worked_further_is_labelled, worked_records_have_labels};
