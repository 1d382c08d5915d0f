//! Changed V2000 records.
//!
//! `mirror_lines` writes the mirror image of a record; `set_letter_in_lines` writes it with one wedge by which a centre
//! has the requested descriptor, or returns why there is none (`SetRefusal`). `mark_for_letter` chooses the wedge,
//! `changed_record` writes changed bonds, and `edit_record` edits lines by a `LineEdit`; columns that aren't changed
//! keep their bytes. Uses the reader of `cip_v2000` and the labeller of `cip_label`.
#![tactic(auto)]

mod centres;
mod lines;
mod mirror;
mod mirror_answer;
mod request;
mod set_answer;
mod set_letter;

pub use centres::mark_choice::mark_for_letter;
pub use centres::marks::with_mark;
pub use lines::bond_edits::{changed_record, changes_are_read};
pub use lines::columns::with_columns;
pub use lines::line_edits::{LineEdit, edit_record};
pub use mirror::mirror_lines;
pub use mirror_answer::{MirrorAnswer, MirrorRefusal};
pub use request::{CentreRefusal, LetterRequest, MarkedCentre};
pub use set_answer::{SetAnswer, SetRefusal};
pub use set_letter::set_letter_in_lines;
