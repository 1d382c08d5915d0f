//! Labels a single record, in memory of its own.
//!
//! ```rust
//! let answer = label_record(alloc, record, 100_000, Rules::Wording2018)?;
//! if is_flagged(&answer) {
//!     // refused, or a unit needs a digraph of more than 100,000 nodes
//! }
//! let lines = cip_print::item_values(alloc, &answer, 100_000, Rules::Wording2018)?;
//! ```
//!
//! - `label_record` returns the `Answer` of a record: each unit with its outcome, or the refusal. It is `answer_by` of
//!   the record's bytes, exactly (`answer`), and its value lines can be written (`room`).
//! - `axes_text` returns the lines of `axes` for a record: cumulenes and biaryl axes with their outcomes, and whether
//!   the record counts for status 1.
//! - `with_new_labeller` runs any other `LabellerTask` on a record with a labeller of its own. Implement the trait for
//!   a struct with the settings of the task: `run` gets the labeller and the record's lines without label items, and
//!   `answers` says in contracts what it returns.
//!
//! Conditions on every call: the record has fewer than 2^32 - 1 bytes, and `nodes`, the bound on the nodes of a
//! digraph, is from 1 to 1,000,000. Label items of the record are removed first. Only lack of memory makes a call fail;
//! then it returns `AllocError`. Each call reserves about 400 bytes a node of the bound, so a caller with many records
//! uses one labeller of `cip_label` with `label_lines` of `cip_answer`, as the program does.
//!
//! `// proof:` dropping a `Ranker` takes half a minute to prove in each crate that owns one, so calls for single
//! records are tasks of this crate.
#![tactic(auto)]

mod axes;
mod labelled_record;
mod with_labeller;

pub use axes::axes_text;
pub use cip_answer::{AxesText, is_flagged, read_molecule};
pub use labelled_record::label_record;
pub use with_labeller::{LabellerTask, with_new_labeller};
