//! All outcomes of a record, or its refusal.
//!
//! `label_lines` reads the structure of a record's lines and labels one unit after another. A centre that is symmetric
//! to a costly one is labelled from it. `axes_of_lines` does the same for cumulenes and biaryl axes and returns their
//! text. `is_flagged` says whether a record counts for status 1. All calls are generic over `RootRanker`. Uses
//! `cip_molfile`, `cip_label`, `cip_symmetry` and `cip_axis`.
#![tactic(auto)]

mod axes_text;
mod axis_units;
mod colours;
mod record_answer;
mod symmetric_units;
mod units;

pub use axes_text::{AxesText, axes_of_lines};
pub use cip_molfile::read_molecule;
pub use record_answer::{is_flagged, label_lines};
