//! What the readers of V2000 and V3000 share.
//!
//! Fields by columns (`number_at`, `place_at`, `coordinate_at`) and by words (`parse_number`, `parse_signed`,
//! `split_spaces`), the checks of a bond (`check_bond`), and the line of a fault (`fault_at_line`,
//! `missing_line_fault`). Common forms of a field have a fast path with the same result. `proofs/` has lemmas on lines
//! that are read one after another. Uses `cip_mol` for causes and `cip_text` for columns and numbers.
#![tactic(auto)]

mod causes;
mod column_fields;
mod fast_path;
mod fields;
mod line_faults;
mod words;

pub use causes::{check_bond, coordinate, order};
pub use column_fields::{coordinate_at, digit_at, number_at, place_at, z_coordinate_at};
pub use fast_path::{parse_decimal_prefix, trim_start_spaces};
pub use fields::{number, one_based_index, parse_number, parse_signed, signed};
pub use line_faults::{fault_at_line, missing_line_fault};
pub use words::split_spaces;
