//! The data items of a record, above all the label item `CIP_LABELS`.
//!
//! `has_label_item` looks for one, `without_label_items` removes all of them, and `lines_with_item` inserts a new one
//! at the end of the record, with the line ends of the record's first line. `split_items` lists all items. Uses the
//! lines of `cip_text`, and memchr for searching.
#![tactic(auto)]

mod insertion;
mod items;
mod label_items;
mod line_kinds;
mod sections;

pub use insertion::{Texts, lines_with_item, with_item};
pub use items::{Item, Items, split_items};
pub use label_items::{has_label_item, lines_without_label_items, without_label_items};
