//! Lines, columns and numbers of a text, which is any list of bytes.
//!
//! `split_line` takes the first line off a text; `RecordLines` is a record that is split into lines once, with its
//! terminator line found, and copies no text. `columns` reads fixed columns, `integer` and `decimal4` read numbers,
//! `coordinate` and `push_right_aligned` write them. `Bytes` is an owned text, and `List32` is a list whose length fits
//! 32 bits. Uses bstr for searching bytes and thiserror for `NumberFault`.
#![tactic(auto)]

mod bytes;
mod fields;
mod format;
mod line_kinds;
mod line_reader;
mod list32;
mod numbers;
mod record_lines;

pub use bytes::Bytes;
pub use fields::{columns, trim_end_spaces};
pub use format::{coordinate, push_right_aligned};
pub use line_kinds::{is_blank, is_molecule_end, is_terminator};
pub use line_reader::{
    Line, Lines, content, ends_with_byte, lines, split_line, starts_with_byte, trim_line_end,
};
pub use list32::List32;
pub use numbers::{CAP, NumberFault, decimal4, integer, parse_digits};
pub use record_lines::{RecordLines, body_contents, split_body_line};
