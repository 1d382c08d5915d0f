//! Tables of calls with their expected results.
//!
//! `make_calls` reads the rows of a table and makes each call by a `Caller`; `Text` collects a result, and a row with
//! another result is printed. `Calls` are the calls of `calls.txt`: words, texts, elements, directions and small
//! drawings. The other crates of the gate have a `Caller` of their own.
#![tactic(auto)]

mod answering;
mod calls;
mod carbons;
mod command_lines;
mod directions;
mod drawings;
mod elements;
mod output;
mod rows;
mod senses;

pub use answering::Calls;
pub use output::text::Text;
pub use rows::making::{Caller, make_calls};
pub use rows::row::{Row, words};
