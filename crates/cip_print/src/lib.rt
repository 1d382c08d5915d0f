//! Labels, refusals and counts as text.
//!
//! `Answer` is a record's refusal or its units with their outcomes. `item_values` writes the value lines of its item,
//! `explain_text` the lines of `explain`, `refusal` the text of a refusal. `UnitName` is a name such as `a7` or `b2-3`.
//! `Tally` counts outcomes for `trial`. Uses `cip_mol` for outcomes and `cip_item` for lists of lines.
#![tactic(auto)]

mod answer;
mod answer_values;
mod explain;
mod label_line;
mod numbers;
mod refusal_text;
mod tally;
mod unit_name;

pub use answer::{Answer, UnitAnswer, UnitAnswers};
pub use answer_values::item_values;
pub use explain::explain_text;
pub use label_line::push_names_in_order;
pub use numbers::{push_number, push_word};
pub use refusal_text::refusal;
pub use tally::Tally;
pub use unit_name::{UnitName, name_of, push_name};
