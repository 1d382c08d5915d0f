//! How the ligands of units rank whose sense a drawing doesn't show.
//!
//! `undefined_in_lines` lists each centre, double bond and allene that has no wedge or an undecided one, with its
//! `State`: open (its ligands differ, so a sense would give it a descriptor), tie, dependent on other units, or over
//! the bound. `undefined_text` writes the list. The library for C offers it. Uses the labeller of `cip_label`.
#![tactic(auto)]

mod find;
mod laws;
mod pairs;
mod reach;
mod text;
mod ties;
mod undefined;
mod unit;

pub use laws::senses_keep_orders;
pub use text::undefined_text;
pub use undefined::undefined_in_lines;
pub use unit::{State, UndefinedAnswer, UndefinedUnit, UndefinedUnits};
