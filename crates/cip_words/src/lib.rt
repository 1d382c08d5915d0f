//! The command line: commands, options, help.
//!
//! `FORMS` is the table of commands with their options. `read_words` returns the `Settings` that the words give, or
//! `None` for words of no command, and doesn't allocate. `Settings::action` is what the command does: process a stream
//! (`Task`), make records (`Series`), or print. `help_text` writes the table. Uses `cip_mol` and `cip_rank` for two
//! values.
#![tactic(auto)]

mod command_table;
mod help;
mod numbers;
mod option_values;
mod settings;

pub use help::help_text;
pub use settings::{Action, Labelling, Series, Settings, Task, read_words};
