//! A second reading of command lines, by `clap`, which the program doesn't use.
//!
//! The one test, `words_agree`, has `clap` and `cip_words` read words of all nine commands, and compares both readings.
//! Without tests the crate is empty.
#![tactic(auto)]

#[cfg(test)]
mod words_agree;
