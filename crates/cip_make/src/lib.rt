//! Made-up records.
//!
//! `record` returns the record of a number: chains of carbon atoms with substituents, drawn with and without wedges, by
//! a pseudorandom generator that begins anew with each number. So `make` and `trial` give the same records at each
//! call. Uses rand_pcg for numbers and `cip_text` for columns.
#![tactic(auto)]

mod chain;
mod lines;
mod making;

pub use making::record;
