//! The calls of `records.txt`: records that are read, labelled, changed and printed.
//!
//! `Records` is the `Caller`. It also labels centres from symmetric ones and compares the result. Uses `gate_tables`
//! and the calls for single records.
#![tactic(auto)]

mod answering;
mod calls;
mod changing;
mod drawn;
mod further;
mod images;
mod inverted;
mod labelled;
mod printing;

pub use answering::Records;
