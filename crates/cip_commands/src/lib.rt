//! What each command does, and exit statuses.
//!
//! `run_command` parses the words and runs the command over a `WorkerPool`, a source and a sink; `write_diagnostic`
//! writes the line of its `ExitReason`. `TaskProcessor` is the `RecordProcessor` of the commands that read: it removes
//! label items, runs the task and returns the output. `specs/` says what each status means. All calls are generic over
//! `RootRanker`, so this crate and `cip_ranker` can be proved at the same time. Uses `cip_batch` and the crates of
//! section 'labels'.
#![tactic(auto)]

mod commands;
mod dispatch;
mod exit_reason;
pub mod exit_status;
mod make;
mod process_record;
mod series;
mod task_processor;
mod trial;
mod worker_state;

pub use dispatch::{run_command, write_diagnostic};
pub use exit_reason::{ChangeFailure, ChangeNote, ExitReason};
