//! The library for C and Python: `include/cip.h`.
//!
//! ```c
//! cip_labeller labeller;
//! if (cip_make(&labeller, CIP_NODES, CIP_WORDING) != 0) return 5;
//! int64_t length = cip_annotate(&labeller, record, record_length, text, room);
//! if (length > room) { /* only the first `room` bytes were written: call again with `length` bytes */ }
//! cip_release(&labeller);
//! ```
//!
//! `examples/label.c` is a whole program, and `python/cip` is a module over the same calls.
//!
//! - `cip_make` makes a labeller in memory that the caller provides, `cip_release` drops it. A labeller serves any
//!   number of records, one call at a time, from any thread.
//! - `cip_annotate`, `cip_values`, `cip_explain` and `cip_undefined` return the length of the text and write it, or as
//!   much of it as there is room for. A negative result says why there is none, and nothing is written.
//! - Null pointers, settings out of range, records of 2^31 bytes or more and released labellers give a negative result.
//!   What no call can test is listed in the header, for example that `room` bytes are there.
//!
//! Each export checks its pointers and lends what they point to to a safe function (`labeller_slot`, `copy_out`). The
//! contracts, in separation logic, say that all memory comes back and nothing else is touched (`IsTold`, `written`).
//! They rest on the conditions of the header. `unsafe` occurs in `exports.rt` alone, whose functions are proved by
//! hand. That C sees the same bytes as the program, and that header and exports agree, is tested (`tools/inside`). Uses
//! `cip_answer` with the `Ranker` of `cip_ranker`, and `cip_undefined`.
#![tactic(auto)]

mod copy_out;
mod exports;
mod labeller;
mod labeller_slot;
mod settings;
mod status_codes;
mod text_kinds;
