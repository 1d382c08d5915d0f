//! The records of an SDfile that arrives in pieces.
//!
//! `Framer::feed` takes the next piece of the stream, `next` hands out the oldest whole record, and `finish` gives the
//! rest after the last terminator line. A record ends with a line that holds `$$$$` and spaces at most. A record above
//! the limit is refused, and so is every piece after it (`FrameFault`). Uses the lines of `cip_text`.
#![tactic(auto)]

mod fault;
mod framer;
mod record;

pub use fault::FrameFault;
pub use framer::Framer;
pub use record::{Record, Tail};
