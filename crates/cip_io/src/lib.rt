//! Sources and sinks of bytes.
//!
//! `Source::pull` and `Sink::push` are the traits. Each object counts its failed calls, and a call fails only if that
//! count rises. Objects over memory (`MemSource`, `SteadySource`, `MemSink`) also know their bytes, so contracts can
//! speak of them. `StdSource` and `StdSink` adapt std's readers and writers, of whose bytes contracts say nothing.
//! `push_all` writes a whole piece, and `WriteBuffer` collects small pieces for one write. This crate uses std alone.
#![tactic(auto)]

mod memory;
mod std_adapters;
mod stream;
mod write_buffer;

pub use memory::{MemSink, MemSource, SteadySource};
pub use std_adapters::{StdSink, StdSource};
pub use stream::{Failed, Sink, Source, push_all};
pub use write_buffer::WriteBuffer;
