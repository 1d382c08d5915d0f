// Sources and sinks over memory, and streams in pieces.
pub mod memory;
pub mod pieces;
