// What is read and written.
pub mod gate;
pub mod input;
pub mod output;
pub mod stream;
