// Texts that answers are written to, and texts that they are read from.
pub mod text;
pub mod texts;
