// Records of a stream, and what follows them.
use cip_text::Bytes;

/// The bytes of a record with its terminator line and the end of that line, and whether it has a terminator line.
#[derive(Drop)]
pub struct Record {
    pub bytes: Bytes,
    pub closed: bool,
}

/// What follows the last terminator line that has its LF.
#[derive(Drop)]
pub enum Tail {
    Nothing,
    /// Spaces, tabs and line ends.
    Blank(Bytes),
    Last(Record),
}
