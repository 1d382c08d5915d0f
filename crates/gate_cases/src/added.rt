// What a text adds to another one.
use bstr::ByteSlice;
use std::alloc::{AllocError, Global};

/// The lines that a text has between those of another one, each run of them below the line after which it comes. None
/// where that isn't all that it has, and where the other one is empty.
pub fn lines_added(
    alloc: Global,
    before: &[u8],
    after: &[u8],
) -> Result<Option<Vec<u8>>, AllocError> {
    let mut text = Vec::new(alloc);
    let mut left = before;
    let mut number = 0u32;
    let mut is_adding = false;
    for line in after.lines_with_terminator() {
        if let Some(rest) = left.strip_prefix(line) {
            left = rest;
            number = number.saturating_add(1);
            is_adding = false;
        } else {
            if !is_adding {
                text.extend_from_slice(heading(alloc, number)?.as_bytes())?;
            }
            text.extend_from_slice(line)?;
            is_adding = true;
        }
    }
    if before.is_empty() || !left.is_empty() {
        return Ok(None);
    }
    Ok(Some(text))
}

fn heading(alloc: Global, number: u32) -> Result<String, AllocError> {
    format!(in alloc; "+ behind line {number} of the input:\n")
}
