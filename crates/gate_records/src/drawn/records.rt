// Records of rows.
use bstr::ByteSlice;
use gate_tables::Row;
use std::alloc::{AllocError, Global};

/// A record whose lines are changed as a row's fields from this one on say, at most twice.
pub fn changed_record(
    alloc: Global,
    row: &Row,
    record: &[u8],
    place: usize,
) -> Result<Vec<u8>, AllocError> {
    let once = changed(alloc, record, row, place)?;
    changed(alloc, &once, row, place.saturating_add(3))
}

// The record with other text in the place of some lines: the first line, how many go, and what is there then.
fn changed(alloc: Global, record: &[u8], row: &Row, place: usize) -> Result<Vec<u8>, AllocError> {
    let first = row.number(place);
    let past = first.saturating_add(row.number(place.saturating_add(1)));
    let text = row.field(place.saturating_add(2));
    let mut bytes = Vec::new(alloc);
    push_changed(&mut bytes, record, (first, past), text.as_bytes())?;
    Ok(bytes)
}

// Adds the lines of a record, and a text in place of those from the first of these numbers to below the second.
fn push_changed(
    bytes: &mut Vec<u8>,
    record: &[u8],
    lines: (u32, u32),
    text: &[u8],
) -> Result<(), AllocError> {
    let (first, past) = lines;
    let mut number = 0u32;
    for line in record.lines_with_terminator() {
        number = number.saturating_add(1);
        if number == first {
            bytes.extend_from_slice(text)?;
        }
        if number < first || number >= past {
            bytes.extend_from_slice(line)?;
        }
    }
    Ok(())
}
