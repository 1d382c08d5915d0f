// A record with a label item put in.
ghost use Rattle.std.specs.Prelude.{◌≡◌, ◌-◌, ◌^◌, ◌++◌, [], false, min, IfOk, OnOk, if◌then◌else◌};
ghost use Rattle.std.specs.List.{flat_map};
ghost use Rattle.cip_text.specs.Slices.{texts};
ghost use Rattle.cip_item.specs.Putting.{has_returns, line_end_for, missing_end, needs_gap, heading, item, with_item};
ghost use Rattle.cip_item.specs.Room.{room_of};

use crate::line_kinds::LABEL_NAME;
use crate::sections::has_molecule_end;
use cip_text::{Bytes, List32, RecordLines, is_blank};
use std::alloc::{AllocError, Global};

/// Texts in order, as the values of an item.
pub type Texts = List32<Bytes>;

// The end of the last line, the heading with its end, and the empty lines before and after the item: each end is CRLF
// at most.
const ITEM_ROOM: usize = 2 + (2 + LABEL_NAME.len() + 2) + 2 + 2;

/// Puts a label item into a record, with a line for each value: before the terminator line, or at the end where there
/// is none.
pub fn with_item(alloc: Global, bytes: &[u8], values: &Texts) -> Result<Vec<u8>, AllocError>
    ensures { IfOk result (λ text. text.items ≡ with_item bytes.now values.now) }
{
    match RecordLines::new(alloc, bytes) {
        Ok(lines) => lines_with_item(alloc, &lines, values),
        Err(error) => Err(error),
    }
}

/// `with_item` for a caller that has the lines of the record.
pub fn lines_with_item(
    alloc: Global,
    lines: &RecordLines,
    values: &Texts,
) -> Result<Vec<u8>, AllocError>
    ensures { IfOk result (λ text. text.items ≡ with_item lines.now values.now) }
{
    let room = room_for(values).saturating_add(ITEM_ROOM);
    match Vec::with_capacity(alloc, lines.bytes().len().saturating_add(room)) {
        Ok(mut text) => match put_record(&mut text, lines, values) {
            Ok(()) => Ok(text),
            Err(error) => Err(error),
        },
        Err(error) => Err(error),
    }
}

// The record with the item in it.
fn put_record(text: &mut Vec<u8>, lines: &RecordLines, values: &Texts) -> Result<(), AllocError>
    ensures { OnOk result (text.new.items ≡ text.old.items ++ with_item lines.now values.now) }
{
    let end = line_end_for(lines.bytes());
    if let Ok(()) = put_line(text, lines.body(), missing_end(end, lines.body()))
        && let Ok(()) = text.extend_from_slice(gap(end, lines.contents()))
        && let Ok(()) = put_item(text, end, values)
    {
        text.extend_from_slice(lines.trailer())
    } else {
        Err(AllocError)
    }
}

fn room_for(values: &Texts) -> usize
    ensures { result ≡ min (2 ^ 64 - 1) (room_of values.now) }
{
    let mut room: usize = 0;
    let texts = values.as_slice();
    for text in texts {
        let line = text.as_slice().len().saturating_add(2);
        room = room.saturating_add(line);
    }
    room
}

fn put_item(text: &mut Vec<u8>, end: &[u8], values: &Texts) -> Result<(), AllocError>
    ensures { OnOk result (text.new.items ≡ text.old.items ++ item end.now values.now) }
{
    if let Ok(()) = put_heading(text)
        && let Ok(()) = text.extend_from_slice(end)
        && let Ok(()) = put_values(text, end, values)
    {
        text.extend_from_slice(end)
    } else {
        Err(AllocError)
    }
}

#[tactic(auto, unfolding(crate::specs::Putting::heading), using(crate::proofs::lemmas::Joining::two_joined))]
fn put_heading(text: &mut Vec<u8>) -> Result<(), AllocError>
    ensures { OnOk result (text.new.items ≡ text.old.items ++ heading) }
{
    match text.extend_from_slice(b"> ".as_slice()) {
        Ok(()) => text.extend_from_slice(LABEL_NAME),
        Err(error) => Err(error),
    }
}

// One line for each value.
fn put_values(text: &mut Vec<u8>, end: &[u8], values: &Texts) -> Result<(), AllocError>
    ensures { OnOk result (text.new.items ≡ text.old.items ++ flat_map (λ value. value ++ end.now) values.now) }
{
    let values = values.as_slice();
    for value in values {
        let Ok(()) = put_line(text, value.as_slice(), end) else {
            return Err(AllocError);
        };
    }
    Ok(())
}

fn put_line(text: &mut Vec<u8>, content: &[u8], end: &[u8]) -> Result<(), AllocError>
    ensures { OnOk result (text.new.items ≡ text.old.items ++ (content.now ++ end.now)) }
{
    match text.extend_from_slice(content) {
        Ok(()) => text.extend_from_slice(end),
        Err(error) => Err(error),
    }
}

// The line end of a record, by its first LF.
fn line_end_for(bytes: &[u8]) -> &'static [u8]
    ensures { result.now ≡ line_end_for bytes.now }
{
    if has_returns(bytes) {
        b"\r\n".as_slice()
    } else {
        b"\n".as_slice()
    }
}

fn has_returns(bytes: &[u8]) -> bool
    ensures { result ≡ has_returns false bytes.now }
{
    let mut behind_return = false;
    for byte in bytes {
        if *byte == b'\n' {
            return behind_return;
        }
        behind_return = *byte == b'\r';
    }
    behind_return
}

// What the last line of a body lacks.
fn missing_end<'a>(end: &'a [u8], body: &[u8]) -> &'a [u8]
    ensures { result.now ≡ missing_end end.now body.now }
{
    match body {
        [] | [.., b'\n'] => b"".as_slice(),
        [.., b'\r'] => b"\r\n".as_slice(),
        _ => end,
    }
}

// An empty line before the item, where it would otherwise go on from another one.
fn gap<'a>(end: &'a [u8], contents: &[&[u8]]) -> &'a [u8]
    ensures { result.now ≡ (if needs_gap false false (texts contents.now) then end.now else []) }
{
    if needs_gap(contents) {
        end
    } else {
        b"".as_slice()
    }
}

// The last line is asked first.
fn needs_gap(contents: &[&[u8]]) -> bool
    ensures { result ≡ needs_gap false false (texts contents.now) }
{
    match contents {
        [before @ .., last] => !is_blank(last) && has_molecule_end(before),
        [] => false,
    }
}
