// A record without its label items.
ghost use Rattle.std.specs.Prelude.{◌≡◌, ◌≤◌, ◌+◌, ◌++◌, IfOk, OnOk, false, length};
ghost use Rattle.cip_text.specs.Slices.{texts};
ghost use Rattle.cip_item.specs.Parts.{first_part, has_label_item, has_label_part, without_label_items};

use crate::line_kinds::holds_label_name;
use crate::sections::Part;
use cip_text::{RecordLines, split_body_line, trim_line_end};
use std::alloc::{AllocError, Global};

/// Leaves the lines of label items out. Every other line stays, and so does what follows the terminator line.
pub fn without_label_items(alloc: Global, bytes: &[u8]) -> Result<Vec<u8>, AllocError>
    ensures value { IfOk result (λ text. text.items ≡ without_label_items bytes.now) }
    ensures few { IfOk result (λ text. length text.items ≤ length bytes.now) }
{
    match RecordLines::new(alloc, bytes) {
        Ok(lines) => lines_without_label_items(alloc, &lines),
        Err(error) => Err(error),
    }
}

/// `without_label_items` for a caller that has the lines of the record.
pub fn lines_without_label_items(alloc: Global, lines: &RecordLines) -> Result<Vec<u8>, AllocError>
    ensures value { IfOk result (λ text. text.items ≡ without_label_items lines.now) }
    ensures few { IfOk result (λ text. length text.items ≤ length lines.now) }
{
    match Vec::with_capacity(alloc, lines.bytes().len()) {
        Ok(mut text) => match put_kept(&mut text, lines) {
            Ok(()) => Ok(text),
            Err(error) => Err(error),
        },
        Err(error) => Err(error),
    }
}

// The record without the lines of label items.
fn put_kept(text: &mut Vec<u8>, lines: &RecordLines) -> Result<(), AllocError>
    ensures value { OnOk result (text.new.items ≡ text.old.items ++ without_label_items lines.now) }
    ensures few { OnOk result (length text.new.items ≤ length text.old.items + length lines.now) }
{
    let mut part = Part::before(lines.contents());
    let mut rest = lines.bytes();
    while let Some((line, behind)) = split_body_line(rest) {
        let content = trim_line_end(line);
        part = part.of_line(content);
        if !part.is_label_item() {
            let Ok(()) = text.extend_from_slice(line) else {
                return Err(AllocError);
            };
        }
        part = part.behind(content);
        rest = behind;
    }
    text.extend_from_slice(rest)
}

/// Whether some line of a record belongs to a label item. Where none does the record is itself without its label items.
#[tactic(auto, using(crate::proofs::lemmas::Walking::itself, crate::proofs::lemmas::Unnamed::unnamed))]
pub fn has_label_item(lines: &RecordLines) -> bool
    ensures value { result ≡ has_label_item lines.now }
    ensures none { result ≡ false → without_label_items lines.now ≡ lines.now }
{
    holds_label_name(lines.bytes()) && has_label_part(lines.contents())
}

fn has_label_part(contents: &[&[u8]]) -> bool
    ensures { result ≡ has_label_part (first_part (texts contents.now)) (texts contents.now) }
{
    let mut part = Part::before(contents);
    for content in contents {
        part = part.of_line(content);
        if part.is_label_item() {
            return true;
        }
        part = part.behind(content);
    }
    false
}
