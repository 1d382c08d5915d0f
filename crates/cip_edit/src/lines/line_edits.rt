// A record whose lines are edited.
ghost use Rattle.std.specs.Prelude.{◌≡◌, ◌≤◌, ◌<◌, ◌^◌, ◌++◌, ◌+◌, [], List, ℕ, IfOk, OnOk, length};
ghost use Rattle.cip_text.specs.Lines.{content_of, end_of};
ghost use Rattle.cip_edit.specs.Edits.{Edit, edited};

use cip_text::{split_body_line, trim_line_end};
use std::alloc::{AllocError, Global};

/// What is written for the lines of a record.
pub trait LineEdit {
    /// The content that is written for the content of a line, by the number of the line from 0.
    ghost edit: { Self → ℕ → List ℕ → List ℕ };

    /// Adds what is written for a line.
    fn push(
        &self,
        alloc: Global,
        text: &mut Vec<u8>,
        number: usize,
        content: &[u8],
    ) -> Result<(), AllocError>
        ensures { OnOk result (text.new.items ≡ text.old.items ++ edit self.now number content.now) };
}

/// A record with its lines before the terminator line edited, one by one; line ends, and all else, stay.
pub fn edit_record<E: LineEdit>(
    alloc: Global,
    edit: &E,
    bytes: &[u8],
) -> Result<Vec<u8>, AllocError>
    ensures { IfOk result (λ text. text.items ≡ edited (E.edit edit.now) bytes.now) }
{
    let Ok(mut text) = Vec::with_capacity(alloc, bytes.len()) else {
        return Err(AllocError);
    };
    match push_edited(alloc, edit, bytes, &mut text) {
        Ok(()) => Ok(text),
        Err(fault) => Err(fault),
    }
}

// Adds the edited record to a text that is empty yet.
#[tactic(auto, using(cip_text::proofs::lemmas::Contents::content_shorter))]
fn push_edited<E: LineEdit>(
    alloc: Global,
    edit: &E,
    bytes: &[u8],
    text: &mut Vec<u8>,
) -> Result<(), AllocError>
    requires { text.old.items ≡ [] }
    ensures { OnOk result (text.new.items ≡ edited (E.edit edit.now) bytes.now) }
{
    let mut rest = bytes;
    let mut number = 0;
    while let Some((line, behind)) = split_body_line(rest) {
        let content = trim_line_end(line);
        edit.push(alloc, text, number, content)?;
        text.extend_from_slice(&line[content.len()..])?;
        rest = behind;
        number += 1;
    }
    text.extend_from_slice(rest)
}
