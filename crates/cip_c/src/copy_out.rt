// Texts written into memory that a caller gives.
ghost use Rattle.std.specs.Prelude.{◌≡◌, length, pos, MatchResult, Ok};
ghost use Rattle.cip_c.specs.Texts.{text_of};
ghost use Rattle.cip_c.specs.Writing.{IsTold, due, written};

use crate::labeller::LONGEST;
use crate::labeller_slot::Slot;
use crate::status_codes::{NO_MEMORY, NOT_MADE, RECORD_TOO_LONG};
use crate::text_kinds::Text;
use std::alloc::AllocError;

/// Writes the text of a record that is asked for, or the front of it. The answer is how many bytes the whole has, or
/// why nothing is written.
pub(crate) fn write(slot: &mut Slot, requested: Text, bytes: &[u8], text: &mut [u8]) -> i64
    ensures kept { slot.new ≡ slot.old }
    ensures output { IsTold (due (text_of requested) slot.old bytes.now) result }
    ensures written { text.new ≡ written result (due (text_of requested) slot.old bytes.now) text.old }
{
    let Some(labeller) = &mut slot.labeller else {
        return NOT_MADE;
    };
    if bytes.len() > LONGEST {
        return RECORD_TOO_LONG;
    }
    put(labeller.text(requested, bytes), text)
}

// Writes a text or its front, where there was memory for it.
fn put(due: Result<Vec<u8>, AllocError>, text: &mut [u8]) -> i64
    ensures output { MatchResult due
        (λ due. result ≡ pos (length due.items)) (λ _. result ≡ NO_MEMORY) }
    ensures written { MatchResult due
        (λ due. text.new ≡ written result (Ok due.items) text.old) (λ _. text.new ≡ text.old) }
{
    match due {
        Ok(due) => put_front(&due, text),
        Err(_) => NO_MEMORY,
    }
}

fn put_front(due: &[u8], text: &mut [u8]) -> i64
    ensures output { result ≡ pos (length due.now) }
    ensures written { text.new ≡ written result (Ok due.now) text.old }
{
    let count = due.len().min(text.len());
    text[..count].copy_from_slice(&due[..count]);
    due.len() as i64
}
