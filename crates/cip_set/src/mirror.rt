// A single record that is mirrored.
ghost use Rattle.std.specs.Prelude.{◌≡◌, ◌<◌, ◌-◌, ◌^◌, length, IfOk};
ghost use Rattle.cip_edit.specs.Answers.{mirror_answer, GivesReflected, IsFew};

use cip_edit::{MirrorAnswer, mirror_lines};
use cip_item::without_label_items;
use cip_text::RecordLines;
use std::alloc::{AllocError, Global};

/// The record of the mirror image, without label items: every z that isn't 0 is negated, and single bonds marked up or
/// down get the other mark. Else no byte changes.
pub fn mirror_record(alloc: Global, bytes: &[u8]) -> Result<MirrorAnswer, AllocError>
    requires { length bytes.now < 2 ^ 32 - 1 }
    ensures answer { IfOk result (λ answer. answer ≡ mirror_answer bytes.now) }
    ensures reads { IfOk result (λ answer. GivesReflected bytes.now answer) }
    ensures few { IfOk result (λ answer. IsFew bytes.now answer) }
{
    let bare = without_label_items(alloc, bytes)?;
    let lines = RecordLines::new(alloc, &bare)?;
    mirror_lines(alloc, &lines)
}
