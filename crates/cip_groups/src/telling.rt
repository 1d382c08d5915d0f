// What is written for the groups of a single record.
ghost use Rattle.std.specs.Prelude.{◌≡◌, ◌≤◌, ◌<◌, ◌-◌, ◌^◌, IfOk, length};
ghost use Rattle.cip_stereogroups.specs.Texts.{told_of, told_without_items, with_number};

use cip_label::{Labeller, RootRanker};
use cip_rank::Rules;
use cip_record::{LabellerTask, with_new_labeller};
use cip_stereogroups::{GroupText, groups_of_lines};
use cip_text::RecordLines;
use std::alloc::{AllocError, Global};

/// What is written for the groups of the record of this number, whose label items are taken out first.
pub fn group_text(
    alloc: Global,
    bytes: &[u8],
    number: u64,
    nodes: u32,
    rules: Rules,
) -> Result<GroupText, AllocError>
    requires few { length bytes.now < 2 ^ 32 - 1 }
    requires some { 1 ≤ nodes }
    requires bounded { nodes ≤ 1000000 }
    ensures { IfOk result (λ output. output ≡ told_of rules nodes number bytes.now) }
{
    with_new_labeller(alloc, bytes, nodes, &GroupsErrand { number, rules })
}

// The number of a record whose groups are asked for, and by which wording of the rules their centres are labelled.
#[derive(Clone, Copy)]
struct GroupsErrand {
    number: u64,
    rules: Rules,
}

impl LabellerTask for GroupsErrand {
    type Answer = GroupText;

    ghost answers = { λ task bound bytes output.
        output ≡ with_number task.number (told_without_items task.rules bound bytes) };

    fn run<D: RootRanker>(
        &self,
        alloc: Global,
        labeller: &mut Labeller<D>,
        lines: &RecordLines,
    ) -> Result<GroupText, AllocError> {
        groups_of_lines(alloc, labeller, lines, self.number, self.rules)
    }
}
