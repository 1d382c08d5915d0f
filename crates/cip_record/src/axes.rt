// A single record with the outcomes of its further units.
ghost use Rattle.std.specs.Prelude.{◌≡◌, ◌≤◌, ◌<◌, ◌-◌, ◌^◌, IfOk, length};
ghost use Rattle.cip_answer.specs.AxesTexts.{are_axes_flagged, axes_of, axes_without_items, is_flagged_without_items};

use crate::with_labeller::{LabellerTask, with_new_labeller};
use cip_answer::{AxesText, axes_of_lines};
use cip_label::{Labeller, RootRanker};
use cip_rank::Rules;
use cip_text::RecordLines;
use std::alloc::{AllocError, Global};

/// What is written for the further units of the record of this number, whose label items are taken out first: a line
/// for each, with its ligands in the order that its label rests on, or with the reason why it has none. No digraph may
/// have more than `nodes` nodes.
pub fn axes_text(
    alloc: Global,
    bytes: &[u8],
    number: u64,
    nodes: u32,
    rules: Rules,
) -> Result<AxesText, AllocError>
    requires few { length bytes.now < 2 ^ 32 - 1 }
    requires some { 1 ≤ nodes }
    requires bounded { nodes ≤ 1000000 }
    ensures text { IfOk result (λ axes. axes.text ≡ axes_of rules nodes number bytes.now) }
    ensures flagged { IfOk result (λ axes. axes.flagged ≡ are_axes_flagged rules nodes bytes.now) }
{
    with_new_labeller(alloc, bytes, nodes, &AxesErrand { number, rules })
}

// The number of a record whose further units are asked for, and by which wording of the rules they are labelled.
#[derive(Clone, Copy)]
struct AxesErrand {
    number: u64,
    rules: Rules,
}

impl LabellerTask for AxesErrand {
    type Answer = AxesText;

    ghost answers = { λ task bound bytes axes.
        (axes.text ≡ axes_without_items task.rules bound task.number bytes)
        × (axes.flagged ≡ is_flagged_without_items task.rules bound bytes) };

    fn run<D: RootRanker>(
        &self,
        alloc: Global,
        labeller: &mut Labeller<D>,
        lines: &RecordLines,
    ) -> Result<AxesText, AllocError> {
        axes_of_lines(alloc, labeller, lines, self.number, self.rules)
    }
}
