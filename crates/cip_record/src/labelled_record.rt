// A single record with the outcomes of its units.
ghost use Rattle.std.specs.Prelude.{◌≡◌, ◌≤◌, ◌<◌, ◌-◌, ◌^◌, IfOk, length};
ghost use Rattle.cip_print.specs.Values.{HasRoom};
ghost use Rattle.cip_answer.specs.Answers.{answer_by, answer_without_items};

use crate::with_labeller::{LabellerTask, with_new_labeller};
use cip_answer::label_lines;
use cip_label::{Labeller, RootRanker};
use cip_print::Answer;
use cip_rank::Rules;
use cip_text::RecordLines;
use std::alloc::{AllocError, Global};

/// The answer to a record, whose label items are taken out first. No digraph may have more than `nodes` nodes.
pub fn label_record(
    alloc: Global,
    bytes: &[u8],
    nodes: u32,
    rules: Rules,
) -> Result<Answer, AllocError>
    requires few { length bytes.now < 2 ^ 32 - 1 }
    requires some { 1 ≤ nodes }
    requires bounded { nodes ≤ 1000000 }
    ensures answer { IfOk result (λ answer. answer ≡ answer_by rules nodes bytes.now) }
    ensures room { IfOk result HasRoom }
{
    with_new_labeller(alloc, bytes, nodes, &LabelErrand { rules })
}

// By which wording of the rules a record is to be labelled.
#[derive(Clone, Copy)]
struct LabelErrand {
    rules: Rules,
}

impl LabellerTask for LabelErrand {
    type Answer = Answer;

    ghost answers = { λ task bound bytes answer.
        (answer ≡ answer_without_items task.rules bound bytes) × HasRoom answer };

    fn run<D: RootRanker>(
        &self,
        alloc: Global,
        labeller: &mut Labeller<D>,
        lines: &RecordLines,
    ) -> Result<Answer, AllocError> {
        label_lines(alloc, labeller, lines, self.rules)
    }
}
