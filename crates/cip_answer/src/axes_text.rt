// The text of a record.
ghost use Rattle.std.specs.Prelude.{◌≡◌, ◌<◌, ◌-◌, ◌^◌, IfOk, length};
ghost use Rattle.cip_answer.specs.AxesTexts.{axes_without_items, is_flagged_without_items};

use crate::axis_units::further_of_lines;
use crate::record_answer::is_flagged;
use cip_label::{Labeller, RootRanker};
use cip_print::explain_text;
use cip_rank::Rules;
use cip_text::{Bytes, RecordLines};
use std::alloc::{AllocError, Global};

/// What is written for the further units of a record, and whether it is refused or a digraph is larger than the bound.
#[derive(Drop)]
pub struct AxesText {
    pub text: Bytes,
    pub flagged: bool,
}

/// What is written for the further units of the record of this number, which has no label items: a line for each, with
/// its ligands in the order that its label rests on, or with the reason why it has none.
#[tactic(auto, unfolding(crate::specs::AxesTexts::axes_without_items, crate::specs::AxesTexts::is_flagged_without_items))]
pub fn axes_of_lines<D: RootRanker>(
    alloc: Global,
    labeller: &mut Labeller<D>,
    lines: &RecordLines,
    number: u64,
    rules: Rules,
) -> Result<AxesText, AllocError>
    requires few { length lines.now < 2 ^ 32 - 1 }
    ensures text { IfOk result (λ axes. axes.text ≡ axes_without_items rules labeller.old number lines.now) }
    ensures flagged { IfOk result (λ axes. axes.flagged ≡ is_flagged_without_items rules labeller.old lines.now) }
    ensures kept { labeller.new ≡ labeller.old }
{
    let Ok(answer) = further_of_lines(alloc, labeller, lines.contents(), rules) else {
        return Err(AllocError);
    };
    match explain_text(alloc, &answer, number) {
        Ok(text) => Ok(AxesText {
            text: Bytes::from_vec(text),
            flagged: is_flagged(&answer),
        }),
        Err(fault) => Err(fault),
    }
}
