// A single record in which a centre is to have a letter.
ghost use Rattle.std.specs.Prelude.{◌≡◌, ◌≤◌, ◌<◌, ◌-◌, ◌^◌, IfOk, length};
ghost use Rattle.cip_edit.specs.SetAnswers.{set_answer, set_without_items, IsFew};
ghost use Rattle.cip_set.specs.SetLabels.{GivesLetter};

use cip_edit::{SetAnswer, set_letter_in_lines};
use cip_label::{Labeller, RootRanker};
use cip_mol::CentreLetter;
use cip_rank::Rules;
use cip_record::{LabellerTask, with_new_labeller};
use cip_text::RecordLines;
use std::alloc::{AllocError, Global};

/// The record, without label items, in which the centre at an atom, counted from 1, has the asked letter, by a mark at
/// its first ligand that can be marked. No digraph may have more than `nodes` nodes.
pub fn set_letter(
    alloc: Global,
    bytes: &[u8],
    atom: u32,
    letter: CentreLetter,
    nodes: u32,
    rules: Rules,
) -> Result<SetAnswer, AllocError>
    requires few { length bytes.now < 2 ^ 32 - 1 }
    requires some { 1 ≤ nodes }
    requires bounded { nodes ≤ 1000000 }
    ensures answer { IfOk result (λ answer. answer ≡ set_answer rules nodes atom letter bytes.now) }
    ensures gives { IfOk result (λ answer. GivesLetter rules nodes atom letter bytes.now answer) }
    ensures few { IfOk result (λ answer. IsFew bytes.now answer) }
{
    let task = LetterErrand {
        atom,
        letter,
        rules,
    };
    with_new_labeller(alloc, bytes, nodes, &task)
}

// A letter that is asked for the centre at an atom, counted from 1, and by which wording of the rules it is labelled.
#[derive(Clone, Copy)]
struct LetterErrand {
    atom: u32,
    letter: CentreLetter,
    rules: Rules,
}

impl LabellerTask for LetterErrand {
    type Answer = SetAnswer;

    ghost answers = { λ task bound bytes answer.
        answer ≡ set_without_items task.rules bound task.atom task.letter bytes };

    fn run<D: RootRanker>(
        &self,
        alloc: Global,
        labeller: &mut Labeller<D>,
        lines: &RecordLines,
    ) -> Result<SetAnswer, AllocError> {
        set_letter_in_lines(alloc, labeller, lines, self.atom, self.letter, self.rules)
    }
}
