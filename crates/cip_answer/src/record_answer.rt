// The answer to a record.
ghost use Rattle.std.specs.Prelude.{◌≡◌, ◌<◌, ◌-◌, ◌^◌, IfOk, length};
ghost use Rattle.std.specs.List.{list_any};
ghost use Rattle.cip_print.specs.Values.{HasRoom};
ghost use Rattle.cip_answer.specs.Answers.{
  answer_without_items,
  is_flagged,
  is_over,
  of_molecule,
};

use crate::units::label_units;
use cip_label::{LabelContext, Labeller, RootRanker};
use cip_mol::Outcome;
use cip_molfile::Structure;
use cip_print::{Answer, UnitAnswer};
use cip_rank::Rules;
use cip_text::RecordLines;
use std::alloc::{AllocError, Global};
use std::marker::Brand;
use std::sync::ledger::Blank;

/// The answer to a record that has no label items. Over any ranker: one is large, so a program names it in one place.
#[tactic(auto, unfolding(crate::specs::Answers::answer_without_items))]
pub fn label_lines<D: RootRanker>(
    alloc: Global,
    labeller: &mut Labeller<D>,
    lines: &RecordLines,
    rules: Rules,
) -> Result<Answer, AllocError>
    requires few { length lines.now < 2 ^ 32 - 1 }
    ensures answer { IfOk result (λ answer. answer ≡ answer_without_items rules labeller.old lines.now) }
    ensures room { IfOk result HasRoom }
    ensures kept { labeller.new ≡ labeller.old }
{
    match Structure::read(alloc, lines.contents()) {
        Ok(Ok(drawn)) => {
            let answer = answer_drawn(alloc, labeller, &drawn, rules);
            drawn.release();
            answer
        }
        Ok(Err(fault)) => Ok(Answer::Refused(fault)),
        Err(fault) => Err(fault),
    }
}

// The answer of a structure.
// proof: the caller keeps the structure, so no exit drops it
fn answer_drawn<D: RootRanker>(
    alloc: Global,
    labeller: &mut Labeller<D>,
    drawn: &Structure,
    rules: Rules,
) -> Result<Answer, AllocError>
    ensures answer { IfOk result (λ answer. answer ≡ of_molecule rules labeller.old drawn.now) }
    ensures room { IfOk result HasRoom }
    ensures kept { labeller.new ≡ labeller.old }
{
    let units = drawn.units().list();
    let Ok(setting) = LabelContext::new(alloc, drawn.graph(), drawn.positions(), units, rules)
    else {
        return Err(AllocError);
    };
    match label_units::<D, Brand>(alloc, labeller, &setting, Blank::new(1)) {
        Ok(answers) => Ok(Answer::Labelled(answers)),
        Err(fault) => Err(fault),
    }
}

/// Whether a record is refused, or a digraph of it is larger than the bound.
pub fn is_flagged(answer: &Answer) -> bool
    ensures { result ≡ is_flagged answer.now }
{
    match answer {
        Answer::Labelled(units) => has_over(units.as_slice()),
        Answer::Refused(_) => true,
    }
}

fn has_over(units: &[UnitAnswer]) -> bool
    ensures { result ≡ list_any (λ unit. is_over unit.outcome) units.now }
{
    for unit in units {
        if matches!(unit.outcome, Outcome::Over) {
            return true;
        }
    }
    false
}
