// The answer to a record by its further units.
ghost use Rattle.std.specs.Prelude.{◌≡◌, ◌<◌, ◌-◌, ◌^◌, IfOk, length, map};
ghost use Rattle.cip_text.specs.Slices.{texts};
ghost use Rattle.cip_digraph.specs.graph.DrawnGraph.{graph_of};
ghost use Rattle.cip_axis.specs.FurtherOutcomes.{AreFurtherFit};
ghost use Rattle.cip_answer.specs.FurtherAnswers.{
  further_answer,
  further_answers,
  further_name,
  further_of_lines,
  further_of_molecule,
};

use cip_axis::{FurtherSite, FurtherUnit, further, label_further, to_site};
use cip_label::{LabelContext, Labeller, RootRanker};
use cip_molfile::Structure;
use cip_print::{Answer, UnitAnswer, UnitAnswers, UnitName};
use cip_rank::{Rules, Steps};
use std::alloc::{AllocError, Global};
use std::marker::Brand;
use std::sync::ledger::{Blank, Ledger};

/// The answer to the lines of a record that has no label items, by its further units alone.
#[tactic(auto, unfolding(crate::specs::FurtherAnswers::further_of_lines))]
pub fn further_of_lines<D: RootRanker>(
    alloc: Global,
    labeller: &mut Labeller<D>,
    lines: &[&[u8]],
    rules: Rules,
) -> Result<Answer, AllocError>
    requires { length lines.now < 2 ^ 32 - 1 }
    ensures answer { IfOk result (λ answer. answer ≡ further_of_lines rules labeller.old (texts lines.now)) }
    ensures kept { labeller.new ≡ labeller.old }
{
    match Structure::read(alloc, lines) {
        Ok(Ok(drawn)) => {
            let answer = answer_drawn(alloc, labeller, &drawn, rules);
            drawn.release();
            answer
        }
        Ok(Err(fault)) => Ok(Answer::Refused(fault)),
        Err(fault) => Err(fault),
    }
}

// The answer of a structure.
// proof: the caller keeps the structure, so no exit drops it
#[tactic(auto, unfolding(crate::specs::FurtherAnswers::further_of_molecule))]
fn answer_drawn<D: RootRanker>(
    alloc: Global,
    labeller: &mut Labeller<D>,
    drawn: &Structure,
    rules: Rules,
) -> Result<Answer, AllocError>
    ensures answer { IfOk result (λ answer. answer ≡ further_of_molecule rules labeller.old drawn.now) }
    ensures kept { labeller.new ≡ labeller.old }
{
    match further(alloc, drawn.molecule(), drawn.graph(), drawn.positions()) {
        Ok(further) => answer_further(alloc, labeller, drawn, further.list(), rules),
        Err(fault) => Err(fault),
    }
}

// The answer of its further units.
// proof: the caller keeps them too
fn answer_further<D: RootRanker>(
    alloc: Global,
    labeller: &mut Labeller<D>,
    drawn: &Structure,
    further: &[FurtherUnit],
    rules: Rules,
) -> Result<Answer, AllocError>
    requires fit { AreFurtherFit (graph_of drawn.now) further.now }
    requires few { length further.now < 2 ^ 32 }
    ensures answer { IfOk result (λ answer. answer ≡ further_answers rules labeller.old drawn.now further.now) }
    ensures kept { labeller.new ≡ labeller.old }
{
    let units = drawn.units().list();
    let Ok(setting) = LabelContext::new(alloc, drawn.graph(), drawn.positions(), units, rules)
    else {
        return Err(AllocError);
    };
    match label_all::<D, Brand>(alloc, labeller, &setting, further, Blank::new(1)) {
        Ok(answers) => Ok(Answer::Labelled(answers)),
        Err(fault) => Err(fault),
    }
}

// Further units, each with its outcome, with a counter of steps.
fn label_all<D: RootRanker, L: Ledger>(
    alloc: Global,
    labeller: &mut Labeller<D>,
    setting: &LabelContext<'_>,
    units: &[FurtherUnit],
    blank: Blank,
) -> Result<UnitAnswers, AllocError>
    requires name { blank.name ≡ L.name }
    requires parts { blank.parts ≡ L.parts }
    requires one { 0 < blank.parts }
    requires fit { AreFurtherFit setting.now.graph units.now }
    requires few { length units.now < 2 ^ 32 }
    ensures answers { IfOk result (λ answers. answers ≡ map (further_answer setting.now labeller.old) units.now) }
    ensures kept { labeller.new ≡ labeller.old }
{
    let mut steps = Steps::<L>::open(blank);
    let mut answers = UnitAnswers::new(alloc);
    for unit in units {
        let Ok(outcome) = label_further(alloc, labeller, setting, unit, &mut steps) else {
            return Err(AllocError);
        };
        let answer = UnitAnswer {
            name: further_name(&unit.site),
            site: to_site(&unit.site),
            drawn: setting.graph().drawn(),
            outcome,
        };
        let Ok(()) = answers.push(answer) else {
            return Err(AllocError);
        };
    }
    Ok(answers)
}

fn further_name(site: &FurtherSite) -> UnitName
    ensures { result ≡ further_name site.now }
{
    match site {
        FurtherSite::Cumulene { a, b, .. } => UnitName::Cumulene(*a, *b),
        FurtherSite::Biaryl { a, b, .. } => UnitName::Biaryl(*a, *b),
    }
}
