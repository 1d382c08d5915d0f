// The units of a graph, each with its outcome.
ghost use Rattle.std.specs.Prelude.{◌≡◌, ◌<◌, ◌-◌, ◌^◌, IfOk, length};
ghost use Rattle.cip_digraph.specs.rings.Positions.{positions_of};
ghost use Rattle.cip_answer.specs.Answers.{unit_answers};
ghost use Rattle.cip_answer.specs.SymmetryLabels.{AreFound};

use crate::symmetric_units::{SymmetryLabels, label_or_reuse};
use cip_label::{LabelContext, Labeller, RootRanker};
use cip_print::{UnitAnswer, UnitAnswers, name_of};
use cip_rank::Steps;
use std::alloc::{AllocError, Global};
use std::sync::ledger::{Blank, Ledger};

/// The units of a setting, each with its outcome, with a counter of steps.
pub fn label_units<D: RootRanker, L: Ledger>(
    alloc: Global,
    labeller: &mut Labeller<D>,
    setting: &LabelContext<'_>,
    blank: Blank,
) -> Result<UnitAnswers, AllocError>
    requires name { blank.name ≡ L.name }
    requires parts { blank.parts ≡ L.parts }
    requires one { 0 < blank.parts }
    requires drawn { setting.now.positions ≡ positions_of setting.now.graph }
    requires few { length setting.now.units < 2 ^ 32 - 1 }
    ensures answers { IfOk result
        (λ answers. answers ≡ unit_answers setting.now.rules labeller.old setting.now.graph setting.now.positions
        setting.now.units) }
    ensures few { IfOk result (λ answers. length answers < 2 ^ 32 - 1) }
    ensures kept { labeller.new ≡ labeller.old }
{
    let mut steps = Steps::<L>::open(blank);
    let mut images = SymmetryLabels::none(alloc);
    label_each(alloc, labeller, setting, &mut images, &mut steps)
}

// Labels one unit after another.
// proof: the caller keeps counter and images, so no unit drops them
fn label_each<D: RootRanker, L: Ledger>(
    alloc: Global,
    labeller: &mut Labeller<D>,
    setting: &LabelContext<'_>,
    images: &mut SymmetryLabels,
    steps: &mut Steps<L>,
) -> Result<UnitAnswers, AllocError>
    requires drawn { setting.now.positions ≡ positions_of setting.now.graph }
    requires few { length setting.now.units < 2 ^ 32 - 1 }
    requires found { AreFound setting.now labeller.old images.old }
    ensures answers { IfOk result
        (λ answers. answers ≡ unit_answers setting.now.rules labeller.old setting.now.graph setting.now.positions
        setting.now.units) }
    ensures few { IfOk result (λ answers. length answers < 2 ^ 32 - 1) }
    ensures kept { labeller.new ≡ labeller.old }
{
    let mut answers = UnitAnswers::new(alloc);
    let units = setting.units().as_slice();
    for (place, unit) in units.iter().enumerate() {
        let Ok(outcome) = label_or_reuse(alloc, labeller, setting, place as u32, images, steps)
        else {
            return Err(AllocError);
        };
        let answer = UnitAnswer {
            name: name_of(&unit.site),
            site: unit.site.copy(),
            drawn: setting.graph().drawn(),
            outcome,
        };
        let Ok(()) = answers.push(answer) else {
            return Err(AllocError);
        };
    }
    Ok(answers)
}
