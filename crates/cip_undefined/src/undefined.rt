// The answer to a record by the units of which its drawing shows no sense.
ghost use Rattle.std.specs.Prelude.{◌≡◌, ◌<◌, ◌-◌, ◌^◌, IfOk, length};
ghost use Rattle.cip_text.specs.Slices.{texts};
ghost use Rattle.cip_label.specs.Settings.{setting_in};
ghost use Rattle.cip_undefined.specs.Answers.{answer_in, undefined_of_lines, undefined_without_items};
ghost use Rattle.cip_undefined.specs.Ties.{told_units};
ghost use Rattle.cip_undefined.specs.UndefinedUnits.{found_among};

use crate::find::found_among;
use crate::ties::tell_dependent;
use crate::unit::{UndefinedAnswer, UndefinedUnits};
use cip_label::{LabelContext, Labeller, RootRanker};
use cip_molfile::Structure;
use cip_rank::{Rules, Steps};
use cip_text::RecordLines;
use std::alloc::{AllocError, Global};
use std::marker::Brand;
use std::sync::ledger::{Blank, Ledger};

/// The undefined units of a record that has no label items, each with how its ligands compare; or why the record is
/// refused.
#[tactic(auto, unfolding(crate::specs::Answers::undefined_without_items))]
pub fn undefined_in_lines<D: RootRanker>(
    alloc: Global,
    labeller: &mut Labeller<D>,
    lines: &RecordLines,
    rules: Rules,
) -> Result<UndefinedAnswer, AllocError>
    requires few { length lines.now < 2 ^ 32 - 1 }
    ensures answer { IfOk result (λ answer. answer ≡ undefined_without_items rules labeller.old lines.now) }
    ensures kept { labeller.new ≡ labeller.old }
{
    undefined_of_lines(alloc, labeller, lines.contents(), rules)
}

fn undefined_of_lines<D: RootRanker>(
    alloc: Global,
    labeller: &mut Labeller<D>,
    lines: &[&[u8]],
    rules: Rules,
) -> Result<UndefinedAnswer, AllocError>
    requires few { length lines.now < 2 ^ 32 - 1 }
    ensures answer { IfOk result (λ answer. answer ≡ undefined_of_lines rules labeller.old (texts lines.now)) }
    ensures kept { labeller.new ≡ labeller.old }
{
    match Structure::read(alloc, lines)? {
        Ok(drawn) => {
            let answer = undefined_of_drawn(alloc, labeller, &drawn, rules);
            drawn.release();
            answer
        }
        Err(fault) => Ok(UndefinedAnswer::Refused(fault)),
    }
}

// The undefined units of a structure.
// proof: the caller keeps the structure, so no exit drops it
fn undefined_of_drawn<D: RootRanker>(
    alloc: Global,
    labeller: &mut Labeller<D>,
    drawn: &Structure,
    rules: Rules,
) -> Result<UndefinedAnswer, AllocError>
    ensures answer { IfOk result (λ answer. answer ≡ answer_in labeller.old (setting_in rules drawn.now)) }
    ensures kept { labeller.new ≡ labeller.old }
{
    let units = drawn.units().list();
    let setting = LabelContext::new(alloc, drawn.graph(), drawn.positions(), units, rules)?;
    let output = told_among::<D, Brand>(alloc, labeller, &setting, Blank::new(1))?;
    Ok(UndefinedAnswer::Listed(output))
}

// The undefined units of a setting, with a counter of steps.
fn told_among<D: RootRanker, L: Ledger>(
    alloc: Global,
    labeller: &mut Labeller<D>,
    setting: &LabelContext<'_>,
    blank: Blank,
) -> Result<UndefinedUnits, AllocError>
    requires name { blank.name ≡ L.name }
    requires parts { blank.parts ≡ L.parts }
    requires one { 0 < blank.parts }
    ensures output { IfOk result (λ output. output
        ≡ told_units setting.now labeller.old (found_among setting.now labeller.old setting.now.units)) }
    ensures kept { labeller.new ≡ labeller.old }
{
    let units = setting.units().as_slice();
    let mut steps = Steps::<L>::open(blank);
    let mut found = found_among(alloc, labeller, setting, units, &mut steps)?;
    tell_dependent(alloc, labeller, setting, &mut found, &mut steps)?;
    Ok(UndefinedUnits::of(found))
}
