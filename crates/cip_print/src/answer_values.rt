// The value lines of a record's item.
ghost use Rattle.std.specs.Prelude.{◌≡◌, ◌<◌, ◌≤◌, ◌+◌, ◌-◌, ◌^◌, ◌++◌, ◌∷◌, [], length, IfOk, OnOk};
ghost use Rattle.std.specs.List.{filter_map};
ghost use Rattle.cip_print.specs.Values.{year_text, settings_line, unit_line, or_none, values_of, HasRoom};

use crate::answer::{Answer, UnitAnswer, UnitAnswers};
use crate::explain::push_outcome;
use crate::numbers::{push_number, push_word};
use crate::refusal_text::refusal;
use cip_item::Texts;
use cip_mol::Outcome;
use cip_rank::Rules;
use cip_text::Bytes;
use std::alloc::{AllocError, Global};

// Most lines of labels have no more bytes.
const LINE: usize = 80;

/// The value lines of an answer that was found within a bound on nodes by a wording of Rule 1b: these two, then why the
/// record is refused, or a line for each unit that has a label or whose digraph is larger than the bound, and `none`
/// where there is no such unit.
pub fn item_values(
    alloc: Global,
    answer: &Answer,
    nodes: u32,
    rules: Rules,
) -> Result<Texts, AllocError>
    requires few { HasRoom answer.now }
    ensures { IfOk result (λ texts. texts ≡ values_of nodes rules answer.now) }
{
    let mut values = Texts::new(alloc);
    match push_values(alloc, &mut values, answer, nodes, rules) {
        Ok(()) => Ok(values),
        Err(error) => Err(error),
    }
}

// Puts the lines into a list that has none.
// proof: the caller keeps the list, so no line drops it
#[tactic(auto, unfolding(crate::specs::Values::values_of))]
fn push_values(
    alloc: Global,
    values: &mut Texts,
    answer: &Answer,
    nodes: u32,
    rules: Rules,
) -> Result<(), AllocError>
    requires none { values.old ≡ [] }
    requires few { HasRoom answer.now }
    ensures { OnOk result (values.new ≡ values_of nodes rules answer.now) }
{
    let Ok(()) = push_settings(alloc, values, nodes, rules) else {
        return Err(AllocError);
    };
    match answer {
        Answer::Labelled(units) => push_unit_values(alloc, values, units),
        Answer::Refused(fault) => match refusal(alloc, *fault) {
            Ok(line) => values.push(Bytes::from_vec(line.into_bytes())),
            Err(error) => Err(error),
        },
    }
}

// The version of the item, and what the labels rest on.
fn push_settings(
    alloc: Global,
    values: &mut Texts,
    nodes: u32,
    rules: Rules,
) -> Result<(), AllocError>
    requires { length values.old < 2 ^ 32 - 1 }
    ensures { OnOk result (values.new ≡ values.old ++ settings_line nodes rules ∷ []) }
{
    match Vec::with_capacity(alloc, LINE) {
        Ok(mut line) => match write_settings(&mut line, nodes, rules) {
            Ok(()) => values.push(Bytes::from_vec(line)),
            Err(error) => Err(error),
        },
        Err(error) => Err(error),
    }
}

// Puts them into an empty line.
#[tactic(auto, using(crate::proofs::lemmas::Texts::moved))]
fn write_settings(line: &mut Vec<u8>, nodes: u32, rules: Rules) -> Result<(), AllocError>
    requires { line.old.items ≡ [] }
    ensures { OnOk result (line.new.items ≡ settings_line nodes rules) }
{
    let Ok(()) = line.extend_from_slice(b"cip 2 rule1b") else {
        return Err(AllocError);
    };
    match push_word(line, year(rules)) {
        Ok(()) => match line.extend_from_slice(b" nodes ") {
            Ok(()) => push_number(line, u64::from(nodes)),
            Err(error) => Err(error),
        },
        Err(error) => Err(error),
    }
}

fn year(rules: Rules) -> &'static str
    ensures { result.now ≡ year_text rules }
{
    match rules {
        Rules::Wording2013 => "2013",
        Rules::Wording2018 => "2018",
    }
}

// Adds the lines of units after a first line, or a line that says that there is none.
fn push_unit_values(
    alloc: Global,
    values: &mut Texts,
    units: &UnitAnswers,
) -> Result<(), AllocError>
    requires first { length values.old ≡ 1 }
    requires few { length units.now < 2 ^ 32 - 1 }
    ensures { OnOk result (values.new ≡ values.old ++ or_none (filter_map unit_line units.now)) }
{
    match push_lines(alloc, values, units) {
        Ok(()) if values.len() == 1 => match format!(in alloc; "none") {
            Ok(line) => values.push(Bytes::from_vec(line.into_bytes())),
            Err(error) => Err(error),
        },
        pushed => pushed,
    }
}

// Adds the lines of units after a first line.
fn push_lines(alloc: Global, values: &mut Texts, units: &UnitAnswers) -> Result<(), AllocError>
    requires first { length values.old ≤ 1 }
    requires few { length units.now < 2 ^ 32 - 1 }
    ensures { OnOk result (values.new ≡ values.old ++ filter_map unit_line units.now) }
{
    for place in 0..units.len() {
        let Ok(()) = push_line(alloc, values, units.get(place)) else {
            return Err(AllocError);
        };
    }
    Ok(())
}

// Adds the line of a unit, where it has one.
fn push_line(alloc: Global, values: &mut Texts, unit: &UnitAnswer) -> Result<(), AllocError>
    requires { length values.old < 2 ^ 32 - 1 }
    ensures added { OnOk result (values.new ≡ values.old ++ filter_map unit_line (unit.now ∷ [])) }
    ensures few { OnOk result (length values.new ≤ length values.old + 1) }
{
    match &unit.outcome {
        Outcome::Label(_) | Outcome::Over => match Vec::with_capacity(alloc, LINE) {
            Ok(mut line) => match push_outcome(&mut line, unit) {
                Ok(()) => values.push(Bytes::from_vec(line)),
                Err(error) => Err(error),
            },
            Err(error) => Err(error),
        },
        Outcome::Tie | Outcome::NoGeometry(_) => Ok(()),
    }
}
