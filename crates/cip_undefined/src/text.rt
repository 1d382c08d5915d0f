// What is written for undefined units.
ghost use Rattle.std.specs.Prelude.{◌≡◌, ◌++◌, IfOk, OnOk, codes, decimal};
ghost use Rattle.std.specs.List.{flat_map};
ghost use Rattle.cip_mol.specs.Letters.{rule_text};
ghost use Rattle.cip_undefined.specs.Texts.{state_text, undefined_line, undefined_text};

use crate::unit::{State, UndefinedAnswer, UndefinedUnit};
use cip_mol::{Places, Rule};
use cip_print::{push_name, push_names_in_order, push_number, push_word, refusal};
use std::alloc::{AllocError, Global};

/// What is written for the undefined units of a record: a line for each, with its ligands in order where they all
/// differ; or why the record is refused.
#[tactic(auto, unfolding(crate::specs::Texts::undefined_text))]
pub fn undefined_text(alloc: Global, answer: &UndefinedAnswer) -> Result<Vec<u8>, AllocError>
    ensures { IfOk result (λ text. text.items ≡ undefined_text answer.now) }
{
    match answer {
        UndefinedAnswer::Listed(units) => lines_of(alloc, units.as_slice()),
        UndefinedAnswer::Refused(fault) => {
            Ok(format!(in alloc; "{}\n", refusal(alloc, *fault)?)?.into_bytes())
        }
    }
}

fn lines_of(alloc: Global, units: &[UndefinedUnit]) -> Result<Vec<u8>, AllocError>
    ensures { IfOk result (λ text. text.items ≡ flat_map undefined_line units.now) }
{
    let mut text = Vec::new(alloc);
    for unit in units {
        push_line(&mut text, unit)?;
    }
    Ok(text)
}

#[tactic(auto, unfolding(crate::specs::Texts::undefined_line), using(cip_print::proofs::lemmas::Texts::moved))]
fn push_line(text: &mut Vec<u8>, unit: &UndefinedUnit) -> Result<(), AllocError>
    ensures { OnOk result (text.new.items ≡ text.old.items ++ undefined_line unit.now) }
{
    push_name(text, unit.name)?;
    push_state(text, unit)?;
    text.push(b'\n')?;
    Ok(())
}

fn push_state(text: &mut Vec<u8>, unit: &UndefinedUnit) -> Result<(), AllocError>
    ensures { OnOk result (text.new.items ≡ text.old.items ++ state_text unit.now unit.now.state) }
{
    match &unit.state {
        State::Open {
            rule,
            sphere,
            order,
        } => push_open(text, unit, *rule, *sphere, order),
        State::Dependent => push_word(text, "dependent"),
        State::Tie => push_word(text, "tie"),
        State::Over => push_word(text, "over"),
    }
}

// The rule, the sphere and the order of ligands that all differ.
#[tactic(auto, using(cip_print::proofs::lemmas::Texts::moved))]
fn push_open(
    text: &mut Vec<u8>,
    unit: &UndefinedUnit,
    rule: Rule,
    sphere: u32,
    order: &Places,
) -> Result<(), AllocError>
    ensures { OnOk result (text.new.items
        ≡ text.old.items ++ state_text unit.now (State.Open rule sphere order.now)) }
{
    push_reason(text, rule, sphere)?;
    text.extend_from_slice(b" order")?;
    push_names_in_order(text, unit.drawn, &unit.site, order.as_slice())
}

#[tactic(auto, using(cip_print::proofs::lemmas::Texts::moved))]
fn push_reason(text: &mut Vec<u8>, rule: Rule, sphere: u32) -> Result<(), AllocError>
    ensures { OnOk result (text.new.items
        ≡ text.old.items ++ (codes " open " ++ (rule_text rule ++ (codes " " ++ decimal sphere)))) }
{
    push_word(text, "open")?;
    push_word(text, rule.text())?;
    text.push(b' ')?;
    push_number(text, u64::from(sphere))
}
