// What is written for a record beside its drawing.
ghost use Rattle.std.specs.Prelude.{◌≡◌, ◌++◌, ◌∷◌, [], IfOk, OnOk};
ghost use Rattle.cip_print.specs.Explaining.{reason_text, output, told_line, told_lines, told_answer, explained};

use crate::answer::{Answer, UnitAnswer, UnitAnswers};
use crate::label_line::{push_label, push_named_unit};
use crate::numbers::push_word;
use crate::refusal_text::refusal;
use cip_mol::{Cause, Outcome};
use std::alloc::{AllocError, Global};

/// What is found of the record of this number, to be read beside its drawing: why it is refused, or a line for each
/// unit, with its ligands in the order that its label rests on, or with the reason why it has none.
#[tactic(auto, unfolding(crate::specs::Explaining::explained))]
pub fn explain_text(alloc: Global, answer: &Answer, number: u64) -> Result<Vec<u8>, AllocError>
    ensures { IfOk result (λ text. text.items ≡ explained number answer.now) }
{
    match format!(in alloc; "record {number}\n") {
        Ok(line) => {
            let mut text = line.into_bytes();
            match push_answer(alloc, &mut text, answer) {
                Ok(()) => Ok(text),
                Err(error) => Err(error),
            }
        }
        Err(error) => Err(error),
    }
}

fn push_answer(alloc: Global, text: &mut Vec<u8>, answer: &Answer) -> Result<(), AllocError>
    ensures { OnOk result (text.new.items ≡ text.old.items ++ told_answer answer.now) }
{
    match answer {
        Answer::Labelled(units) => push_units(text, units),
        Answer::Refused(fault) => match refusal(alloc, *fault) {
            Ok(line) => push_line(text, line.as_bytes()),
            Err(error) => Err(error),
        },
    }
}

// A text, and the end of its line.
fn push_line(text: &mut Vec<u8>, line: &[u8]) -> Result<(), AllocError>
    ensures { OnOk result (text.new.items ≡ text.old.items ++ (line.now ++ 10 ∷ [])) }
{
    match text.extend_from_slice(line) {
        Ok(()) => end_line(text),
        Err(error) => Err(error),
    }
}

fn end_line(text: &mut Vec<u8>) -> Result<(), AllocError>
    ensures { OnOk result (text.new.items ≡ text.old.items ++ 10 ∷ []) }
{
    match text.push(b'\n') {
        Ok(()) => Ok(()),
        Err(_) => Err(AllocError),
    }
}

fn push_units(text: &mut Vec<u8>, units: &UnitAnswers) -> Result<(), AllocError>
    ensures { OnOk result (text.new.items ≡ text.old.items ++ told_lines units.now) }
{
    for place in 0..units.len() {
        let Ok(()) = push_unit(text, units.get(place)) else {
            return Err(AllocError);
        };
    }
    Ok(())
}

#[tactic(auto, unfolding(crate::specs::Explaining::told_line))]
fn push_unit(text: &mut Vec<u8>, unit: &UnitAnswer) -> Result<(), AllocError>
    ensures { OnOk result (text.new.items ≡ text.old.items ++ told_line unit.now) }
{
    match push_outcome(text, unit) {
        Ok(()) => end_line(text),
        Err(error) => Err(error),
    }
}

/// What is found of a unit.
pub fn push_outcome(text: &mut Vec<u8>, unit: &UnitAnswer) -> Result<(), AllocError>
    ensures { OnOk result (text.new.items ≡ text.old.items ++ output unit.now unit.now.outcome) }
{
    match &unit.outcome {
        Outcome::Label(label) => push_label(text, unit, label),
        Outcome::Over => push_named_unit(text, unit.name, "over"),
        Outcome::Tie => push_named_unit(text, unit.name, "tie"),
        Outcome::NoGeometry(cause) => match push_named_unit(text, unit.name, "none") {
            Ok(()) => push_word(text, reason(*cause)),
            Err(error) => Err(error),
        },
    }
}

// Why a drawing shows no sense of a unit, in a word.
fn reason(cause: Cause) -> &'static str
    ensures { result.now ≡ reason_text cause }
{
    match cause {
        Cause::Either => "Either",
        Cause::Coincident => "Coincident",
        Cause::Contradictory => "Contradictory",
        Cause::Reentrant => "Reentrant",
        Cause::NoMark => "NoMark",
    }
}
