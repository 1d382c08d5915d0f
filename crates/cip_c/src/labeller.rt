// Memory in which records are labelled, with what labels rest on.
ghost use Rattle.std.specs.Prelude.{◌≡◌, ◌≤◌, ◌<◌, ◌-◌, ◌^◌, ◌++◌, IfOk, OnOk, length};
ghost use Rattle.std.specs.List.{flat_map};
ghost use Rattle.cip_print.specs.Values.{values_of, HasRoom};
ghost use Rattle.cip_answer.specs.Answers.{answer_without_items};
ghost use Rattle.cip_c.specs.Texts.{annotated, ended_line, explained_text, text_of, undefined_told, values_text};

use crate::settings::Settings;
use crate::text_kinds::Text;
use cip_answer::label_lines;
use cip_item::{Texts, lines_with_item, without_label_items};
use cip_print::{Answer, explain_text, item_values};
use cip_ranker::RecordLabeller;
use cip_text::RecordLines;
use cip_undefined::{undefined_in_lines, undefined_text};
use std::alloc::{AllocError, Global};
use std::marker::Model;

/// The longest record that is labelled, in bytes.
pub(crate) const LONGEST: usize = 0x7fff_ffff;

/// Memory in which records are labelled, one after the other. Contracts see what labels rest on.
#[derive(Drop)]
pub(crate) struct Labeller {
    alloc: Global,
    settings: Settings,
    memory: RecordLabeller,
}

impl Model for Labeller {
    ghost use Rattle.std.specs.Prelude.{◌≡◌};
    ghost use Rattle.cip_c.specs.declared.settings.Settings.{Settings};

    ghost Value = { Settings };

    ghost view = { λ labeller. labeller.settings };

    ghost invariant = { λ labeller. labeller.memory ≡ labeller.settings.nodes };
}

impl Labeller {
    /// Takes memory for digraphs as large as the bound.
    pub(crate) fn reserve(alloc: Global, settings: Settings) -> Result<Labeller, AllocError>
        requires some { 1 ≤ settings.nodes }
        requires bounded { settings.nodes ≤ 1000000 }
        ensures { IfOk result (λ labeller. labeller ≡ settings) }
    {
        let memory = RecordLabeller::reserve(alloc, settings.nodes)?;
        Ok(Labeller {
            alloc,
            settings,
            memory,
        })
    }

    /// The text of a record that is asked for.
    pub(crate) fn text(&mut self, requested: Text, bytes: &[u8]) -> Result<Vec<u8>, AllocError>
        requires few { length bytes.now ≤ LONGEST }
        ensures text { IfOk result (λ text. text.items ≡ text_of requested self.old bytes.now) }
        ensures kept { self.new ≡ self.old }
    {
        match requested {
            Text::Annotated => self.annotated(bytes),
            Text::Values => self.values(bytes),
            Text::Explained(number) => self.explained(number, bytes),
            Text::Undefined => self.undefined_told(bytes),
        }
    }

    // The record with its item, whose label items are taken out first.
    fn annotated(&mut self, bytes: &[u8]) -> Result<Vec<u8>, AllocError>
        requires few { length bytes.now ≤ LONGEST }
        ensures text { IfOk result (λ text. text.items ≡ annotated self.old bytes.now) }
        ensures kept { self.new ≡ self.old }
    {
        let bare = without_label_items(self.alloc, bytes)?;
        let lines = RecordLines::new(self.alloc, &bare)?;
        let values = self.values_of(&lines)?;
        lines_with_item(self.alloc, &lines, &values)
    }

    // The value lines of a record's item, each ended by LF.
    fn values(&mut self, bytes: &[u8]) -> Result<Vec<u8>, AllocError>
        requires few { length bytes.now ≤ LONGEST }
        ensures text { IfOk result (λ text. text.items ≡ values_text self.old bytes.now) }
        ensures kept { self.new ≡ self.old }
    {
        let bare = without_label_items(self.alloc, bytes)?;
        let lines = RecordLines::new(self.alloc, &bare)?;
        let values = self.values_of(&lines)?;
        ended_lines(self.alloc, &values)
    }

    // What is found of the record of this number, to be read beside its drawing.
    fn explained(&mut self, number: u64, bytes: &[u8]) -> Result<Vec<u8>, AllocError>
        requires few { length bytes.now ≤ LONGEST }
        ensures text { IfOk result (λ text. text.items ≡ explained_text number self.old bytes.now) }
        ensures kept { self.new ≡ self.old }
    {
        let bare = without_label_items(self.alloc, bytes)?;
        let lines = RecordLines::new(self.alloc, &bare)?;
        let answer = self.answer(&lines)?;
        explain_text(self.alloc, &answer, number)
    }

    // What is written for the undefined units of a record.
    fn undefined_told(&mut self, bytes: &[u8]) -> Result<Vec<u8>, AllocError>
        requires few { length bytes.now ≤ LONGEST }
        ensures text { IfOk result (λ text. text.items ≡ undefined_told self.old bytes.now) }
        ensures kept { self.new ≡ self.old }
    {
        let bare = without_label_items(self.alloc, bytes)?;
        let lines = RecordLines::new(self.alloc, &bare)?;
        let answer = undefined_in_lines(self.alloc, &mut self.memory, &lines, self.settings.rules)?;
        undefined_text(self.alloc, &answer)
    }

    // The value lines of a record without label items.
    fn values_of(&mut self, lines: &RecordLines) -> Result<Texts, AllocError>
        requires few { length lines.now < 2 ^ 32 - 1 }
        ensures values { IfOk result (λ values. values
            ≡ values_of self.old.nodes self.old.rules (answer_without_items self.old.rules self.old.nodes lines.now)) }
        ensures kept { self.new ≡ self.old }
    {
        let answer = self.answer(lines)?;
        item_values(
            self.alloc,
            &answer,
            self.settings.nodes,
            self.settings.rules,
        )
    }

    fn answer(&mut self, lines: &RecordLines) -> Result<Answer, AllocError>
        requires few { length lines.now < 2 ^ 32 - 1 }
        ensures answer { IfOk result (λ answer. answer
            ≡ answer_without_items self.old.rules self.old.nodes lines.now) }
        ensures room { IfOk result HasRoom }
        ensures kept { self.new ≡ self.old }
    {
        label_lines(self.alloc, &mut self.memory, lines, self.settings.rules)
    }
}

// Lines, each ended by LF.
fn ended_lines(alloc: Global, lines: &Texts) -> Result<Vec<u8>, AllocError>
    ensures { IfOk result (λ text. text.items ≡ flat_map ended_line lines.now) }
{
    let mut text = Vec::new(alloc);
    let lines = lines.as_slice();
    for line in lines {
        push_line(&mut text, line.as_slice())?;
    }
    Ok(text)
}

fn push_line(text: &mut Vec<u8>, line: &[u8]) -> Result<(), AllocError>
    ensures { OnOk result (text.new.items ≡ text.old.items ++ ended_line line.now) }
{
    text.extend_from_slice(line)?;
    text.push(b'\n')?;
    Ok(())
}
