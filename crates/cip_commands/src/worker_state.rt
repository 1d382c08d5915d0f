// What a worker keeps from record to record.
ghost use Rattle.std.specs.Prelude.{◌≡◌, ◌≤◌, ◌<◌, ◌-◌, ◌^◌, IfOk, OnOk, length};
ghost use Rattle.cip_answer.specs.AxesTexts.{axes_without_items, is_flagged_without_items};
ghost use Rattle.cip_stereogroups.specs.Texts.{told_without_items, with_number};
ghost use Rattle.cip_print.specs.Values.{HasRoom};
ghost use Rattle.cip_answer.specs.Answers.{answer_by, answer_without_items};
ghost use Rattle.cip_edit.specs.SetAnswers.{set_without_items, IsFew};

use cip_answer::{AxesText, axes_of_lines, label_lines};
use cip_edit::{SetAnswer, set_letter_in_lines};
use cip_item::without_label_items;
use cip_label::{Labeller, RootRanker};
use cip_mol::CentreLetter;
use cip_print::Answer;
use cip_rank::Rules;
use cip_stereogroups::{GroupText, groups_of_lines};
use cip_text::RecordLines;
use std::alloc::{AllocError, Global};
use std::marker::Model;
use std::mem;

/// Memory in which records are labelled, one after the other. It changes no answer. Contracts see the bound on the
/// nodes of a digraph.
#[derive(Drop)]
pub struct WorkerState<D: RootRanker> {
    nodes: u32,
    labeller: Labeller<D>,
}

impl<D: RootRanker> Model for WorkerState<D> {
    ghost use Rattle.std.specs.Prelude.{ℕ, ◌≡◌};

    ghost Value = { ℕ };

    ghost view = { λ state. state.nodes };

    ghost invariant = { λ state. state.labeller ≡ state.nodes };
}

impl<D: RootRanker + Drop> WorkerState<D> {
    /// Takes memory for digraphs of at most n nodes.
    pub fn reserve(alloc: Global, nodes: u32) -> Result<WorkerState<D>, AllocError>
        requires some { 1 ≤ nodes }
        requires bounded { nodes ≤ 1000000 }
        ensures { IfOk result (λ state. state ≡ nodes) }
    {
        match Labeller::reserve(alloc, nodes) {
            Ok(labeller) => Ok(WorkerState { nodes, labeller }),
            Err(error) => Err(error),
        }
    }

    /// Takes memory anew where the bound is another one.
    pub fn resize(&mut self, alloc: Global, nodes: u32) -> Result<(), AllocError>
        requires some { 1 ≤ nodes }
        requires bounded { nodes ≤ 1000000 }
        ensures { OnOk result (self.new ≡ nodes) }
    {
        if self.nodes != nodes {
            let Ok(state) = WorkerState::reserve(alloc, nodes) else {
                return Err(AllocError);
            };
            // proof: dropped by a call; at the end of scope it takes a minute to prove
            drop(mem::replace(self, state));
        }
        Ok(())
    }

    /// The answer to a record without label items.
    pub fn label(
        &mut self,
        alloc: Global,
        lines: &RecordLines,
        rules: Rules,
    ) -> Result<Answer, AllocError>
        requires few { length lines.now < 2 ^ 32 - 1 }
        ensures answer { IfOk result (λ answer. answer ≡ answer_without_items rules self.old lines.now) }
        ensures room { IfOk result HasRoom }
        ensures kept { self.new ≡ self.old }
    {
        label_lines(alloc, &mut self.labeller, lines, rules)
    }

    /// A record without label items in which the centre at an atom, counted from 1, has the letter.
    pub fn set(
        &mut self,
        alloc: Global,
        lines: &RecordLines,
        atom: u32,
        letter: CentreLetter,
        rules: Rules,
    ) -> Result<SetAnswer, AllocError>
        requires few { length lines.now < 2 ^ 32 - 1 }
        ensures answer { IfOk result (λ answer. answer ≡ set_without_items rules self.old atom letter lines.now) }
        ensures few { IfOk result (λ answer. IsFew lines.now answer) }
        ensures kept { self.new ≡ self.old }
    {
        set_letter_in_lines(alloc, &mut self.labeller, lines, atom, letter, rules)
    }

    /// What is written for the stereo groups of a record without label items.
    pub fn groups(
        &mut self,
        alloc: Global,
        lines: &RecordLines,
        number: u64,
        rules: Rules,
    ) -> Result<GroupText, AllocError>
        requires few { length lines.now < 2 ^ 32 - 1 }
        ensures output { IfOk result (λ output. output ≡ with_number number (told_without_items rules self.old lines.now)) }
        ensures kept { self.new ≡ self.old }
    {
        groups_of_lines(alloc, &mut self.labeller, lines, number, rules)
    }

    /// What is written for the further units of a record without label items.
    pub fn axes(
        &mut self,
        alloc: Global,
        lines: &RecordLines,
        number: u64,
        rules: Rules,
    ) -> Result<AxesText, AllocError>
        requires few { length lines.now < 2 ^ 32 - 1 }
        ensures text { IfOk result (λ axes. axes.text ≡ axes_without_items rules self.old number lines.now) }
        ensures flagged { IfOk result (λ axes. axes.flagged ≡ is_flagged_without_items rules self.old lines.now) }
        ensures kept { self.new ≡ self.old }
    {
        axes_of_lines(alloc, &mut self.labeller, lines, number, rules)
    }

    /// The answer to a record.
    pub fn answer(
        &mut self,
        alloc: Global,
        bytes: &[u8],
        rules: Rules,
    ) -> Result<Answer, AllocError>
        requires few { length bytes.now < 2 ^ 32 - 1 }
        ensures answer { IfOk result (λ answer. answer ≡ answer_by rules self.old bytes.now) }
        ensures kept { self.new ≡ self.old }
    {
        let Ok(bare) = without_label_items(alloc, bytes) else {
            return Err(AllocError);
        };
        match RecordLines::new(alloc, &bare) {
            Ok(lines) => {
                let answer = self.label(alloc, &lines, rules);
                // proof: dropped by a call, which is quicker to prove than an exit that owns it
                drop(lines);
                answer
            }
            Err(error) => Err(error),
        }
    }
}
