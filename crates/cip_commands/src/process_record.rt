// What is written for a record, by what is asked.
ghost use Rattle.std.specs.Prelude.{◌≡◌, ◌≤◌, ◌<◌, ◌-◌, ◌^◌, IfOk, length};
ghost use Rattle.cip_batch.specs.Batches.{output_of};
ghost use Rattle.cip_print.specs.Values.{HasRoom};
ghost use Rattle.cip_answer.specs.Answers.{is_flagged};
ghost use Rattle.cip_commands.specs.Telling.{expected_output, plainly, with_answer};
ghost use Rattle.cip_commands.specs.TellingBare.{annotate_change, explain_bare, mirror_bare, set_bare, output_without_items};

use crate::exit_reason::{ChangeFailure, ChangeNote};
use crate::task_processor::TaskProcessor;
use crate::worker_state::WorkerState;
use cip_answer::is_flagged;
use cip_batch::{RecordOutput, RecordProcessor, StreamStatus};
use cip_edit::{MirrorAnswer, SetAnswer, mirror_lines};
use cip_item::{has_label_item, lines_with_item, lines_without_label_items};
use cip_label::RootRanker;
use cip_mol::CentreLetter;
use cip_print::{Answer, explain_text, item_values};
use cip_text::RecordLines;
use cip_words::{Labelling, Task};
use std::alloc::{AllocError, Global};

impl<D: RootRanker + Drop + Send> RecordProcessor for TaskProcessor<D> {
    type State = WorkerState<D>;

    type Note = ChangeNote;

    ghost expected = { λ processor. expected_output processor.task processor.labelling };

    fn new_state(&self, alloc: Global) -> Result<WorkerState<D>, AllocError> {
        WorkerState::reserve(alloc, self.labelling.nodes)
    }

    fn process(
        &self,
        alloc: Global,
        state: &mut WorkerState<D>,
        number: u64,
        bytes: &[u8],
    ) -> Result<RecordOutput<ChangeNote>, AllocError> {
        // A state of `new_state` fits already, and nothing is taken; but the contract allows any state.
        let Ok(()) = state.resize(alloc, self.labelling.nodes) else {
            return Err(AllocError);
        };
        self.process_record(alloc, state, number, bytes)
    }

    fn keeps_blank_tail(&self) -> bool {
        matches!(self.task, Task::Annotate | Task::Set { .. } | Task::Mirror)
    }
}

impl<D: RootRanker + Drop> TaskProcessor<D> {
    // What is written for a record. A record is copied only where it has label items.
    fn process_record(
        &self,
        alloc: Global,
        state: &mut WorkerState<D>,
        number: u64,
        bytes: &[u8],
    ) -> Result<RecordOutput<ChangeNote>, AllocError>
        requires few { length bytes.now ≤ 2 ^ 31 }
        requires fit { state.old ≡ self.now.labelling.nodes }
        ensures { IfOk result (λ output. output ≡ output_of (expected_output self.now.task self.now.labelling) number bytes.now) }
    {
        let Ok(lines) = RecordLines::new(alloc, bytes) else {
            return Err(AllocError);
        };
        if has_label_item(&lines) {
            let bare = lines_without_label_items(alloc, &lines);
            // the lines of the record go before those of its copy come: a record has up to 16 million
            drop(lines);
            match bare {
                Ok(bare) => self.process_without_items(alloc, state, number, &bare),
                Err(fault) => Err(fault),
            }
        } else {
            let output = self.process_lines(alloc, state, number, &lines);
            drop(lines);
            output
        }
    }

    // What is written for a copy without label items.
    // proof: the caller keeps the copy
    fn process_without_items(
        &self,
        alloc: Global,
        state: &mut WorkerState<D>,
        number: u64,
        bytes: &[u8],
    ) -> Result<RecordOutput<ChangeNote>, AllocError>
        requires few { length bytes.now ≤ 2 ^ 31 }
        requires fit { state.old ≡ self.now.labelling.nodes }
        ensures { IfOk result (λ output. output ≡ output_without_items self.now.labelling self.now.task number bytes.now) }
    {
        let Ok(lines) = RecordLines::new(alloc, bytes) else {
            return Err(AllocError);
        };
        let output = self.process_lines(alloc, state, number, &lines);
        drop(lines);
        output
    }

    // What is written for a record without label items.
    fn process_lines(
        &self,
        alloc: Global,
        state: &mut WorkerState<D>,
        number: u64,
        lines: &RecordLines,
    ) -> Result<RecordOutput<ChangeNote>, AllocError>
        requires few { length lines.now ≤ 2 ^ 31 }
        requires fit { state.old ≡ self.now.labelling.nodes }
        ensures { IfOk result (λ output. output ≡ output_without_items self.now.labelling self.now.task number lines.now) }
    {
        match self.task {
            Task::Set {
                number: named,
                atom,
                letter,
            } if number == u64::from(named) => self.set(alloc, state, lines, atom, letter),
            Task::Annotate | Task::Set { .. } => self.annotate(alloc, state, lines, None),
            Task::Explain => self.explain(alloc, state, number, lines),
            Task::Mirror => self.mirror(alloc, state, lines),
            Task::Groups => match state.groups(alloc, lines, number, self.labelling.rules) {
                Ok(output) => Ok(plain(output.text.into_vec(), output.flagged)),
                Err(error) => Err(error),
            },
            Task::Axes => match state.axes(alloc, lines, number, self.labelling.rules) {
                Ok(output) => Ok(plain(output.text.into_vec(), output.flagged)),
                Err(error) => Err(error),
            },
        }
    }

    // The record with its item, and a note on it.
    fn annotate(
        &self,
        alloc: Global,
        state: &mut WorkerState<D>,
        lines: &RecordLines,
        note: Option<ChangeNote>,
    ) -> Result<RecordOutput<ChangeNote>, AllocError>
        requires few { length lines.now < 2 ^ 32 - 1 }
        requires fit { state.old ≡ self.now.labelling.nodes }
        ensures { IfOk result (λ output. output
            ≡ annotate_change self.now.labelling (record { bytes = lines.now; note = note })) }
    {
        let Ok(answer) = state.label(alloc, lines, self.labelling.rules) else {
            return Err(AllocError);
        };
        let output = self.with_answer(alloc, lines, &answer, note);
        // proof: dropped by a call, which is quicker to prove than an exit that owns it
        drop(answer);
        output
    }

    // A changed record with its item, and a note on it.
    fn annotate_text(
        &self,
        alloc: Global,
        state: &mut WorkerState<D>,
        text: &[u8],
        note: Option<ChangeNote>,
    ) -> Result<RecordOutput<ChangeNote>, AllocError>
        requires few { length text.now < 2 ^ 32 - 1 }
        requires fit { state.old ≡ self.now.labelling.nodes }
        ensures { IfOk result (λ output. output
            ≡ annotate_change self.now.labelling (record { bytes = text.now; note = note })) }
    {
        let Ok(lines) = RecordLines::new(alloc, text) else {
            return Err(AllocError);
        };
        let output = self.annotate(alloc, state, &lines, note);
        drop(lines);
        output
    }

    // The record with the item of its answer, and a note on it.
    fn with_answer(
        &self,
        alloc: Global,
        lines: &RecordLines,
        answer: &Answer,
        note: Option<ChangeNote>,
    ) -> Result<RecordOutput<ChangeNote>, AllocError>
        requires room { HasRoom answer.now }
        ensures { IfOk result (λ output. output ≡ record {
          text = with_answer self.now.labelling.rules self.now.labelling.nodes lines.now answer.now;
          verdict = record { flagged = is_flagged answer.now; note = note };
        }) }
    {
        let Labelling { nodes, rules, .. } = self.labelling;
        let Ok(values) = item_values(alloc, answer, nodes, rules) else {
            return Err(AllocError);
        };
        let text = lines_with_item(alloc, lines, &values);
        drop(values);
        match text {
            Ok(text) => {
                let flagged = is_flagged(answer);
                Ok(RecordOutput {
                    text,
                    verdict: StreamStatus { flagged, note },
                })
            }
            Err(error) => Err(error),
        }
    }

    fn explain(
        &self,
        alloc: Global,
        state: &mut WorkerState<D>,
        number: u64,
        lines: &RecordLines,
    ) -> Result<RecordOutput<ChangeNote>, AllocError>
        requires few { length lines.now < 2 ^ 32 - 1 }
        requires fit { state.old ≡ self.now.labelling.nodes }
        ensures { IfOk result (λ output. output ≡ explain_bare self.now.labelling number lines.now) }
    {
        let Ok(answer) = state.label(alloc, lines, self.labelling.rules) else {
            return Err(AllocError);
        };
        let text = explain_text(alloc, &answer, number);
        let flagged = is_flagged(&answer);
        drop(answer);
        match text {
            Ok(text) => Ok(plain(text, flagged)),
            Err(error) => Err(error),
        }
    }

    // The record in which the centre at an atom has the letter, with its item.
    fn set(
        &self,
        alloc: Global,
        state: &mut WorkerState<D>,
        lines: &RecordLines,
        atom: u32,
        letter: CentreLetter,
    ) -> Result<RecordOutput<ChangeNote>, AllocError>
        requires few { length lines.now ≤ 2 ^ 31 }
        requires fit { state.old ≡ self.now.labelling.nodes }
        ensures { IfOk result (λ output. output
            ≡ annotate_change self.now.labelling (set_bare self.now.labelling 0 atom letter 0 lines.now)) }
    {
        match state.set(alloc, lines, atom, letter, self.labelling.rules) {
            Ok(SetAnswer::Written(text)) => {
                self.annotate_text(alloc, state, text.as_slice(), Some(ChangeNote::Changed))
            }
            Ok(SetAnswer::Refused(refusal)) => {
                let note = ChangeNote::Missing(ChangeFailure::NotSet(refusal));
                self.annotate(alloc, state, lines, Some(note))
            }
            Err(fault) => Err(fault),
        }
    }

    // The reflected record with its item.
    fn mirror(
        &self,
        alloc: Global,
        state: &mut WorkerState<D>,
        lines: &RecordLines,
    ) -> Result<RecordOutput<ChangeNote>, AllocError>
        requires few { length lines.now ≤ 2 ^ 31 }
        requires fit { state.old ≡ self.now.labelling.nodes }
        ensures { IfOk result (λ output. output
            ≡ annotate_change self.now.labelling (mirror_bare self.now.labelling lines.now)) }
    {
        match mirror_lines(alloc, lines) {
            Ok(MirrorAnswer::Written(text)) => {
                self.annotate_text(alloc, state, text.as_slice(), None)
            }
            Ok(MirrorAnswer::Refused(_)) => {
                let note = ChangeNote::Missing(ChangeFailure::NotMirrored);
                self.annotate(alloc, state, lines, Some(note))
            }
            Err(fault) => Err(fault),
        }
    }
}

// A text without a note.
fn plain(text: Vec<u8>, flagged: bool) -> RecordOutput<ChangeNote>
    ensures { result ≡ record { text = text.items; verdict = plainly flagged } }
{
    RecordOutput {
        text,
        verdict: StreamStatus {
            flagged,
            note: None,
        },
    }
}
