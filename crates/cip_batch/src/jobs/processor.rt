// What processes the records of a stream.
ghost use Rattle.std.specs.Prelude.{◌≡◌, ◌≤◌, ◌^◌, IfOk, length};
ghost use Rattle.cip_batch.specs.ExpectedOutput.{ExpectedOutput};

use crate::status::StreamStatus;
use std::alloc::{AllocError, Global};
use std::marker::Model;

/// The output for a record: the text that is due for it, and what it adds to the end of the run.
#[derive(Drop)]
pub struct RecordOutput<N> {
    pub text: Vec<u8>,
    pub verdict: StreamStatus<N>,
}

impl<N> Model for RecordOutput<N> {
    ghost use Rattle.cip_batch.specs.Batches.{Output};

    ghost Value = { Output N };

    ghost view = { λ output. record { text = output.text.items; verdict = output.verdict } };
}

/// What processes each record of a stream.
pub trait RecordProcessor {
    /// What a worker keeps from record to record. It changes no answer.
    type State: Send + Drop;

    /// What a run keeps of a record for its end, beside whether it is flagged.
    type Note: Copy + Send;

    /// What is due for each record.
    ghost expected: { Self → ExpectedOutput Self.Note };

    /// A state for a worker. Only want of memory refuses it.
    fn new_state(&self, alloc: Global) -> Result<Self::State, AllocError>;

    /// Returns the output for the record of this number, counted from 1. Only want of memory refuses it.
    fn process(
        &self,
        alloc: Global,
        state: &mut Self::State,
        number: u64,
        bytes: &[u8],
    ) -> Result<RecordOutput<Self::Note>, AllocError>
        requires few { length bytes.now ≤ 2 ^ 31 }
        ensures text { IfOk result (λ output. output.text ≡ (expected self.now).text number bytes.now) }
        ensures verdict { IfOk result (λ output. output.verdict ≡ (expected self.now).verdict number bytes.now) };

    /// Whether blank lines after the last record are written as they are.
    fn keeps_blank_tail(&self) -> bool
        ensures { result ≡ (expected self.now).keeps_blank_tail };
}
