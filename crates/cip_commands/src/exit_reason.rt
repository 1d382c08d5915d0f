// How a run ends.
ghost use Rattle.std.specs.Prelude.{◌≡◌};
ghost use Rattle.cip_commands.specs.Endings.{ending_after, line_of, refusal_line, status_of};

use crate::exit_status::{
    DONE, FLAGGED, LIMIT, NOT_CHANGED, OUT_OF_MEMORY, READ_FAULT, WORDS_REFUSED, WRITE_FAULT,
};
use cip_batch::{StreamError, StreamStatus};
use cip_edit::SetRefusal;
use cip_words::Task;

/// Why a record isn't changed as it was asked.
#[derive(Clone, Copy)]
pub enum ChangeFailure {
    /// There is no record of this number.
    NoRecord,
    /// The centre can't have the letter.
    NotSet(SetRefusal),
    /// A record can't be reflected.
    NotMirrored,
}

/// What a run keeps of a record for its end.
#[derive(Clone, Copy)]
pub enum ChangeNote {
    /// It was changed as it was asked.
    Changed,
    /// It wasn't.
    Missing(ChangeFailure),
}

/// How a run ends.
#[derive(Clone, Copy)]
pub enum ExitReason {
    /// What was asked for is done, and no record is flagged.
    Done,
    /// What was asked for is done; a record is refused, or a digraph of it is larger than the bound.
    Flagged,
    /// All records are written, but what was to be changed wasn't.
    NotChanged(ChangeFailure),
    /// The words are those of no command.
    WordsRefused,
    /// The source failed.
    ReadFault,
    /// The sink failed.
    WriteFault,
    /// There was no memory.
    OutOfMemory,
    /// A record or the input is longer than its limit.
    Limit,
}

impl ExitReason {
    /// Where answering the records of a stream ended so.
    pub fn after(task: Task, answered: Result<StreamStatus<ChangeNote>, StreamError>) -> ExitReason
        ensures { result ≡ ending_after task answered }
    {
        match answered {
            Ok(verdict) => match (task, verdict.note) {
                (Task::Set { .. }, None) => ExitReason::NotChanged(ChangeFailure::NoRecord),
                (Task::Set { .. } | Task::Mirror, Some(ChangeNote::Missing(missed))) => {
                    ExitReason::NotChanged(missed)
                }
                _ if verdict.flagged => ExitReason::Flagged,
                _ => ExitReason::Done,
            },
            Err(StreamError::ReadFault) => ExitReason::ReadFault,
            Err(StreamError::WriteFault) => ExitReason::WriteFault,
            Err(StreamError::Memory) => ExitReason::OutOfMemory,
            Err(StreamError::Limit) => ExitReason::Limit,
        }
    }

    /// The exit status.
    pub fn status(self) -> u8
        ensures { result ≡ status_of self }
    {
        match self {
            ExitReason::Done => DONE,
            ExitReason::Flagged => FLAGGED,
            ExitReason::NotChanged(_) => NOT_CHANGED,
            ExitReason::WordsRefused => WORDS_REFUSED,
            ExitReason::ReadFault => READ_FAULT,
            ExitReason::WriteFault => WRITE_FAULT,
            ExitReason::OutOfMemory => OUT_OF_MEMORY,
            ExitReason::Limit => LIMIT,
        }
    }

    /// The diagnostic line, with its LF; empty where there is none.
    pub fn line(self) -> &'static [u8]
        ensures { result.now ≡ line_of self }
    {
        match self {
            ExitReason::Done | ExitReason::Flagged => b"".as_slice(),
            ExitReason::NotChanged(ChangeFailure::NoRecord) =>
                b"cip: not set NoRecord\n".as_slice(),
            ExitReason::NotChanged(ChangeFailure::NotSet(refusal)) => refusal_line(refusal),
            ExitReason::NotChanged(ChangeFailure::NotMirrored) => b"cip: not mirrored\n".as_slice(),
            ExitReason::WordsRefused => b"cip: words refused\n".as_slice(),
            ExitReason::ReadFault => b"cip: read fault\n".as_slice(),
            ExitReason::WriteFault => b"cip: write fault\n".as_slice(),
            ExitReason::OutOfMemory => b"cip: out of memory\n".as_slice(),
            ExitReason::Limit => b"cip: limit\n".as_slice(),
        }
    }
}

fn refusal_line(refusal: SetRefusal) -> &'static [u8]
    ensures { result.now ≡ refusal_line refusal }
{
    match refusal {
        SetRefusal::Grammar(_) => b"cip: not set Grammar\n".as_slice(),
        SetRefusal::OnlyV2000 => b"cip: not set OnlyV2000\n".as_slice(),
        SetRefusal::NoCentre => b"cip: not set NoCentre\n".as_slice(),
        SetRefusal::ThreeD => b"cip: not set ThreeD\n".as_slice(),
        SetRefusal::Coincident => b"cip: not set Coincident\n".as_slice(),
        SetRefusal::NoBond => b"cip: not set NoBond\n".as_slice(),
        SetRefusal::Over => b"cip: not set Over\n".as_slice(),
        SetRefusal::Tie => b"cip: not set Tie\n".as_slice(),
        SetRefusal::OtherKind { .. } => b"cip: not set OtherKind\n".as_slice(),
    }
}
