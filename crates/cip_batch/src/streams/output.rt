// Writing the outputs of records.
ghost use Rattle.std.specs.Prelude.{◌≡◌, ◌≤◌, ◌++◌, [], ℕ, List, IsErrOf, IfOk, OnOk, OnErr};
ghost use Rattle.std.specs.Io.KnownBytes.{Appends};
ghost use Rattle.cip_io.specs.Faults.{HasCause, Rose};
ghost use Rattle.cip_io.specs.Growth.{AppendsPrefix, TakesFront};
ghost use Rattle.cip_batch.specs.ExpectedOutput.{ExpectedOutput};
ghost use Rattle.cip_batch.specs.Batches.{Answers, told_from};
ghost use Rattle.cip_batch.specs.Due.{texts_from, verdict_from};

use crate::error::StreamError;
use crate::jobs::processor::RecordOutput;
use crate::status::StreamStatus;
use cip_io::{Failed, Sink, WriteBuffer};
use std::alloc::Global;

// How many bytes wait to be written at once, at most: 256 KiB.
const JOINED: usize = 262_144;

/// Writes the outputs of records, in their order and at once as far as it isn't long. Says what they add to the end
/// of the run.
pub fn write_outputs<N: Copy, K: Sink>(
    alloc: Global,
    found: &[RecordOutput<N>],
    sink: &mut K,
) -> Result<StreamStatus<N>, StreamError>
    ensures answered { (expected : ExpectedOutput N) (number : ℕ) (records : List (List ℕ))
        → found.now ≡ told_from expected number records
        → Answers expected number records result (K.taken sink.old) (K.taken sink.new) }
    ensures fault { IsErrOf result StreamError.WriteFault → Rose (K.faults sink.old) (K.faults sink.new) }
    ensures later { K.faults sink.old ≤ K.faults sink.new }
{
    let Ok(mut joined) = WriteBuffer::with_room(alloc, room_for(found)) else {
        return Err(StreamError::Memory);
    };
    match write_joined(found, &mut joined, sink) {
        Ok(verdict) => Ok(verdict),
        Err(_) => Err(StreamError::WriteFault),
    }
}

// How much room the texts of records take, as far as they are written together.
fn room_for<N>(found: &[RecordOutput<N>]) -> usize
    ensures { result ≤ JOINED }
{
    let mut room: usize = 0;
    for one in found {
        room = room.saturating_add(one.text.len()).min(JOINED);
    }
    room
}

// The same where there is room for texts that wait, of which there are none yet.
fn write_joined<N: Copy, K: Sink>(
    found: &[RecordOutput<N>],
    joined: &mut WriteBuffer,
    sink: &mut K,
) -> Result<StreamStatus<N>, Failed>
    requires { joined.old ≡ [] }
    ensures output { (expected : ExpectedOutput N) (number : ℕ) (records : List (List ℕ)) → found.now ≡ told_from expected number records
        → IfOk result (λ verdict. verdict_from expected number records ≡ verdict) }
    ensures written { (expected : ExpectedOutput N) (number : ℕ) (records : List (List ℕ)) → found.now ≡ told_from expected number records
        → OnOk result (Appends (K.taken sink.old) (K.taken sink.new) (texts_from expected number records)) }
    ensures stopped { (expected : ExpectedOutput N) (number : ℕ) (records : List (List ℕ)) → found.now ≡ told_from expected number records
        → OnErr result (AppendsPrefix (K.taken sink.old) (K.taken sink.new) (texts_from expected number records)) }
    ensures cause { HasCause (K.faults sink.old) (K.faults sink.new) result }
{
    let mut verdict = StreamStatus::clear();
    for one in found {
        match push_text(one, joined, sink) {
            Ok(output) => verdict = verdict.and(output),
            Err(failed) => return Err(failed),
        }
    }
    match joined.flush(sink) {
        Ok(()) => Ok(verdict),
        Err(failed) => Err(failed),
    }
}

// Puts the text of a record after those that wait.
fn push_text<N: Copy, K: Sink>(
    one: &RecordOutput<N>,
    joined: &mut WriteBuffer,
    sink: &mut K,
) -> Result<StreamStatus<N>, Failed>
    ensures verdict { IfOk result (λ verdict. verdict ≡ one.now.verdict) }
    ensures taken { OnOk result
        (TakesFront (K.taken sink.old) (K.taken sink.new) (joined.old ++ one.now.text) joined.new) }
    ensures prefix { OnErr result (AppendsPrefix (K.taken sink.old) (K.taken sink.new) (joined.old ++ one.now.text)) }
    ensures cause { HasCause (K.faults sink.old) (K.faults sink.new) result }
{
    match joined.push(&one.text, sink) {
        Ok(()) => Ok(one.verdict),
        Err(failed) => Err(failed),
    }
}
