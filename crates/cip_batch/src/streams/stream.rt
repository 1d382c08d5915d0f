// Answering a whole stream.
ghost use Rattle.std.specs.Prelude.{◌≡◌, ◌<◌, ◌+◌, ◌-◌, ◌^◌, ◌++◌, [], true, None, IfSome, IsErrOf, IsOk, length};
ghost use Rattle.std.specs.Io.KnownBytes.{IsAtEnd};
ghost use Rattle.cip_frame.specs.Framing.{is_within};
ghost use Rattle.cip_frame.specs.Records.{tail_of};
ghost use Rattle.cip_io.specs.Faults.{Rose};
ghost use Rattle.cip_batch.specs.Endings.{EndsAs, AnswersTaken};
ghost use Rattle.cip_batch.specs.Halting.{AnswersHalted, AnswersSource, ended_by};
ghost use Rattle.cip_batch.specs.Reading.{IsFresh, TakesAtMost};

use crate::error::StreamError;
use crate::jobs::batch::{
    Batch, process_batch, process_complete_records, process_remaining, process_tail,
};
use crate::jobs::pool::{PoolWorkers, WorkerPool};
use crate::jobs::processor::RecordProcessor;
use crate::limits::Limits;
use crate::status::StreamStatus;
use crate::streams::gate::Gate;
use crate::streams::input::{InputEnd, ReadStep, piece_buffer, read_piece};
use cip_frame::{Framer, Tail};
use cip_io::{Sink, Source};
use std::alloc::Global;
use std::mem;
use std::thread::Threads;

/// Reads the source to its end, or to the first byte past a limit, and writes the outputs of its records, batch by
/// batch. Says what the records add to the end of the run. The pool changes nothing that is written.
pub fn process_stream<
    R: Threads + Sync,
    G: Gate + Sync,
    T: RecordProcessor + Sync,
    S: Source,
    K: Sink,
>(
    pool: &WorkerPool<'_, R, G>,
    processor: &T,
    limits: Limits,
    source: &mut S,
    sink: &mut K,
) -> Result<StreamStatus<T::Note>, StreamError>
    requires record { limits.record < 2 ^ 31 }
    requires input { limits.input < 2 ^ 63 }
    ensures ended { IfSome (S.left source.old) (EndsAs (T.expected processor.now) limits result
        (K.taken sink.old) (K.taken sink.new)) }
    ensures whole { IsOk result → IsAtEnd (S.left source.new) }
    ensures read_fault { IsErrOf result StreamError.ReadFault → AnswersTaken (T.expected processor.now) limits
        (S.left source.old) (S.left source.new) (K.taken sink.old) (K.taken sink.new) }
    ensures bounded { TakesAtMost (limits.input + 1) (S.left source.old) (S.left source.new) }
    ensures source_fault { IsErrOf result StreamError.ReadFault → Rose (S.faults source.old) (S.faults source.new) }
    ensures sink_fault { IsErrOf result StreamError.WriteFault → Rose (K.faults sink.old) (K.faults sink.new) }
{
    let Ok(piece) = piece_buffer(pool.alloc) else {
        return Err(StreamError::Memory);
    };
    let Ok(mut desks) = PoolWorkers::reserve(pool, processor) else {
        return Err(StreamError::Memory);
    };
    let mut inflow = Inflow {
        alloc: pool.alloc,
        piece,
        framer: Framer::new(pool.alloc, limits.record),
    };
    let mut batch = Batch::new(pool.alloc, processor, pool.workers);
    answer_pieces(&mut desks, &mut inflow, &mut batch, limits, source, sink)
}

// What the bytes of a source come through: room for a piece, and the framer that cuts it.
#[derive(Drop)]
struct Inflow {
    alloc: Global,
    piece: Vec<u8>,
    framer: Framer,
}

impl Inflow {
    // What follows the last whole record. No more pieces come.
    fn finish(&mut self) -> Tail
        requires { self.old.framer.fault ≡ None }
        ensures small { is_within self.old.framer.limit result ≡ true }
        ensures tail { result ≡ tail_of self.old.framer.open_bytes }
    {
        let framer = mem::replace(&mut self.framer, Framer::new(self.alloc, 0));
        framer.finish()
    }
}

// The same, from the first piece on.
fn answer_pieces<
    'a,
    R: Threads + Sync,
    G: Gate + Sync,
    T: RecordProcessor + Sync,
    S: Source,
    K: Sink,
>(
    desks: &mut PoolWorkers<'_, R, G, T>,
    inflow: &mut Inflow,
    batch: &mut Batch<'a, T>,
    limits: Limits,
    source: &mut S,
    sink: &mut K,
) -> Result<StreamStatus<T::Note>, StreamError>
    requires record { limits.record < 2 ^ 31 }
    requires input { limits.input < 2 ^ 63 }
    requires piece { 0 < length inflow.old.piece.items }
    requires fresh { IsFresh limits.record inflow.old.framer }
    requires first { batch.old.first ≡ 1 }
    requires none { batch.old.records ≡ [] }
    ensures answered { AnswersSource (T.expected batch.old.processor) limits result
        (S.left source.old) (S.left source.new) (K.taken sink.old) (K.taken sink.new) }
    ensures source_fault { IsErrOf result StreamError.ReadFault → Rose (S.faults source.old) (S.faults source.new) }
    ensures sink_fault { IsErrOf result StreamError.WriteFault → Rose (K.faults sink.old) (K.faults sink.new) }
{
    let mut room = limits.input;
    let mut verdict = StreamStatus::clear();
    loop {
        match read_piece(source, &mut inflow.piece, &mut inflow.framer, room) {
            Ok(ReadStep::Piece(count)) => {
                match process_complete_records(desks, &mut inflow.framer, batch, sink) {
                    Ok(answered) => verdict = verdict.and(answered),
                    Err(stop) => return Err(stop),
                }
                room -= count;
            }
            Ok(ReadStep::Last(halt)) => {
                return verdict.then(answer_halted(halt, desks, inflow, batch, sink));
            }
            Err(stop) => return Err(stop),
        }
    }
}

// Answers the records that are gathered, where nothing more is read.
fn answer_halted<'a, R: Threads + Sync, G: Gate + Sync, T: RecordProcessor + Sync, K: Sink>(
    halt: InputEnd,
    desks: &mut PoolWorkers<'_, R, G, T>,
    inflow: &mut Inflow,
    batch: &mut Batch<'a, T>,
    sink: &mut K,
) -> Result<StreamStatus<T::Note>, StreamError>
    requires limit { inflow.old.framer.limit < 2 ^ 31 }
    requires room { batch.old.first + length (batch.old.records ++ inflow.old.framer.waiting) < 2 ^ 64 - 1 }
    requires sound { halt ≡ InputEnd.End → inflow.old.framer.fault ≡ None }
    ensures answered { AnswersHalted (T.expected batch.old.processor) halt batch.old.first batch.old.records
        inflow.old.framer result (K.taken sink.old) (K.taken sink.new) }
    ensures fault { IsErrOf result StreamError.WriteFault → Rose (K.faults sink.old) (K.faults sink.new) }
{
    match halt {
        InputEnd::End => process_tail(desks, inflow.finish(), batch, sink),
        InputEnd::Fault => ended_by(StreamError::ReadFault, process_batch(desks, batch, sink)),
        InputEnd::Limit => ended_by(
            StreamError::Limit,
            process_remaining(desks, &mut inflow.framer, batch, sink),
        ),
    }
}

// The cause for which it ends after records, unless those stopped it.
fn ended_by<N: Copy>(
    cause: StreamError,
    answered: Result<StreamStatus<N>, StreamError>,
) -> Result<StreamStatus<N>, StreamError>
    ensures { result ≡ ended_by cause answered }
{
    match answered {
        Ok(_) => Err(cause),
        Err(stop) => Err(stop),
    }
}
