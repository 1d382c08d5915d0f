// Answering records in batches.
ghost use Rattle.std.specs.Prelude.{◌≡◌, ◌≤◌, ◌<◌, ◌+◌, ◌-◌, ◌^◌, ◌++◌, ◌∷◌, [], ℕ, List, true, IfErr, IsErrOf, OnOk, length, map, if◌then◌else◌};
ghost use Rattle.std.specs.Io.KnownBytes.{Appends};
ghost use Rattle.cip_io.specs.Faults.{Rose};
ghost use Rattle.cip_io.specs.Growth.{AppendsPrefix};
ghost use Rattle.cip_frame.specs.Framing.{is_within};
ghost use Rattle.cip_frame.specs.Records.{tail_of};
ghost use Rattle.cip_batch.specs.Batches.{Answers, AnswersFirst, AnswersTail, output_of};

use crate::error::StreamError;
use crate::jobs::job::Job;
use crate::jobs::pool::PoolWorkers;
use crate::jobs::processor::{RecordOutput, RecordProcessor};
use crate::status::StreamStatus;
use crate::streams::gate::Gate;
use crate::streams::output::write_outputs;
use cip_frame::{Framer, Tail};
use cip_io::{Sink, push_all};
use cip_text::Bytes;
use std::alloc::{AllocError, Global};
use std::marker::Model;
use std::thread::Threads;

// How many records a batch has for each worker.
const RECORDS: usize = 8;

// How many bytes of records are enough for a batch: 64 MiB.
const BYTES: u64 = 67_108_864;

// What a record weighs beside its bytes, so that many short ones are shared too.
const RECORD_WEIGHT: u64 = 1_000;

/// A record that waits for its answer.
#[derive(Drop)]
pub struct PendingRecord<'a, T: RecordProcessor> {
    processor: &'a T,
    alloc: Global,
    number: u64,
    bytes: Bytes,
    ghost short: { length bytes ≤ 2 ^ 31 },
}

impl<'a, T: RecordProcessor> Job for PendingRecord<'a, T> {
    type Out = RecordOutput<T::Note>;

    type State = T::State;

    ghost answer = { λ job. output_of (T.expected job.processor.now) job.number job.bytes };

    fn weight(&self) -> u64 {
        let bytes = self.bytes.as_slice().len() as u64;
        RECORD_WEIGHT + bytes
    }

    fn work(&self, state: &mut T::State) -> Result<RecordOutput<T::Note>, AllocError> {
        self.processor
            .process(self.alloc, state, self.number, self.bytes.as_slice())
    }
}

/// The records that wait for their answers.
#[derive(Drop)]
pub struct Batch<'a, T: RecordProcessor> {
    processor: &'a T,
    alloc: Global,
    first: u64,
    waiting: Vec<PendingRecord<'a, T>>,
    bytes: u64,
    full: usize,
}

impl<'a, T: RecordProcessor> Model for Batch<'a, T> {
    ghost use Rattle.std.specs.Prelude.{◌≡◌, List, ℕ, map};
    ghost use Rattle.cip_batch.specs.Batches.{Gathered, told_from, output_of};

    ghost Value = { Gathered T };

    ghost view = { λ b. record {
      processor = b.processor.now;
      first = b.first;
      records = map (λ w. w.bytes) b.waiting.items;
    } };

    ghost invariant = { λ b. map (λ w. output_of (T.expected w.processor.now) w.number w.bytes) b.waiting.items
        ≡ told_from (T.expected b.processor.now) b.first (map (λ w. w.bytes) b.waiting.items) };
}

impl<'a, T: RecordProcessor + Sync> Batch<'a, T> {
    /// A batch for n workers, whose first record has the number 1. It takes no memory.
    pub fn new(alloc: Global, processor: &'a T, workers: u8) -> Batch<'a, T>
        ensures { result ≡ record { processor = processor.now; first = 1; records = [] } }
    {
        Batch {
            processor,
            alloc,
            first: 1,
            waiting: Vec::new(alloc),
            bytes: 0,
            full: RECORDS * workers as usize,
        }
    }

    fn is_full(&self) -> bool {
        self.waiting.len() >= self.full || self.bytes >= BYTES
    }

    // Whether blank lines after the last record are written.
    fn keeps_blank_tail(&self) -> bool
        ensures { result ≡ (T.expected self.now.processor).keeps_blank_tail }
    {
        self.processor.keeps_blank_tail()
    }

    // Puts a record after the others.
    fn push(&mut self, bytes: Bytes) -> Result<(), AllocError>
        requires short { length bytes ≤ 2 ^ 31 }
        requires room { self.old.first + length self.old.records < 2 ^ 64 - 1 }
        ensures pushed { OnOk result (self.new ≡ record self.old { records = self.old.records ++ bytes ∷ [] }) }
        ensures processor { self.new.processor ≡ self.old.processor }
    {
        let number = self.first + self.waiting.len() as u64;
        self.bytes = self.bytes.saturating_add(bytes.as_slice().len() as u64);
        self.waiting.push(PendingRecord {
            processor: self.processor,
            alloc: self.alloc,
            number,
            bytes,
        })?;
        Ok(())
    }

    // Answers its records, and writes the answers in their order. Says what they add to the end of the run.
    fn answer<R: Threads + Sync, G: Gate + Sync, K: Sink>(
        &self,
        desks: &mut PoolWorkers<'_, R, G, T>,
        sink: &mut K,
    ) -> Result<StreamStatus<T::Note>, StreamError>
        ensures answered { Answers (T.expected self.now.processor) self.now.first self.now.records result
            (K.taken sink.old) (K.taken sink.new) }
        ensures fault { IsErrOf result StreamError.WriteFault → Rose (K.faults sink.old) (K.faults sink.new) }
        ensures later { K.faults sink.old ≤ K.faults sink.new }
    {
        let Ok(found) = desks.answer(&self.waiting) else {
            return Err(StreamError::Memory);
        };
        write_outputs(self.alloc, &found, sink)
    }

    // Its records were answered, and those that come are numbered on.
    fn empty(&mut self)
        requires room { self.old.first + length self.old.records < 2 ^ 64 }
        ensures { self.new ≡ record self.old { first = self.old.first + length self.old.records; records = [] } }
    {
        self.first += self.waiting.len() as u64;
        self.waiting.clear();
        self.bytes = 0;
    }
}

/// Takes the records that wait in the framer, and answers each batch that is full. Says what the answered records add
/// to the end of the run.
pub fn process_complete_records<
    'a,
    R: Threads + Sync,
    G: Gate + Sync,
    T: RecordProcessor + Sync,
    K: Sink,
>(
    desks: &mut PoolWorkers<'_, R, G, T>,
    framer: &mut Framer,
    batch: &mut Batch<'a, T>,
    sink: &mut K,
) -> Result<StreamStatus<T::Note>, StreamError>
    requires limit { framer.old.limit < 2 ^ 31 }
    requires room { batch.old.first + length (batch.old.records ++ framer.old.waiting) < 2 ^ 64 }
    ensures answered { AnswersFirst (T.expected batch.old.processor) batch.old.first
        (batch.old.records ++ framer.old.waiting) batch.new.first batch.new.records result
        (K.taken sink.old) (K.taken sink.new) }
    ensures emptied { OnOk result (framer.new ≡ record framer.old { waiting = [] }) }
    ensures processor { batch.new.processor ≡ batch.old.processor }
    ensures fault { IsErrOf result StreamError.WriteFault → Rose (K.faults sink.old) (K.faults sink.new) }
    ensures later { K.faults sink.old ≤ K.faults sink.new }
{
    let mut verdict = StreamStatus::clear();
    while let Some(next) = framer.next() {
        match take_record(desks, next.bytes, batch, sink) {
            Ok(answered) => verdict = verdict.and(answered),
            Err(stop) => return Err(stop),
        }
    }
    Ok(verdict)
}

// Puts a record into the batch, and answers the batch where it is full then.
fn take_record<'a, R: Threads + Sync, G: Gate + Sync, T: RecordProcessor + Sync, K: Sink>(
    desks: &mut PoolWorkers<'_, R, G, T>,
    bytes: Bytes,
    batch: &mut Batch<'a, T>,
    sink: &mut K,
) -> Result<StreamStatus<T::Note>, StreamError>
    requires short { length bytes ≤ 2 ^ 31 }
    requires room { batch.old.first + length batch.old.records < 2 ^ 64 - 1 }
    ensures answered { AnswersFirst (T.expected batch.old.processor) batch.old.first (batch.old.records ++ bytes ∷ [])
        batch.new.first batch.new.records result (K.taken sink.old) (K.taken sink.new) }
    ensures processor { batch.new.processor ≡ batch.old.processor }
    ensures fault { IsErrOf result StreamError.WriteFault → Rose (K.faults sink.old) (K.faults sink.new) }
    ensures later { K.faults sink.old ≤ K.faults sink.new }
{
    let Ok(()) = batch.push(bytes) else {
        return Err(StreamError::Memory);
    };
    if batch.is_full() {
        process_batch(desks, batch, sink)
    } else {
        Ok(StreamStatus::clear())
    }
}

/// Answers the records of a batch, writes the answers in the order of the records, and empties the batch. Says what
/// they add to the end of the run.
pub fn process_batch<'a, R: Threads + Sync, G: Gate + Sync, T: RecordProcessor + Sync, K: Sink>(
    desks: &mut PoolWorkers<'_, R, G, T>,
    batch: &mut Batch<'a, T>,
    sink: &mut K,
) -> Result<StreamStatus<T::Note>, StreamError>
    requires room { batch.old.first + length batch.old.records < 2 ^ 64 }
    ensures answered { Answers (T.expected batch.old.processor) batch.old.first batch.old.records result
        (K.taken sink.old) (K.taken sink.new) }
    ensures emptied { OnOk result (batch.new ≡ record batch.old {
      first = batch.old.first + length batch.old.records;
      records = [];
    }) }
    ensures processor { batch.new.processor ≡ batch.old.processor }
    ensures fault { IsErrOf result StreamError.WriteFault → Rose (K.faults sink.old) (K.faults sink.new) }
    ensures later { K.faults sink.old ≤ K.faults sink.new }
{
    match batch.answer(desks, sink) {
        Ok(verdict) => {
            batch.empty();
            Ok(verdict)
        }
        Err(stop) => Err(stop),
    }
}

/// Answers all records that wait, those in the framer after those of the batch. Says what they add to the end of the
/// run.
pub fn process_remaining<'a, R: Threads + Sync, G: Gate + Sync, T: RecordProcessor + Sync, K: Sink>(
    desks: &mut PoolWorkers<'_, R, G, T>,
    framer: &mut Framer,
    batch: &mut Batch<'a, T>,
    sink: &mut K,
) -> Result<StreamStatus<T::Note>, StreamError>
    requires limit { framer.old.limit < 2 ^ 31 }
    requires room { batch.old.first + length (batch.old.records ++ framer.old.waiting) < 2 ^ 64 }
    ensures answered { Answers (T.expected batch.old.processor) batch.old.first (batch.old.records ++ framer.old.waiting)
        result (K.taken sink.old) (K.taken sink.new) }
    ensures fault { IsErrOf result StreamError.WriteFault → Rose (K.faults sink.old) (K.faults sink.new) }
    ensures later { K.faults sink.old ≤ K.faults sink.new }
{
    match process_complete_records(desks, framer, batch, sink) {
        Ok(verdict) => verdict.then(process_batch(desks, batch, sink)),
        Err(stop) => Err(stop),
    }
}

/// Answers the last batch, into which a last record without its terminator line goes, and writes blank lines after it
/// where they are kept. Says what its records add to the end of the run.
pub fn process_tail<'a, R: Threads + Sync, G: Gate + Sync, T: RecordProcessor + Sync, K: Sink>(
    desks: &mut PoolWorkers<'_, R, G, T>,
    tail: Tail,
    batch: &mut Batch<'a, T>,
    sink: &mut K,
) -> Result<StreamStatus<T::Note>, StreamError>
    requires small { is_within (2 ^ 31) tail ≡ true }
    requires room { batch.old.first + length batch.old.records < 2 ^ 64 - 1 }
    ensures answered { (rest : List ℕ) → tail ≡ tail_of rest
        → AnswersTail (T.expected batch.old.processor) batch.old.first batch.old.records rest result
        (K.taken sink.old) (K.taken sink.new) }
    ensures fault { IsErrOf result StreamError.WriteFault → Rose (K.faults sink.old) (K.faults sink.new) }
    ensures later { K.faults sink.old ≤ K.faults sink.new }
{
    match tail {
        Tail::Nothing => process_batch(desks, batch, sink),
        Tail::Blank(lines) => answer_with_blank(desks, lines.as_slice(), batch, sink),
        Tail::Last(last) => {
            let Ok(()) = batch.push(last.bytes) else {
                return Err(StreamError::Memory);
            };
            process_batch(desks, batch, sink)
        }
    }
}

// Answers the last batch, and writes the blank lines after it where they are kept.
fn answer_with_blank<'a, R: Threads + Sync, G: Gate + Sync, T: RecordProcessor + Sync, K: Sink>(
    desks: &mut PoolWorkers<'_, R, G, T>,
    lines: &[u8],
    batch: &mut Batch<'a, T>,
    sink: &mut K,
) -> Result<StreamStatus<T::Note>, StreamError>
    requires room { batch.old.first + length batch.old.records < 2 ^ 64 }
    ensures answered { (rest : List ℕ) → Tail.Blank lines.now ≡ tail_of rest
        → AnswersTail (T.expected batch.old.processor) batch.old.first batch.old.records rest result
        (K.taken sink.old) (K.taken sink.new) }
    ensures fault { IsErrOf result StreamError.WriteFault → Rose (K.faults sink.old) (K.faults sink.new) }
    ensures later { K.faults sink.old ≤ K.faults sink.new }
{
    match process_batch(desks, batch, sink) {
        Ok(verdict) => match write_blank(batch.keeps_blank_tail(), lines, sink) {
            Ok(()) => Ok(verdict),
            Err(stop) => Err(stop),
        },
        Err(stop) => Err(stop),
    }
}

// Writes blank lines where they are kept.
fn write_blank<K: Sink>(kept: bool, bytes: &[u8], sink: &mut K) -> Result<(), StreamError>
    ensures whole { OnOk result (Appends (K.taken sink.old) (K.taken sink.new) (if kept then bytes.now else [])) }
    ensures stopped { IfErr result (λ stop. (stop ≡ StreamError.WriteFault)
        × AppendsPrefix (K.taken sink.old) (K.taken sink.new) (if kept then bytes.now else [])) }
    ensures fault { IsErrOf result StreamError.WriteFault → Rose (K.faults sink.old) (K.faults sink.new) }
    ensures later { K.faults sink.old ≤ K.faults sink.new }
{
    if kept {
        match push_all(sink, bytes) {
            Ok(()) => Ok(()),
            Err(_) => Err(StreamError::WriteFault),
        }
    } else {
        Ok(())
    }
}
