// Made records that are labelled.
ghost use Rattle.std.specs.Prelude.{◌≡◌, ◌≤◌, ◌<◌, ◌+◌, ◌^◌, ◌++◌, IfOk, IsErrOf, fold, length, map};
ghost use Rattle.cip_io.specs.Faults.{Rose};
ghost use Rattle.cip_print.specs.Tallies.{summary_line};
ghost use Rattle.cip_commands.specs.Making.{Writes};
ghost use Rattle.cip_commands.specs.Trying.{answer_of, answers_to, counted, with_one, Sums};

use crate::series::{LabelledSeries, SeriesRecord};
use crate::worker_state::WorkerState;
use cip_answer::is_flagged;
use cip_batch::{Gate, Job, StreamError, Worker, WorkerPool, map_batch};
use cip_io::{Sink, push_all};
use cip_label::RootRanker;
use cip_make::record;
use cip_print::{Answer, Tally};
use std::alloc::{AllocError, Global};
use std::marker::{Model, PhantomData};
use std::thread::Threads;

// How many records a batch has for each worker.
const RECORDS: u32 = 8;

impl<D: RootRanker + Drop + Send> Job for SeriesRecord<D> {
    type Out = Answer;

    type State = WorkerState<D>;

    ghost answer = { λ job. answer_of job };

    // Made records are much alike.
    fn weight(&self) -> u64 {
        1
    }

    #[tactic(auto, unfolding(crate::specs::Trying::made_answer))]
    fn work(&self, state: &mut WorkerState<D>) -> Result<Answer, AllocError> {
        // A state of `new_workers` fits already, and nothing is taken; but the contract allows any state.
        let Ok(()) = state.resize(self.alloc, self.trial.labelling.nodes) else {
            return Err(AllocError);
        };
        let Ok(bytes) = record(self.alloc, self.trial.series.start, self.number) else {
            return Err(AllocError);
        };
        let answer = state.answer(self.alloc, &bytes, self.trial.labelling.rules);
        // proof: dropped by a call, which is quicker to prove than an exit that owns them
        drop(bytes);
        answer
    }
}

/// Labels the records in batches of eight for each worker, and writes the summary of their outcomes. Says whether a
/// record is refused or a unit over the bound.
pub fn write_summary<
    D: RootRanker + Drop + Send + Sync,
    R: Threads + Sync,
    G: Gate + Sync,
    K: Sink,
>(pool: &WorkerPool<'_, R, G>, trial: &LabelledSeries, sink: &mut K) -> Result<bool, StreamError>
    ensures summed { Sums (answers_to trial.now.series trial.now.labelling trial.now.series.records) result
        (K.taken sink.old) (K.taken sink.new) }
    ensures fault { IsErrOf result StreamError.WriteFault → Rose (K.faults sink.old) (K.faults sink.new) }
{
    match count_records::<D, R, G>(pool, trial) {
        Ok(count) => write_count(pool.alloc, &count, sink),
        Err(_) => Err(StreamError::Memory),
    }
}

// Writes the summary of what was counted. Says whether a record is flagged.
fn write_count<K: Sink>(alloc: Global, count: &Count, sink: &mut K) -> Result<bool, StreamError>
    ensures written { Writes (summary_line count.now.counts) result (K.taken sink.old) (K.taken sink.new) }
    ensures flagged { IfOk result (λ flagged. flagged ≡ count.now.flagged) }
    ensures fault { IsErrOf result StreamError.WriteFault → Rose (K.faults sink.old) (K.faults sink.new) }
{
    let Ok(line) = count.tally.line(alloc) else {
        return Err(StreamError::Memory);
    };
    match push_all(sink, &line) {
        Ok(()) => Ok(count.flagged),
        Err(_) => Err(StreamError::WriteFault),
    }
}

// How many units of the records so far have which outcome, and whether one of the records is flagged.
#[derive(Drop)]
struct Count {
    tally: Tally,
    flagged: bool,
}

impl Model for Count {
    ghost use Rattle.cip_commands.specs.Trying.{Counted};

    ghost Value = { Counted };

    ghost view = { λ count. record { counts = count.tally; flagged = count.flagged } };
}

impl Count {
    fn add(&mut self, answer: &Answer)
        requires few { self.old.counts.records < 2 ^ 31 }
        ensures added { self.new ≡ with_one self.old answer.now }
        ensures one { self.new.counts.records ≡ self.old.counts.records + 1 }
    {
        self.tally.count(answer);
        self.flagged |= is_flagged(answer);
    }

    fn add_all(&mut self, answers: &[Answer])
        requires few { self.old.counts.records + length answers.now < 2 ^ 31 }
        ensures added { self.new ≡ fold with_one self.old answers.now }
        ensures records { self.new.counts.records ≡ self.old.counts.records + length answers.now }
    {
        for answer in answers {
            self.add(answer);
        }
    }
}

// Counts the outcomes of all records, by workers that are made for it and given back.
fn count_records<D: RootRanker + Drop + Send + Sync, R: Threads + Sync, G: Gate + Sync>(
    pool: &WorkerPool<'_, R, G>,
    trial: &LabelledSeries,
) -> Result<Count, AllocError>
    ensures { IfOk result (λ count. count
        ≡ counted (answers_to trial.now.series trial.now.labelling trial.now.series.records)) }
{
    let Ok(mut clerks) = new_workers::<D>(pool.alloc, trial.labelling.nodes, pool.workers) else {
        return Err(AllocError);
    };
    let counted = count_batches(pool, trial, &mut clerks);
    // proof: dropped by a call, which is quicker to prove than an exit that owns them
    drop(clerks);
    counted
}

// Counts the outcomes of all records with these workers.
fn count_batches<D: RootRanker + Drop + Send + Sync, R: Threads + Sync, G: Gate + Sync>(
    pool: &WorkerPool<'_, R, G>,
    trial: &LabelledSeries,
    clerks: &mut [Worker<WorkerState<D>, Answer>],
) -> Result<Count, AllocError>
    requires { length clerks.old ≡ pool.now.workers }
    ensures { IfOk result (λ count. count
        ≡ counted (answers_to trial.now.series trial.now.labelling trial.now.series.records)) }
{
    let mut count = Count {
        tally: Tally::new(),
        flagged: false,
    };
    let mut done = 0;
    while done < trial.series.records {
        let Ok(more) = count_batch(pool, trial, done, clerks, &mut count) else {
            return Err(AllocError);
        };
        done += more;
    }
    Ok(count)
}

// Counts the outcomes of a batch after the first n records. Says how many records it has.
fn count_batch<D: RootRanker + Drop + Send + Sync, R: Threads + Sync, G: Gate + Sync>(
    pool: &WorkerPool<'_, R, G>,
    trial: &LabelledSeries,
    done: u32,
    clerks: &mut [Worker<WorkerState<D>, Answer>],
    count: &mut Count,
) -> Result<u32, AllocError>
    requires within { done < trial.now.series.records }
    requires clerks { length clerks.old ≡ pool.now.workers }
    requires so_far { count.old ≡ counted (answers_to trial.now.series trial.now.labelling done) }
    requires records { count.old.counts.records ≡ done }
    ensures counted { IfOk result (λ more. count.new
        ≡ counted (answers_to trial.now.series trial.now.labelling (done + more))) }
    ensures records { IfOk result (λ more. count.new.counts.records ≡ done + more) }
    ensures some { IfOk result (λ more. 0 < more) }
    ensures within { IfOk result (λ more. done + more ≤ trial.now.series.records) }
    ensures clerks { length clerks.new ≡ length clerks.old }
{
    let Ok(jobs) = next_jobs(pool.alloc, trial, done, pool.workers) else {
        return Err(AllocError);
    };
    let more = jobs.len() as u32;
    let answers = map_batch(pool.rt, pool.alloc, &jobs, clerks, pool.gate);
    // proof: dropped by a call, which is quicker to prove than an exit that owns them
    drop(jobs);
    match answers {
        Ok(answers) => {
            count.add_all(&answers);
            Ok(more)
        }
        Err(error) => Err(error),
    }
}

// n workers, each with a state of its own.
fn new_workers<D: RootRanker + Drop>(
    alloc: Global,
    nodes: u32,
    workers: u8,
) -> Result<Vec<Worker<WorkerState<D>, Answer>>, AllocError>
    requires some { 1 ≤ nodes }
    requires bounded { nodes ≤ 1000000 }
    ensures { IfOk result (λ clerks. length clerks.items ≡ workers) }
{
    let Ok(mut clerks) = Vec::with_capacity(alloc, workers as usize) else {
        return Err(AllocError);
    };
    while clerks.len() < workers as usize {
        let Ok(state) = WorkerState::reserve(alloc, nodes) else {
            return Err(AllocError);
        };
        clerks.push(Worker::new(alloc, state))?;
    }
    Ok(clerks)
}

// A batch of the records after the first n.
fn next_jobs<D>(
    alloc: Global,
    trial: &LabelledSeries,
    done: u32,
    workers: u8,
) -> Result<Vec<SeriesRecord<D>>, AllocError>
    requires within { done < trial.now.series.records }
    requires some { 1 ≤ workers }
    ensures jobs { IfOk result (λ jobs.
        answers_to trial.now.series trial.now.labelling done ++ map answer_of jobs.items
        ≡ answers_to trial.now.series trial.now.labelling (done + length jobs.items)) }
    ensures some { IfOk result (λ jobs. 0 < length jobs.items) }
    ensures within { IfOk result (λ jobs. done + length jobs.items ≤ trial.now.series.records) }
    ensures few { IfOk result (λ jobs. done + length jobs.items ≤ 100000) }
{
    let end = trial
        .series
        .records
        .min(done + RECORDS * u32::from(workers));
    let Ok(mut jobs) = Vec::with_capacity(alloc, (end - done) as usize) else {
        return Err(AllocError);
    };
    for before in done..end {
        let job = SeriesRecord {
            alloc,
            trial: *trial,
            number: before + 1,
            digraphs: PhantomData,
        };
        let Ok(()) = jobs.push(job) else {
            return Err(AllocError);
        };
    }
    Ok(jobs)
}
