// A batch of jobs, divided among workers.
ghost use Rattle.std.specs.Prelude.{◌≡◌, ◌≤◌, ◌<◌, ◌^◌, All, IfOk, OnOk, length, map, slice_index, slice_index_or};
ghost use Rattle.cip_batch.specs.Entries.{IsAnswer, AreAnswers, ArePlaced};

use crate::jobs::job::Job;
use crate::streams::gate::Gate;
use std::alloc::{AllocError, Global};
use std::thread::Threads;
use std::{mem, thread};

// Into how many parts a worker's share is cut, one of which stands for the start of a thread.
const START_PARTS: u64 = 4;

/// One who works: the state, which stays from batch to batch, and the answers to the jobs of the batch at hand.
#[derive(Drop)]
pub struct Worker<D, X> {
    state: D,
    answers: Result<Vec<Entry<X>>, AllocError>,
}

impl<D, X> Worker<D, X> {
    /// A worker without answers. It takes no memory.
    pub fn new(alloc: Global, state: D) -> Worker<D, X> {
        Worker {
            state,
            answers: Ok(Vec::new(alloc)),
        }
    }
}

// The answer to a job, with the place of the job in its batch.
#[derive(Drop)]
struct Entry<X> {
    place: usize,
    answer: X,
}

/// The answers of all jobs, in the order of the jobs, whatever the number of workers. Each job is dealt to the worker
/// who has the least by weight so far, the first of those who have, before any work begins. The last worker is the
/// calling thread; what the others have by weight begins with a quarter of a share, since their threads have to be
/// started. Each job enters the gate once, with its place, on the thread that works on it and before it works. Only
/// want of memory refuses it.
pub fn map_batch<R: Threads + Sync, J: Job + Sync, G: Gate + Sync>(
    rt: &R,
    alloc: Global,
    jobs: &[J],
    workers: &mut [Worker<J::State, J::Out>],
    gate: &G,
) -> Result<Vec<J::Out>, AllocError>
    requires some { 0 < length workers.old }
    requires few { length workers.old < 2 ^ 32 }
    requires jobs { length jobs.now < 2 ^ 63 }
    ensures answers { IfOk result (λ v. v.items ≡ map J.answer jobs.now) }
    ensures workers { length workers.new ≡ length workers.old }
{
    match work_together(rt, alloc, jobs, workers, gate) {
        Ok(mut found) => complete(alloc, jobs, &mut found, &mut workers[0].state, gate),
        Err(error) => Err(error),
    }
}

// What the workers answered, by the places of the jobs. Where there is one worker it starts no thread, and nothing is
// there.
fn work_together<R: Threads + Sync, J: Job + Sync, G: Gate + Sync>(
    rt: &R,
    alloc: Global,
    jobs: &[J],
    workers: &mut [Worker<J::State, J::Out>],
    gate: &G,
) -> Result<Vec<Option<Entry<J::Out>>>, AllocError>
    requires { 0 < length workers.old }
    ensures found { IfOk result (λ v. ArePlaced J.answer jobs.now v.items) }
    ensures workers { length workers.new ≡ length workers.old }
{
    let count = workers.len();
    if count == 1 {
        Ok(Vec::new(alloc))
    } else {
        let Ok(owners) = deal(alloc, jobs, count) else {
            return Err(AllocError);
        };
        work_as_dealt(rt, alloc, jobs, &owners, workers, gate);
        // proof: dropped by a call, which is quicker to prove than an exit that owns it
        drop(owners);
        by_places(alloc, jobs, workers)
    }
}

// Each worker answers the jobs that are dealt to it, in a thread of its own where one can be made.
fn work_as_dealt<R: Threads + Sync, J: Job + Sync, G: Gate + Sync>(
    rt: &R,
    alloc: Global,
    jobs: &[J],
    owners: &[usize],
    workers: &mut [Worker<J::State, J::Out>],
    gate: &G,
)
    requires some { 0 < length workers.old }
    requires dealt { length owners.now ≡ length jobs.now }
    ensures answers { All (λ w. IfOk w.answers (λ v. AreAnswers J.answer jobs.now v.items)) workers.new }
    ensures workers { length workers.new ≡ length workers.old }
{
    let count = workers.len();
    thread::for_each_mut(
        rt,
        workers,
        count,
        &|worker: usize, taker: &mut Worker<J::State, J::Out>|
            requires { length owners.now ≡ length jobs.now }
            ensures { IfOk taker.exit.now.answers (λ v. AreAnswers J.answer jobs.entry.now v.items) }
        {
            taker.answers = take_jobs(alloc, &mut taker.state, jobs, owners, worker, gate);
        },
    );
}

// Who works on each job: the worker who has the least by weight so far, the first of those who have.
fn deal<J: Job>(alloc: Global, jobs: &[J], workers: usize) -> Result<Vec<usize>, AllocError>
    requires { 0 < workers }
    ensures all { IfOk result (λ owners. length owners.items ≡ length jobs.now) }
    ensures each { IfOk result (λ owners. All (λ owner. owner < workers) owners.items) }
{
    let Ok(mut loads) = first_loads(alloc, whole_weight(jobs), workers) else {
        return Err(AllocError);
    };
    let Ok(mut owners) = Vec::with_capacity(alloc, jobs.len()) else {
        return Err(AllocError);
    };
    for job in jobs {
        let owner = least_place(&loads);
        loads[owner] = loads[owner].saturating_add(job.weight());
        owners.push_reserved(owner);
    }
    Ok(owners)
}

// What all jobs weigh together.
fn whole_weight<J: Job>(jobs: &[J]) -> u64 {
    let mut whole = 0u64;
    for job in jobs {
        whole = whole.saturating_add(job.weight());
    }
    whole
}

// What each worker has before a job is dealt. Where the calling thread, which works as the last worker, is done before
// the others, it sleeps, and systems put a thread that is started by one who slept on the same processor: so it gets
// more.
fn first_loads(alloc: Global, whole: u64, workers: usize) -> Result<Vec<u64>, AllocError>
    requires { 0 < workers }
    ensures { IfOk result (λ loads. length loads.items ≡ workers) }
{
    let late = whole / (workers as u64) / START_PARTS;
    let Ok(mut loads) = vec![in alloc; late; workers] else {
        return Err(AllocError);
    };
    loads[workers - 1] = 0;
    Ok(loads)
}

// The place of the least of some loads, the first of those that are equal.
fn least_place(loads: &[u64]) -> usize
    requires { 0 < length loads.now }
    ensures within { result < length loads.now }
    ensures least { All (λ load. slice_index loads.now result ≤ load) loads.now }
{
    let mut least = 0;
    for place in 1..loads.len() {
        if loads[place] < loads[least] {
            least = place;
        }
    }
    least
}

// Answers the jobs of one worker.
fn take_jobs<J: Job, G: Gate>(
    alloc: Global,
    state: &mut J::State,
    jobs: &[J],
    owners: &[usize],
    worker: usize,
    gate: &G,
) -> Result<Vec<Entry<J::Out>>, AllocError>
    requires { length owners.now ≡ length jobs.now }
    ensures { IfOk result (λ v. AreAnswers J.answer jobs.now v.items) }
{
    let mut entries = Vec::new(alloc);
    for (place, owner) in owners.iter().enumerate() {
        if *owner == worker {
            let Ok(answer) = work_at(jobs, place, state, gate) else {
                return Err(AllocError);
            };
            entries.push(Entry { place, answer })?;
        }
    }
    Ok(entries)
}

// Takes the answers of all workers to the places of their jobs.
fn by_places<J: Job>(
    alloc: Global,
    jobs: &[J],
    workers: &mut [Worker<J::State, J::Out>],
) -> Result<Vec<Option<Entry<J::Out>>>, AllocError>
    requires { All (λ w. IfOk w.answers (λ v. AreAnswers J.answer jobs.now v.items)) workers.old }
    ensures found { IfOk result (λ v. ArePlaced J.answer jobs.now v.items) }
    ensures workers { length workers.new ≡ length workers.old }
{
    let Ok(mut found) = no_answers(alloc, jobs) else {
        return Err(AllocError);
    };
    match put_each(alloc, jobs, workers, &mut found) {
        Ok(()) => Ok(found),
        Err(error) => Err(error),
    }
}

// Puts the answers of each worker to their places.
fn put_each<J: Job>(
    alloc: Global,
    jobs: &[J],
    workers: &mut [Worker<J::State, J::Out>],
    found: &mut [Option<Entry<J::Out>>],
) -> Result<(), AllocError>
    requires workers { All (λ w. IfOk w.answers (λ v. AreAnswers J.answer jobs.now v.items)) workers.old }
    requires found { ArePlaced J.answer jobs.now found.old }
    ensures found { OnOk result (ArePlaced J.answer jobs.now found.new) }
    ensures workers { length workers.new ≡ length workers.old }
{
    for k in 0..workers.len() {
        let entries = mem::replace(&mut workers[k].answers, Ok(Vec::new(alloc)));
        let Ok(entries) = entries else {
            return Err(AllocError);
        };
        put_all(jobs, entries, found);
    }
    Ok(())
}

// A place for each job, with no answer.
fn no_answers<J: Job>(alloc: Global, jobs: &[J]) -> Result<Vec<Option<Entry<J::Out>>>, AllocError>
    ensures { IfOk result (λ v. ArePlaced J.answer jobs.now v.items) }
{
    let Ok(mut found) = Vec::with_capacity(alloc, jobs.len()) else {
        return Err(AllocError);
    };
    for _ in 0..jobs.len() {
        found.push_reserved(None);
    }
    Ok(found)
}

// Puts each entry to its place. The jobs are there for the contract alone.
fn put_all<J: Job>(jobs: &[J], entries: Vec<Entry<J::Out>>, found: &mut [Option<Entry<J::Out>>])
    requires entries { AreAnswers J.answer jobs.now entries.items }
    requires found { ArePlaced J.answer jobs.now found.old }
    ensures { ArePlaced J.answer jobs.now found.new }
{
    for entry in entries {
        put(jobs, entry, found);
    }
}

// Puts an entry to its place. The jobs are there for the contract alone.
fn put<J: Job>(jobs: &[J], entry: Entry<J::Out>, found: &mut [Option<Entry<J::Out>>])
    requires entry { IsAnswer J.answer jobs.now entry }
    requires found { ArePlaced J.answer jobs.now found.old }
    ensures { ArePlaced J.answer jobs.now found.new }
{
    let place = entry.place;
    if place < found.len() {
        found[place] = Some(entry);
    }
}

// All answers in order.
#[tactic(auto, using(crate::proofs::lemmas::InOrder::one_more))]
fn complete<J: Job, G: Gate>(
    alloc: Global,
    jobs: &[J],
    found: &mut [Option<Entry<J::Out>>],
    state: &mut J::State,
    gate: &G,
) -> Result<Vec<J::Out>, AllocError>
    requires { ArePlaced J.answer jobs.now found.old }
    ensures { IfOk result (λ v. v.items ≡ map J.answer jobs.now) }
{
    let Ok(mut answers) = Vec::with_capacity(alloc, jobs.len()) else {
        return Err(AllocError);
    };
    for place in 0..jobs.len() {
        let Ok(answer) = answer_at(jobs, place, found, state, gate) else {
            return Err(AllocError);
        };
        answers.push_reserved(answer);
    }
    Ok(answers)
}

// The answer to the job at a place: the one that was found there, else by work.
fn answer_at<J: Job, G: Gate>(
    jobs: &[J],
    place: usize,
    found: &mut [Option<Entry<J::Out>>],
    state: &mut J::State,
    gate: &G,
) -> Result<J::Out, AllocError>
    requires place { place < length jobs.now }
    requires found { ArePlaced J.answer jobs.now found.old }
    ensures found { ArePlaced J.answer jobs.now found.new }
    ensures answer { IfOk result (λ x. (d : J) → x ≡ J.answer (slice_index_or jobs.now place d)) }
{
    if place < found.len()
        && let Some(entry) = found[place].take()
        && entry.place == place
    {
        return Ok(entry.answer);
    }
    work_at(jobs, place, state, gate)
}

// Works on the job at a place, which enters the gate first.
fn work_at<J: Job, G: Gate>(
    jobs: &[J],
    place: usize,
    state: &mut J::State,
    gate: &G,
) -> Result<J::Out, AllocError>
    requires { place < length jobs.now }
    ensures { IfOk result (λ x. (d : J) → x ≡ J.answer (slice_index_or jobs.now place d)) }
{
    gate.enter(place as u64);
    jobs[place].work(state)
}
