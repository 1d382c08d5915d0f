// Batches of jobs that several workers share.
ghost use Rattle.std.specs.Prelude.{◌<◌, ◌^◌, length};

use cip_batch::{Gate, Job, Open, Worker, map_batch};
use gate_tables::Text;
use std::alloc::{AllocError, Global};
use std::sync::atomic::{AtomicU64, Ordering};
use std::thread::Threads;

// How often a counter is looked at before the wait is given up: some tenths of a second.
const TURNS: u64 = 100_000_000;

// How many jobs began, and whether one waited in vain.
#[derive(Drop)]
struct Met {
    begun: AtomicU64,
    missed: AtomicU64,
}

impl Met {
    fn new() -> Met {
        Met {
            begun: AtomicU64::new(0),
            missed: AtomicU64::new(0),
        }
    }
}

// A job that answers its number. The one whose work begins first, whichever it is, waits in it for the next one.
#[derive(Drop)]
struct Held<'a> {
    number: u32,
    met: &'a Met,
}

impl<'a> Job for Held<'a> {
    type Out = u32;

    type State = u32;

    ghost answer = { λ job. job.number };

    fn weight(&self) -> u64 {
        1
    }

    fn work(&self, state: &mut u32) -> Result<u32, AllocError> {
        *state = state.wrapping_add(1);
        if self.met.begun.fetch_add(1, Ordering::SeqCst) > 0 {
            return Ok(self.number);
        }
        for _ in 0..TURNS {
            if self.met.begun.load(Ordering::SeqCst) > 1 {
                return Ok(self.number);
            }
            std::hint::spin_loop();
        }
        self.met.missed.store(1, Ordering::SeqCst);
        Ok(self.number)
    }
}

fn held_jobs(alloc: Global, met: &Met) -> Result<Vec<Held<'_>>, AllocError> {
    let mut jobs = Vec::new(alloc);
    for number in 100..116u32 {
        jobs.push(Held { number, met })?;
    }
    Ok(jobs)
}

fn workers_at_desks(alloc: Global, count: u32) -> Result<Vec<Worker<u32, u32>>, AllocError> {
    let mut workers = Vec::new(alloc);
    for _ in 0..count {
        workers.push(Worker::new(alloc, 0u32))?;
    }
    Ok(workers)
}

// The answers to jobs that n workers share.
fn push_shared<R: Threads + Sync, J: Job<Out = u32, State = u32> + Sync, G: Gate + Sync>(
    rt: &R,
    alloc: Global,
    out: &mut Text,
    jobs: &[J],
    count: u32,
    gate: &G,
)
    requires { length jobs.now < 2 ^ 63 }
{
    match shared(rt, alloc, jobs, count, gate) {
        Ok(answers) => push_numbers(out, &answers),
        Err(_) => out.miss(),
    }
}

fn shared<R: Threads + Sync, J: Job<Out = u32, State = u32> + Sync, G: Gate + Sync>(
    rt: &R,
    alloc: Global,
    jobs: &[J],
    count: u32,
    gate: &G,
) -> Result<Vec<u32>, AllocError>
    requires { length jobs.now < 2 ^ 63 }
{
    let mut workers = workers_at_desks(alloc, count)?;
    if workers.is_empty() || workers.len() > 16 {
        return Err(AllocError);
    }
    map_batch(rt, alloc, jobs, &mut workers, gate)
}

fn push_numbers(out: &mut Text, numbers: &[u32]) {
    for number in numbers {
        out.push_number(i64::from(*number));
    }
}

/// The answers to sixteen jobs that n workers share, how many began, and whether one waited in vain: two are worked
/// on at once, which one thread alone can't.
pub fn meeting_jobs_told<R: Threads + Sync>(rt: &R, alloc: Global, out: &mut Text, workers: u32) {
    let met = Met::new();
    match held_jobs(alloc, &met) {
        Ok(jobs) => push_shared(rt, alloc, out, &jobs, workers, &Open),
        Err(_) => out.miss(),
    }
    push_counts(out, &met.begun, &met.missed)
}

fn push_counts(out: &mut Text, one: &AtomicU64, other: &AtomicU64) {
    let one = one.load(Ordering::SeqCst);
    let other = other.load(Ordering::SeqCst);
    write!(out, "; {one} {other}")
}

// A gate that counts those that come, and adds up their places.
#[derive(Drop)]
struct Counted {
    begun: AtomicU64,
    places: AtomicU64,
}

impl Counted {
    fn new() -> Counted {
        Counted {
            begun: AtomicU64::new(0),
            places: AtomicU64::new(0),
        }
    }
}

impl Gate for Counted {
    fn enter(&self, place: u64) {
        self.begun.fetch_add(1, Ordering::SeqCst);
        self.places.fetch_add(place, Ordering::SeqCst);
    }
}

// A job that turns so often before it answers its number.
#[derive(Drop)]
struct Long {
    number: u32,
    rounds: u32,
}

impl Job for Long {
    type Out = u32;

    type State = u32;

    ghost answer = { λ job. job.number };

    fn weight(&self) -> u64 {
        1
    }

    fn work(&self, _desk: &mut u32) -> Result<u32, AllocError> {
        for _ in 0..self.rounds {
            std::hint::spin_loop();
        }
        Ok(self.number)
    }
}

fn long_jobs(alloc: Global) -> Result<Vec<Long>, AllocError> {
    let mut jobs = Vec::new(alloc);
    for number in 0..100u32 {
        let rounds = if number % 17 == 3 { 1_000_000 } else { number };
        jobs.push(Long { number, rounds })?;
    }
    Ok(jobs)
}

/// The answers to a hundred jobs of very unlike length that n workers share, how many entered the gate, and the sum
/// of their places.
pub fn long_jobs_told<R: Threads + Sync>(rt: &R, alloc: Global, out: &mut Text, workers: u32) {
    let counted = Counted::new();
    match long_jobs(alloc) {
        Ok(jobs) => push_shared(rt, alloc, out, &jobs, workers, &counted),
        Err(_) => out.miss(),
    }
    push_counts(out, &counted.begun, &counted.places)
}

// A job that notes by whose state it was done. The state of each worker holds its number.
#[derive(Drop)]
struct Noted<'a> {
    weight: u64,
    state: &'a AtomicU64,
}

impl<'a> Job for Noted<'a> {
    type Out = u64;

    type State = u64;

    ghost answer = { λ job. job.weight };

    fn weight(&self) -> u64 {
        self.weight
    }

    fn work(&self, state: &mut u64) -> Result<u64, AllocError> {
        self.state.store(*state, Ordering::SeqCst);
        Ok(self.weight)
    }
}

/// By whose states four jobs were done, which weigh 20, 10, 5 and 10: the worker's who has the least so far, the first
/// of two who have the same. The last one needs no thread of its own and begins with 0, the other with 5, a quarter of
/// a share.
pub fn dealt<R: Threads + Sync>(rt: &R, alloc: Global, out: &mut Text) {
    let desks = [
        AtomicU64::new(9),
        AtomicU64::new(9),
        AtomicU64::new(9),
        AtomicU64::new(9),
    ];
    if deal_to_two(rt, alloc, &desks).is_err() {
        return out.miss();
    }
    for state in &desks {
        write!(out, "{} ", state.load(Ordering::SeqCst));
    }
}

fn deal_to_two<R: Threads + Sync>(
    rt: &R,
    alloc: Global,
    desks: &[AtomicU64; 4],
) -> Result<(), AllocError> {
    let jobs = [
        weighing(20, &desks[0]),
        weighing(10, &desks[1]),
        weighing(5, &desks[2]),
        weighing(10, &desks[3]),
    ];
    let mut workers = [Worker::new(alloc, 0), Worker::new(alloc, 1)];
    map_batch(rt, alloc, &jobs, &mut workers, &Open)?;
    Ok(())
}

fn weighing(weight: u64, state: &AtomicU64) -> Noted<'_> {
    Noted { weight, state }
}
