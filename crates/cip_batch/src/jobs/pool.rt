// Who answers the records of a stream.
ghost use Rattle.std.specs.Prelude.{◌≡◌, ◌≤◌, ◌<◌, ◌^◌, IfOk, OnOk, length, map};
ghost use Rattle.cip_batch.specs.Batches.{output_of};

use crate::jobs::batch::PendingRecord;
use crate::jobs::processor::{RecordOutput, RecordProcessor};
use crate::jobs::workers::{Worker, map_batch};
use crate::streams::gate::Gate;
use std::alloc::{AllocError, Global};
use std::marker::Model;
use std::thread::Threads;

/// Who works: threads of a runtime, the gate that each record enters, and how many workers.
#[derive(Drop)]
pub struct WorkerPool<'a, R, G> {
    pub rt: &'a R,
    pub alloc: Global,
    pub gate: &'a G,
    pub workers: u8,
    ghost some: { 1 ≤ workers },
}

/// A pool of workers, each with a state of its own.
#[derive(Drop)]
pub struct PoolWorkers<'a, R, G, T: RecordProcessor> {
    pool: &'a WorkerPool<'a, R, G>,
    workers: Vec<Worker<T::State, RecordOutput<T::Note>>>,
}

impl<'a, R, G, T: RecordProcessor> Model for PoolWorkers<'a, R, G, T> {
    ghost use Rattle.std.specs.Prelude.{⊤, length, ◌<◌, ◌^◌};

    ghost Value = { ⊤ };

    ghost view = { λ _. tt };

    ghost invariant = { λ desks. (0 < length desks.workers.items) × (length desks.workers.items < 2 ^ 32) };
}

impl<'a, R: Threads + Sync, G: Gate + Sync, T: RecordProcessor + Sync> PoolWorkers<'a, R, G, T> {
    /// Takes memory for each worker's state.
    pub fn reserve(
        pool: &'a WorkerPool<'a, R, G>,
        processor: &T,
    ) -> Result<PoolWorkers<'a, R, G, T>, AllocError> {
        let Ok(mut workers) = Vec::with_capacity(pool.alloc, pool.workers as usize) else {
            return Err(AllocError);
        };
        match add_workers(pool.alloc, processor, pool.workers, &mut workers) {
            Ok(()) => Ok(PoolWorkers { pool, workers }),
            Err(fault) => Err(fault),
        }
    }

    /// What is found for each of some records.
    pub fn answer(
        &mut self,
        waiting: &[PendingRecord<'_, T>],
    ) -> Result<Vec<RecordOutput<T::Note>>, AllocError>
        requires { length waiting.now < 2 ^ 63 }
        ensures { IfOk result (λ found. found.items
            ≡ map (λ w. output_of (T.expected w.processor.now) w.number w.bytes) waiting.now) }
    {
        let pool = self.pool;
        map_batch(pool.rt, pool.alloc, waiting, &mut self.workers, pool.gate)
    }
}

// Adds workers, each with a state of its own, until there are n.
// proof: the caller keeps them, so lack of memory drops none here
fn add_workers<T: RecordProcessor>(
    alloc: Global,
    processor: &T,
    count: u8,
    workers: &mut Vec<Worker<T::State, RecordOutput<T::Note>>>,
) -> Result<(), AllocError>
    requires { length workers.old.items ≤ count }
    ensures { OnOk result (length workers.new.items ≡ count) }
{
    while workers.len() < count as usize {
        let Ok(state) = processor.new_state(alloc) else {
            return Err(AllocError);
        };
        workers.push(Worker::new(alloc, state))?;
    }
    Ok(())
}
