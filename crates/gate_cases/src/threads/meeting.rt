// A gate at which jobs of a batch meet, which one thread alone can't make them do.
use cip_batch::Gate;
use gate_tables::Text;
use std::alloc::{AllocError, Global};
use std::sync::atomic::{AtomicU64, Ordering};

// How often the count is looked at before the wait is given up: some tenths of a second.
const TURNS: u64 = 100_000_000;

/// A gate for batches of one size. The job that comes first in a batch, whichever it is, waits there for the next one.
#[derive(Drop)]
pub struct Meeting {
    begun: AtomicU64,
    missed: AtomicU64,
    entries: Vec<AtomicU64>,
}

impl Meeting {
    /// A gate for batches of n jobs.
    pub fn new(alloc: Global, jobs: u32) -> Result<Meeting, AllocError> {
        let mut entries = Vec::new(alloc);
        for _ in 0..jobs {
            entries.push(AtomicU64::new(0))?;
        }
        Ok(Meeting {
            begun: AtomicU64::new(0),
            missed: AtomicU64::new(0),
            entries,
        })
    }

    /// How many jobs came in all batches, how many waited in vain, and how many came with each place of a batch.
    pub fn push_told(&self, out: &mut Text) {
        let begun = self.begun.load(Ordering::SeqCst);
        let missed = self.missed.load(Ordering::SeqCst);
        write!(out, ", {begun} began, {missed} missed;");
        for entries in &self.entries {
            write!(out, " {}", entries.load(Ordering::SeqCst));
        }
    }

    // Waits until more than n jobs came.
    fn wait(&self, jobs: u64) {
        for _ in 0..TURNS {
            if self.begun.load(Ordering::SeqCst) > jobs {
                return;
            }
            std::hint::spin_loop();
        }
        self.missed.fetch_add(1, Ordering::SeqCst);
    }
}

impl Gate for Meeting {
    fn enter(&self, place: u64) {
        if let Some(entries) = self.entries.get(place as usize) {
            entries.fetch_add(1, Ordering::SeqCst);
        }
        let earlier = self.begun.fetch_add(1, Ordering::SeqCst);
        if earlier.checked_rem(self.entries.len() as u64) == Some(0) {
            self.wait(earlier.saturating_add(1));
        }
    }
}
