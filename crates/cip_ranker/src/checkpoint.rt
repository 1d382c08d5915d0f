// Branches set aside before descriptors are asked for.
ghost use Rattle.std.specs.Prelude.{◌≡◌, IfOk};

use cip_branches::Checkpoint;
use cip_digraph::BranchPair;
use cip_rank::zip_results;
use std::alloc::{AllocError, Global};

/// At most four ligands make n pairs.
const MOST_PAIRS: usize = 6;

/// How the branches of a root were when constitution left them, and what was noted of its pairs; where descriptors
/// weren't needed what was noted of them by their vertices.
#[derive(Drop)]
pub struct RootCheckpoint {
    pub ranks: Checkpoint,
    pub noted: Vec<BranchPair>,
}

impl RootCheckpoint {
    /// Room for branches of n places.
    pub fn reserve(alloc: Global, places: u32) -> Result<RootCheckpoint, AllocError>
        ensures { IfOk result (λ aside. aside.ranks.room ≡ places) }
    {
        let Ok((ranks, noted)) = zip_results(
            Checkpoint::reserve(alloc, places),
            Vec::with_capacity(alloc, MOST_PAIRS),
        ) else {
            return Err(AllocError);
        };
        Ok(RootCheckpoint { ranks, noted })
    }
}
