// The turns of units inside a digraph that constitution decided.
ghost use Rattle.std.specs.Prelude.{◌≡◌, ◌≤◌, [], None, Some, IfOk, replicate, slice_set};
ghost use Rattle.cip_aux.specs.ParityCache.{kept_at};

use cip_digraph::Parity;
use cip_partition::ReservedVec;
use std::alloc::{AllocError, Global};
use std::marker::Model;

/// How the ligands of a unit turn its sense at a node, whichever descriptors there are. The unit is given by its place
/// in the record's units.
#[derive(Clone, Copy)]
pub struct CachedParity {
    pub place: usize,
    pub parities: Parity,
}

/// What constitution decided at each node of a digraph, for one unit each, in memory that was reserved. Nodes beyond
/// the entries have nothing kept, nor will have.
#[derive(Drop)]
pub struct ParityCache {
    parities: ReservedVec<Option<CachedParity>>,
}

impl Model for ParityCache {
    ghost use Rattle.std.specs.declared.option.Option.{Option};
    ghost use Rattle.cip_aux.specs.declared.parities.parity_cache.CachedParity.{CachedParity as AnyTurn};
    ghost use Rattle.cip_partition.specs.ReservedList.{ReservedList};

    ghost Value = { ReservedList (Option AnyTurn) };

    ghost view = { λ kept. kept.parities };
}

impl ParityCache {
    /// No entries, and room for those of `bound` nodes. All memory is taken here.
    pub fn reserve(alloc: Global, bound: u32) -> Result<ParityCache, AllocError>
        ensures { IfOk result (λ kept. kept ≡ record { room = bound; items = [] }) }
    {
        let Ok(parities) = ReservedVec::reserve(alloc, bound) else {
            return Err(AllocError);
        };
        Ok(ParityCache { parities })
    }

    /// No entries: nothing is kept, nor will be.
    pub fn reset(&mut self)
        ensures { self.new ≡ record self.old { items = [] } }
    {
        self.parities.clear();
    }

    /// An empty entry for each of n nodes.
    pub fn begin(&mut self, count: u32)
        requires { count ≤ self.old.room }
        ensures { self.new ≡ record self.old { items = replicate count None } }
    {
        self.parities.fill(count, None);
    }

    /// What is kept of a unit at a node.
    pub fn of(&self, node: u32, place: usize) -> Option<CachedParity>
        ensures { result ≡ kept_at self.now.items node place }
    {
        match self.parities.as_slice().get(node as usize) {
            Some(Some(turn)) if turn.place == place => Some(*turn),
            _ => None,
        }
    }

    /// Keeps what was found at a node, if it has an entry, in the place of what was kept there.
    pub fn put(&mut self, node: u32, turn: CachedParity)
        ensures { self.new ≡ record self.old { items = slice_set self.old.items node (Some turn) } }
    {
        if node < self.parities.len() {
            self.parities.set(node, Some(turn));
        }
    }
}
