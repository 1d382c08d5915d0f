// Looks that constitution leaves open, with their branches as they come after Rule 2: asked again with other
// descriptors they need no rule of constitution.
ghost use Rattle.std.specs.Prelude.{◌≡◌, ◌<◌, ◌+◌, ◌^◌, ◌++◌, ◌∷◌, [], true, false, IfOk, IfSome, OnErr, OnOk, Some, length, slice_get};
ghost use Rattle.cip_aux.specs.InnerContext.{Ready};
ghost use Rattle.cip_aux.specs.DescriptorsInside.{AreSeenTurns};
ghost use Rattle.cip_aux_rank.specs.RankingCache.{LigandQuery as AnyLook, AreOpen, Asks, look_of};

use crate::branches::ligand_branches::LigandBranches;
use crate::cached::cached_ranking::resume;
use cip_aux::{FoundParity, InnerContext};
use cip_branches::{Branches, Checkpoint};
use cip_digraph::{BranchPair, Nodes};
use std::alloc::{AllocError, Global};
use std::marker::Model;

/// n rankings are kept at most.
const MOST_LOOKS: usize = 64;

/// A ranking of some of a node's ligands.
#[derive(Drop)]
pub struct CachedRanking {
    pub node: u32,
    pub ligands: Vec<Option<u32>>,
    // those whose branches are kept
    pub tops: Vec<Option<u32>>,
    // what constitution decides between each two of them
    pub pairs: Vec<BranchPair>,
    pub branches: Branches,
    // the ranks of the branches after Rule 2
    pub ranks: Checkpoint,
}

impl CachedRanking {
    // Whether this is the ranking of these ligands of the node.
    fn asks(&self, node: u32, ligands: &[Option<u32>]) -> bool
        ensures { result ≡ true → Asks (look_of self.now) node ligands.now }
    {
        self.node == node && self.ligands.as_slice() == ligands
    }
}

/// Rankings in one digraph, and for how many more places there is room. Contracts see the rankings.
#[derive(Drop)]
pub struct RankingCache {
    looks: Vec<CachedRanking>,
    left: u32,
    // branches of rankings in earlier digraphs, for those that come
    spare: Vec<Branches>,
}

impl Model for RankingCache {
    ghost use Rattle.std.specs.Prelude.{List, map};
    ghost use Rattle.cip_aux_rank.specs.RankingCache.{LigandQuery, look_of};

    ghost Value = { List LigandQuery };

    ghost view = { λ kept. map look_of kept.looks.items };
}

impl RankingCache {
    /// None, and none will be kept.
    pub fn none(alloc: Global) -> RankingCache
        ensures { result ≡ [] }
    {
        RankingCache {
            looks: Vec::new(alloc),
            left: 0,
            spare: Vec::new(alloc),
        }
    }

    /// Forgets all but their memory, and makes room for n places.
    pub fn begin(&mut self, places: u32)
        ensures { self.new ≡ [] }
    {
        self.left = places;
        while self.forget_last() {}
    }

    // Drops the last ranking except for the memory of its branches, and says whether there was one.
    fn forget_last(&mut self) -> bool
        ensures shorter { result ≡ true → length self.new + 1 ≡ length self.old }
        ensures none { result ≡ false → self.new ≡ [] }
    {
        match self.looks.pop() {
            Some(entry) => {
                // proof: what finds no place is dropped by a call as well
                drop(self.spare.push(branches_of(entry)));
                true
            }
            None => false,
        }
    }

    /// Branches with room for n places, in memory of a ranking before where there is some.
    pub fn spare_or_new(&mut self, alloc: Global, room: u32) -> Result<Branches, AllocError>
        requires { room + 1 < 2 ^ 32 }
        ensures room { IfOk result (λ branches. branches.layers.place_tree.room ≡ room) }
        ensures same { self.new ≡ self.old }
    {
        match self.spare.pop() {
            Some(branches) => {
                if branches.room() == room {
                    Ok(branches)
                } else {
                    drop(branches);
                    Branches::reserve(alloc, room)
                }
            }
            None => Branches::reserve(alloc, room),
        }
    }

    /// How many there are.
    pub fn len(&self) -> usize
        ensures { result ≡ length self.now }
    {
        self.looks.len()
    }

    /// Whether a ranking with n places can be kept.
    pub fn has_room(&self, places: u32) -> bool {
        places <= self.left && self.looks.len() < MOST_LOOKS
    }

    /// The place of the ranking of these ligands from a node.
    pub fn find(&self, node: u32, ligands: &[Option<u32>]) -> Option<usize>
        ensures within { IfSome result (λ place. place < length self.now) }
        ensures asks { IfSome result (λ place. (entry : AnyLook) → slice_get self.now place ≡ Some entry
            → Asks entry node ligands.now) }
    {
        for (place, entry) in self.looks.iter().enumerate() {
            if entry.asks(node, ligands) {
                return Some(place);
            }
        }
        None
    }

    /// Goes on with the ranking at a place.
    pub fn resume<N: Nodes>(
        &mut self,
        alloc: Global,
        ligand_branches: &mut LigandBranches,
        inner: &InnerContext<'_, N>,
        place: usize,
    ) -> Result<FoundParity, AllocError>
        requires place { place < length self.old }
        requires ready { (entry : AnyLook) → slice_get self.old place ≡ Some entry → Ready inner.now entry.node }
        requires open { AreOpen ligand_branches.old.bound inner.now.sight self.old }
        ensures parities { (entry : AnyLook) → slice_get self.old place ≡ Some entry
            → IfOk result (AreSeenTurns inner.now entry.node entry.ligands) }
        ensures open { AreOpen ligand_branches.old.bound inner.now.sight self.new }
        ensures ligand_branches { ligand_branches.new.bound ≡ ligand_branches.old.bound }
    {
        resume(alloc, ligand_branches, inner, &mut self.looks[place])
    }

    /// Keeps one more.
    pub fn push(&mut self, entry: CachedRanking) -> Result<(), AllocError>
        ensures added { OnOk result (self.new ≡ self.old ++ look_of entry ∷ []) }
        ensures refused { OnErr result (self.new ≡ self.old) }
    {
        self.left = self.left.saturating_sub(entry.branches.len());
        self.looks.push(entry)?;
        Ok(())
    }
}

// The branches of an entry, whose other parts are dropped.
// proof: they are dropped by calls; falling out of scope they cost more to prove
fn branches_of(entry: CachedRanking) -> Branches {
    let CachedRanking {
        ligands,
        tops,
        pairs,
        branches,
        ranks,
        ..
    } = entry;
    drop(ligands);
    drop(tops);
    drop(pairs);
    drop(ranks);
    branches
}
