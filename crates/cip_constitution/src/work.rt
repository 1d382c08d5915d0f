// Ligands tried by the numbers of their branches.
ghost use Rattle.std.specs.Prelude.{◌≡◌, ◌<◌, ◌≤◌, ◌-◌, false, []};
ghost use Rattle.std.specs.Prelude.{IfOk};
ghost use Rattle.cip_branches.specs.Deciding.{no_branches};
ghost use Rattle.cip_constitution.specs.Pairs.{pairs_of};
ghost use Rattle.cip_constitution.specs.Settling.{RootContext as AnySetting, differs, has_alike};
ghost use Rattle.cip_constitution.specs.Trials.{node_data, IsGrown, FollowsTo, IsAhead, KeepsTo};

use crate::context::RootContext;
use crate::pairs::{VertexPair, ligand_pairs};
use crate::rules::constitutional_rules::apply_both;
use crate::steps::following::{begin_branches, follow_branches};
use crate::steps::recording::{begin_noting, record_sphere};
use crate::ties::branch_ends::TieTest;
use crate::ties::distinct::all_distinct;
use crate::ties::early_tie::alike_each;
use crate::ties::early_tie_candidates::has_candidates;
use cip_arena::Arena;
use cip_branches::{Branches, Checkpoint};
use cip_digraph::BranchPair;
use cip_mol::Ligands;
use cip_partition::ReservedVec;
use cip_rank::{zip_ok, zip_results};
use std::alloc::{AllocError, Global};
use std::marker::Model;

/// n pairs have four ligands.
const MOST_PAIRS: usize = 6;

/// The branches of settling, in memory that is taken at once.
#[derive(Drop)]
pub struct Work {
    bound: u32,
    // the branches of the root's children, by Rule 1a
    pub(crate) branches: Branches,
    // the root's children
    tops: ReservedVec<u32>,
    // each two ligands of the root, and what is decided between their branches
    pairs: Vec<VertexPair>,
    pub(crate) noted: Vec<BranchPair>,
    // how they were by Rule 1a
    saved: Checkpoint,
    // of each node, whether it is below a ligand's
    under: Vec<bool>,
}

impl Model for Work {
    ghost use Rattle.cip_constitution.specs.Following.{Trying};

    ghost Value = { Trying };

    ghost use Rattle.cip_constitution.specs.WorkColumns.{trying_of, HaveRoom};

    ghost view = { trying_of };

    ghost invariant = { HaveRoom };
}

impl Work {
    /// Room for digraphs of `bound` nodes.
    pub fn reserve(alloc: Global, bound: u32) -> Result<Work, AllocError>
        ensures { IfOk result (λ work. work ≡ record {
          bound = bound;
          branched = no_branches (bound - 1);
          pairs = [];
          noted = [];
        }) }
    {
        // all nodes but the root may have a place
        let places = bound.saturating_sub(1);
        let requested = zip_results(
            Vec::with_capacity(alloc, MOST_PAIRS),
            Vec::with_capacity(alloc, MOST_PAIRS),
        );
        let nodes = zip_results(Vec::with_capacity(alloc, bound as usize), requested);
        let kept = zip_results(
            ReservedVec::reserve(alloc, bound),
            Checkpoint::reserve(alloc, places),
        );
        let Ok(small) = zip_results(nodes, kept) else {
            return Err(AllocError);
        };
        // proof: what is reserved last is never dropped
        let Ok((((under, (pairs, noted)), (tops, saved)), branches)) = zip_ok(
            small,
            Branches::reserve(alloc, places),
        ) else {
            return Err(AllocError);
        };
        Ok(Work {
            bound,
            branches,
            tops,
            pairs,
            noted,
            saved,
            under,
        })
    }

    /// Asks about each two of these ligands once. Nothing is noted of them before a digraph is followed.
    pub fn set_ligands(&mut self, ligands: &Ligands)
        ensures pairs { self.new.pairs ≡ pairs_of ligands.now }
        ensures bound { self.new.bound ≡ self.old.bound }
    {
        ligand_pairs(ligands.as_slice(), &mut self.pairs);
    }

    /// The pairs that were asked about last.
    pub fn pairs(&self) -> &[VertexPair]
        ensures { result.now ≡ self.now.pairs }
    {
        self.pairs.as_slice()
    }

    /// The branches of each pair, and what is decided between them.
    pub fn noted(&self) -> &[BranchPair]
        ensures { result.now ≡ self.now.noted }
    {
        self.noted.as_slice()
    }

    /// Follows a digraph that was grown by one sphere, and notes what its last sphere decides.
    pub(crate) fn follow(&mut self, arena: &Arena)
        requires ahead { (setting : AnySetting) × IsAhead setting arena.now self.old }
        requires room { arena.now.bound ≤ self.old.bound }
        ensures kept { (setting : AnySetting) → IsAhead setting arena.now self.old
            → KeepsTo setting arena.now arena.now.sphere self.new }
        ensures pairs { self.new.pairs ≡ self.old.pairs }
        ensures bound { self.new.bound ≡ self.old.bound }
    {
        let branches = &mut self.branches;
        let noted = &mut self.noted;
        if arena.sphere() == 1 {
            begin_branches(arena, &mut self.tops, branches);
            begin_noting(arena, self.pairs.as_slice(), noted);
            record_sphere(arena, branches, noted);
        } else {
            follow_branches(arena, branches);
            record_sphere(arena, branches, noted);
        }
    }

    /// Whether every two ligands differ by Rule 1a within the last sphere.
    pub(crate) fn all_differ(&self, arena: &Arena, setting: &RootContext<'_, '_>) -> bool
        requires grown { IsGrown (node_data setting.now) arena.now }
        requires followed { FollowsTo (node_data setting.now) arena.now arena.now.sphere self.now.branched }
        ensures { result ≡ differs (node_data setting.now) arena.now.root arena.now.sphere }
    {
        all_distinct(arena, &self.branches, setting.ligands)
    }

    /// Whether two ligands have no node beyond the last sphere and are alike, where none were within the sphere before.
    pub(crate) fn some_alike(&mut self, arena: &Arena, setting: &RootContext<'_, '_>) -> bool
        requires grown { IsGrown (node_data setting.now) arena.now }
        requires room { arena.now.bound ≤ self.old.bound }
        requires followed { FollowsTo (node_data setting.now) arena.now arena.now.sphere self.old.branched }
        requires before { 1 < arena.now.sphere
            → has_alike (node_data setting.now) arena.now.root (arena.now.sphere - 1) ≡ false }
        ensures result { result ≡ has_alike (node_data setting.now) arena.now.root arena.now.sphere }
        ensures kept { self.new ≡ self.old }
    {
        // Rule 1a, whose numbers are known already, distinguishes most ligands
        let found = {
            let trial = TieTest {
                arena: &*arena,
                branches: &self.branches,
                setting: *setting,
            };
            has_candidates(&trial, &mut self.under)
        };
        if found {
            apply_both(&mut self.branches, &mut self.saved, arena, setting.rules);
            let alike = {
                let trial = TieTest {
                    arena: &*arena,
                    branches: &self.branches,
                    setting: *setting,
                };
                alike_each(&trial, &mut self.under)
            };
            self.branches.restore(&self.saved);
            alike
        } else {
            false
        }
    }
}
