// Whole digraphs looked at by the branches of nodes' ligands.
ghost use Rattle.std.specs.Prelude.{◌≡◌, ◌<◌, ◌≤◌, ◌^◌, ℕ, List, [], false, IfOk, length};
ghost use Rattle.std.specs.List.{AllByRecursion, list_all};
ghost use Rattle.std.specs.declared.option.Option.{Option};
ghost use Rattle.cip_mol.specs.declared.labels.descriptor.Descriptor.{Descriptor as AnyDescriptor};
ghost use Rattle.cip_digraph.specs.digraph.NodeList.{parents_of};
ghost use Rattle.cip_digraph.specs.declared.decisions.branch_pair.BranchPair.{BranchPair as AnyAsked};
ghost use Rattle.cip_digraph.specs.Asking.{AreWithin, is_decided};
ghost use Rattle.cip_rules.specs.Taking.{AreSame};
ghost use Rattle.cip_aux.specs.InnerContext.{AgreesInside, Ready};
ghost use Rattle.cip_aux_rank.specs.LigandBranches.{AreConstituted, AreOrdered, ArePlaced, AreTops};
ghost use Rattle.cip_aux_rank.specs.RankingCache.{AreOpen};

use crate::branches::ligand_branches::LigandBranches;
use crate::cached::cache::RankingCache;
use crate::cached::cached_ranking::{LigandQuery, rank_uncached};
use crate::subtree_descriptors::SubtreeDescriptors;
use cip_aux::{FoundParity, InnerContext, LigandRanker};
use cip_digraph::{BranchPair, Nodes};
use cip_rules::DescriptorMap;
use std::alloc::{AllocError, Global};
use std::marker::Model;

/// What looks at digraphs, in memory that is taken at once.
#[derive(Drop)]
pub struct AuxRanker {
    ligand_branches: LigandBranches,
    kept: RankingCache,
}

impl Model for AuxRanker {
    ghost use Rattle.cip_aux_rank.specs.Room.{Room};

    ghost Value = { Room };

    ghost view = { λ aux_ranker. record { bound = aux_ranker.ligand_branches.bound; looks = aux_ranker.kept } };
}

// Decides pairs of branches that constitution leaves open, with the descriptors that count.
pub(crate) fn configure<N: Nodes>(
    ligand_branches: &mut LigandBranches,
    inner: &InnerContext<'_, N>,
    node: u32,
    pairs: &mut [BranchPair],
    turned: &mut [BranchPair],
)
    requires room { length inner.now.sight.node_data ≤ ligand_branches.old.bound }
    requires ready { Ready inner.now node }
    requires tops { AreTops (parents_of inner.now.sight.node_data) node ligand_branches.old.tops }
    requires placed { ArePlaced inner.now.sight node ligand_branches.old.tops ligand_branches.old.now }
    requires len { length turned.old ≡ length pairs.old }
    ensures ordered { (begin : List AnyAsked) (descriptor : List ℕ → Option AnyDescriptor)
        → AllByRecursion (AreWithin (length ligand_branches.old.tops)) begin
        → AreConstituted inner.now.sight node ligand_branches.old.tops ligand_branches.old.now begin pairs.old
        → list_all is_decided pairs.old ≡ false → AgreesInside inner.now descriptor
        → AreOrdered inner.now.sight node descriptor ligand_branches.old.tops begin pairs.new turned.new }
    ensures same { AreSame ligand_branches.old.now ligand_branches.new.now }
    ensures bound { ligand_branches.new.bound ≡ ligand_branches.old.bound }
{
    let from = inner.from();
    let all = inner.descriptors();
    if from == node && ligand_branches.all_below(node) {
        ligand_branches.apply_rules_3_to_5(all, pairs, turned);
    } else {
        let descriptors = SubtreeDescriptors {
            table: inner.whole().nodes().table(),
            from,
            descriptors: all,
        };
        ligand_branches.apply_rules_3_to_5(&descriptors, pairs, turned);
    }
}

impl AuxRanker {
    /// Room for digraphs of `bound` nodes. All memory is taken here.
    pub fn reserve(alloc: Global, bound: u32) -> Result<AuxRanker, AllocError>
        requires { bound < 2 ^ 31 }
        ensures { IfOk result (λ aux_ranker. aux_ranker ≡ record { bound = bound; looks = [] }) }
    {
        let Ok(ligand_branches) = LigandBranches::reserve(alloc, bound) else {
            return Err(AllocError);
        };
        Ok(AuxRanker {
            ligand_branches,
            kept: RankingCache::none(alloc),
        })
    }

    /// Keeps rankings that constitution leaves open, with n places in all, and forgets those that were kept before.
    pub fn begin(&mut self, places: u32)
        ensures { self.new ≡ record self.old { looks = [] } }
    {
        self.kept.begin(places);
    }
}

impl LigandRanker for AuxRanker {
    ghost room = { λ aux_ranker. aux_ranker.bound };

    ghost stands = { λ aux_ranker sight. AreOpen aux_ranker.bound sight aux_ranker.looks };

    fn ligand_parity<N: Nodes>(
        &mut self,
        alloc: Global,
        inner: &InnerContext<'_, N>,
        node: u32,
        ligands: &[Option<u32>],
    ) -> Result<FoundParity, AllocError> {
        let ligand_branches = &mut self.ligand_branches;
        match self.kept.find(node, ligands) {
            Some(place) => self.kept.resume(alloc, ligand_branches, inner, place),
            None => {
                let requested = LigandQuery { node, ligands };
                rank_uncached(alloc, ligand_branches, inner, &requested, &mut self.kept)
            }
        }
    }
}
