// Looks into a digraph of which those are kept that constitution leaves open.
ghost use Rattle.std.specs.Prelude.{◌≡◌, ◌<◌, ◌≤◌, ◌+◌, ℕ, List, true, false, All, Contains, IfOk, IfSome, OnOk, Some, length, slice_get};
ghost use Rattle.std.specs.declared.option.Option.{Option};
ghost use Rattle.cip_aux.specs.InnerContext.{Ready};
ghost use Rattle.cip_aux.specs.DescriptorsInside.{AreSeenTurns};
ghost use Rattle.cip_aux.specs.Neighbours.{neighbours_of};
ghost use Rattle.cip_aux.specs.Views.{IsReal, sight_of};
ghost use Rattle.cip_branches.specs.Saving.{restored, saved_of};
ghost use Rattle.cip_digraph.specs.digraph.NodeList.{parents_of};
ghost use Rattle.cip_rules.specs.Taking.{AreSame};
ghost use Rattle.cip_aux_rank.specs.Asking.{asked_pairs};
ghost use Rattle.cip_aux_rank.specs.Narrowing.{LeavesOpen, unresolved_tops};
ghost use Rattle.cip_aux_rank.specs.LigandBranches.{ArePlaced, AreTops, asked_tops};
ghost use Rattle.cip_aux_rank.specs.RankingCache.{LigandQuery as AnyLook, AreOpen, Asks, IsOpen, look_of, looked_at};

use crate::branches::ligand_branches::LigandBranches;
use crate::branches::restrict::{renumber_pairs, unresolved_tops};
use crate::cached::cache::{CachedRanking, RankingCache};
use crate::pairs::all_pairs;
use crate::ranker::configure;
use cip_aux::{FoundParity, InnerContext, WholeDigraph};
use cip_branches::Checkpoint;
use cip_digraph::{BranchPair, Nodes};
use cip_rank::{zip_ok, zip_results};
use std::alloc::{AllocError, Global};

/// A node and those of its ligands that are looked at.
#[derive(Clone, Copy)]
pub struct LigandQuery<'a> {
    pub node: u32,
    pub ligands: &'a [Option<u32>],
}

// Takes the rules after Rule 2 where constitution leaves a pair open.
fn configured<N: Nodes>(
    alloc: Global,
    ligand_branches: &mut LigandBranches,
    inner: &InnerContext<'_, N>,
    node: u32,
    pairs: &mut [BranchPair],
) -> Result<FoundParity, AllocError>
    requires room { length inner.now.sight.node_data ≤ ligand_branches.old.bound }
    requires ready { Ready inner.now node }
    requires tops { AreTops (parents_of inner.now.sight.node_data) node ligand_branches.old.tops }
    requires placed { ArePlaced inner.now.sight node ligand_branches.old.tops ligand_branches.old.now }
    ensures parities { (ligands : List (Option ℕ))
        → LeavesOpen inner.now.sight node ligand_branches.old.tops ligand_branches.old.now pairs.old ligands
        → IfOk result (AreSeenTurns inner.now node ligands) }
    ensures same { AreSame ligand_branches.old.now ligand_branches.new.now }
    ensures bound { ligand_branches.new.bound ≡ ligand_branches.old.bound }
{
    let Ok(mut turned) = Vec::from_slice(alloc, pairs) else {
        return Err(AllocError);
    };
    let others = turned.as_mut_slice();
    configure(ligand_branches, inner, node, pairs, others);
    let found = FoundParity::of(pairs, others, false);
    drop(turned);
    Ok(found)
}

// Restores the branches of a tied ranking as constitution left them. Others are in the ranking meanwhile.
fn stand_again<N: Nodes>(
    ligand_branches: &mut LigandBranches,
    inner: &InnerContext<'_, N>,
    entry: &mut CachedRanking,
)
    requires bound { length inner.now.sight.node_data ≤ ligand_branches.old.bound }
    requires ready { Ready inner.now entry.old.node }
    requires open { IsOpen ligand_branches.old.bound inner.now.sight (look_of entry.old) }
    ensures ligand_branches { ligand_branches.new ≡ record {
      bound = ligand_branches.old.bound;
      tops = looked_at inner.now.sight (look_of entry.old);
      now = restored entry.old.ranks entry.old.branches;
    } }
    ensures entry { entry.new ≡ record entry.old { branches = ligand_branches.old.now } }
    ensures room { entry.new.branches.layers.place_tree.room ≡ ligand_branches.new.bound }
{
    ligand_branches.begin(inner.whole(), entry.node, entry.tops.as_slice());
    ligand_branches.swap(&mut entry.branches);
    ligand_branches.restore(&entry.ranks);
}

/// Goes on with a tied ranking from where constitution left its branches, by the descriptors that count.
pub fn resume<N: Nodes>(
    alloc: Global,
    ligand_branches: &mut LigandBranches,
    inner: &InnerContext<'_, N>,
    entry: &mut CachedRanking,
) -> Result<FoundParity, AllocError>
    requires bound { length inner.now.sight.node_data ≤ ligand_branches.old.bound }
    requires ready { Ready inner.now entry.old.node }
    requires open { IsOpen ligand_branches.old.bound inner.now.sight (look_of entry.old) }
    ensures parities { IfOk result (AreSeenTurns inner.now entry.old.node entry.old.ligands.items) }
    ensures open { IsOpen ligand_branches.old.bound inner.now.sight (look_of entry.new) }
    ensures ligand_branches { ligand_branches.new.bound ≡ ligand_branches.old.bound }
{
    let Ok(mut pairs) = Vec::from_slice(alloc, &entry.pairs) else {
        return Err(AllocError);
    };
    let node = entry.node;
    stand_again(ligand_branches, inner, entry);
    let found = configured(alloc, ligand_branches, inner, node, pairs.as_mut_slice());
    drop(pairs);
    ligand_branches.swap(&mut entry.branches);
    found
}

// Begins anew with the branches of open pairs alone where the others hold most places, so that these needn't be kept.
// Hands back the tops of the branches that are left.
fn narrowed<N: Nodes>(
    alloc: Global,
    ligand_branches: &mut LigandBranches,
    whole: &WholeDigraph<'_, N>,
    requested: &LigandQuery<'_>,
    pairs: &mut [BranchPair],
) -> Result<Vec<Option<u32>>, AllocError>
    requires room { length whole.now.node_data ≤ ligand_branches.old.bound }
    requires node { requested.now.node < length whole.now.node_data }
    requires real { IsReal (sight_of whole.now).nodes requested.now.node }
    requires tops { ligand_branches.old.tops ≡ asked_tops (parents_of whole.now.node_data) requested.now.ligands.now requested.now.node }
    requires left { LeavesOpen (sight_of whole.now) requested.now.node ligand_branches.old.tops ligand_branches.old.now pairs.old
        requested.now.ligands.now }
    ensures tops { IfOk result (λ tops. ligand_branches.new.tops ≡ asked_tops (parents_of whole.now.node_data) tops.items requested.now.node) }
    ensures left { IfOk result (λ tops. LeavesOpen (sight_of whole.now) requested.now.node ligand_branches.new.tops ligand_branches.new.now pairs.new
        requested.now.ligands.now) }
    ensures bound { ligand_branches.new.bound ≡ ligand_branches.old.bound }
{
    if ligand_branches.has_few_unresolved() {
        let Ok(before) = Vec::from_slice(alloc, ligand_branches.tops()) else {
            return Err(AllocError);
        };
        let earlier = before.as_slice();
        let Ok(open) = unresolved_tops(alloc, earlier, pairs) else {
            return Err(AllocError);
        };
        ligand_branches.begin(whole, requested.node, open.as_slice());
        renumber_pairs(ligand_branches, earlier, pairs);
        drop(before);
        ligand_branches.apply_constitutional_rules(whole, requested.node, pairs);
        Ok(open)
    } else {
        Vec::from_slice(alloc, requested.ligands)
    }
}

// Takes the branches of a ranking, which constitution left open, and leaves others.
fn taken(
    alloc: Global,
    ligand_branches: &mut LigandBranches,
    requested: &LigandQuery<'_>,
    tops: Vec<Option<u32>>,
    pairs: &[BranchPair],
    kept: &mut RankingCache,
) -> Result<CachedRanking, AllocError>
    ensures node { IfOk result (λ entry. entry.node ≡ requested.now.node) }
    ensures ligands { IfOk result (λ entry. entry.ligands.items ≡ requested.now.ligands.now) }
    ensures looked { IfOk result (λ entry. entry.tops.items ≡ tops.items) }
    ensures pairs { IfOk result (λ entry. entry.pairs.items ≡ pairs.now) }
    ensures branches { IfOk result (λ entry. entry.branches ≡ ligand_branches.old.now) }
    ensures ranks { IfOk result (λ entry. entry.ranks ≡ saved_of entry.ranks.room ligand_branches.old.now) }
    ensures numbers { IfOk result (λ entry. length ligand_branches.old.now.layers.ranked.numbers
        ≡ length ligand_branches.old.now.layers.place_tree.place_parents) }
    ensures room { IfOk result (λ entry. entry.branches.layers.place_tree.room ≡ ligand_branches.old.bound) }
    ensures bound { ligand_branches.new.bound ≡ ligand_branches.old.bound }
    ensures kept { kept.new ≡ kept.old }
{
    let looked = zip_ok(tops, Vec::from_slice(alloc, requested.ligands));
    let looked = zip_results(looked, Vec::from_slice(alloc, pairs));
    let places = zip_results(
        Checkpoint::reserve(alloc, ligand_branches.len()),
        kept.spare_or_new(alloc, ligand_branches.room()),
    );
    let Ok((((tops, ligands), pairs), (mut ranks, mut branches))) = zip_results(looked, places)
    else {
        return Err(AllocError);
    };
    ligand_branches.save(&mut ranks);
    ligand_branches.swap(&mut branches);
    Ok(CachedRanking {
        node: requested.node,
        ligands,
        tops,
        pairs,
        branches,
        ranks,
    })
}

// Keeps a ranking that constitution leaves open, after the others.
fn keep<N: Nodes>(
    alloc: Global,
    ligand_branches: &mut LigandBranches,
    whole: &WholeDigraph<'_, N>,
    requested: &LigandQuery<'_>,
    pairs: &mut [BranchPair],
    kept: &mut RankingCache,
) -> Result<(), AllocError>
    requires node { requested.now.node < length whole.now.node_data }
    requires real { IsReal (sight_of whole.now).nodes requested.now.node }
    requires tops { ligand_branches.old.tops ≡ asked_tops (parents_of whole.now.node_data) requested.now.ligands.now requested.now.node }
    requires left { LeavesOpen (sight_of whole.now) requested.now.node ligand_branches.old.tops ligand_branches.old.now pairs.old
        requested.now.ligands.now }
    requires open { AreOpen ligand_branches.old.bound (sight_of whole.now) kept.old }
    ensures more { OnOk result (length kept.new ≡ length kept.old + 1) }
    ensures last { OnOk result ((entry : AnyLook) → slice_get kept.new (length kept.old) ≡ Some entry
        → Asks entry requested.now.node requested.now.ligands.now) }
    ensures open { AreOpen ligand_branches.old.bound (sight_of whole.now) kept.new }
    ensures ligand_branches { ligand_branches.new.bound ≡ ligand_branches.old.bound }
{
    let Ok(tops) = narrowed(alloc, ligand_branches, whole, requested, pairs) else {
        return Err(AllocError);
    };
    let Ok(entry) = taken(alloc, ligand_branches, requested, tops, pairs, kept) else {
        return Err(AllocError);
    };
    kept.push(entry)
}

// Ranks further where constitution leaves a pair open. If there is room, the ranking is kept and goes on.
fn look_further<N: Nodes>(
    alloc: Global,
    ligand_branches: &mut LigandBranches,
    inner: &InnerContext<'_, N>,
    requested: &LigandQuery<'_>,
    pairs: &mut [BranchPair],
    kept: &mut RankingCache,
) -> Result<FoundParity, AllocError>
    requires ready { Ready inner.now requested.now.node }
    requires tops { ligand_branches.old.tops ≡ asked_tops (parents_of inner.now.sight.node_data) requested.now.ligands.now requested.now.node }
    requires left { LeavesOpen inner.now.sight requested.now.node ligand_branches.old.tops ligand_branches.old.now pairs.old
        requested.now.ligands.now }
    requires open { AreOpen ligand_branches.old.bound inner.now.sight kept.old }
    ensures parities { IfOk result (AreSeenTurns inner.now requested.now.node requested.now.ligands.now) }
    ensures open { AreOpen ligand_branches.old.bound inner.now.sight kept.new }
    ensures ligand_branches { ligand_branches.new.bound ≡ ligand_branches.old.bound }
{
    if kept.has_room(ligand_branches.len()) {
        let place = kept.len();
        let Ok(()) = keep(
            alloc,
            ligand_branches,
            inner.whole(),
            requested,
            pairs,
            kept,
        ) else {
            return Err(AllocError);
        };
        kept.resume(alloc, ligand_branches, inner, place)
    } else {
        configured(alloc, ligand_branches, inner, requested.node, pairs)
    }
}

// Looks by branches that were begun.
fn look_at<N: Nodes>(
    alloc: Global,
    ligand_branches: &mut LigandBranches,
    inner: &InnerContext<'_, N>,
    requested: &LigandQuery<'_>,
    pairs: &mut [BranchPair],
    kept: &mut RankingCache,
) -> Result<FoundParity, AllocError>
    requires ready { Ready inner.now requested.now.node }
    requires next { All (λ ligand. IfSome ligand (Contains (neighbours_of (parents_of inner.now.sight.node_data)
        requested.now.node))) requested.now.ligands.now }
    requires tops { ligand_branches.old.tops ≡ asked_tops (parents_of inner.now.sight.node_data) requested.now.ligands.now requested.now.node }
    requires pairs { pairs.old ≡ asked_pairs ligand_branches.old.tops requested.now.ligands.now }
    requires open { AreOpen ligand_branches.old.bound inner.now.sight kept.old }
    ensures parities { IfOk result (AreSeenTurns inner.now requested.now.node requested.now.ligands.now) }
    ensures open { AreOpen ligand_branches.old.bound inner.now.sight kept.new }
    ensures ligand_branches { ligand_branches.new.bound ≡ ligand_branches.old.bound }
{
    if ligand_branches.is_empty() {
        Ok(FoundParity::of(pairs, pairs, true))
    } else if ligand_branches.apply_constitutional_rules(inner.whole(), requested.node, pairs) {
        Ok(FoundParity::of(pairs, pairs, true))
    } else {
        look_further(alloc, ligand_branches, inner, requested, pairs, kept)
    }
}

/// Ranks ligands from a node, and keeps the ranking where constitution leaves it open and there is room.
pub fn rank_uncached<N: Nodes>(
    alloc: Global,
    ligand_branches: &mut LigandBranches,
    inner: &InnerContext<'_, N>,
    requested: &LigandQuery<'_>,
    kept: &mut RankingCache,
) -> Result<FoundParity, AllocError>
    requires ready { Ready inner.now requested.now.node }
    requires next { All (λ ligand. IfSome ligand (Contains (neighbours_of (parents_of inner.now.sight.node_data)
        requested.now.node))) requested.now.ligands.now }
    requires open { AreOpen ligand_branches.old.bound inner.now.sight kept.old }
    ensures parities { IfOk result (AreSeenTurns inner.now requested.now.node requested.now.ligands.now) }
    ensures open { AreOpen ligand_branches.old.bound inner.now.sight kept.new }
    ensures ligand_branches { ligand_branches.new.bound ≡ ligand_branches.old.bound }
{
    ligand_branches.begin(inner.whole(), requested.node, requested.ligands);
    let Ok(mut pairs) = all_pairs(alloc, ligand_branches, requested.ligands) else {
        return Err(AllocError);
    };
    let found = look_at(
        alloc,
        ligand_branches,
        inner,
        requested,
        pairs.as_mut_slice(),
        kept,
    );
    drop(pairs);
    found
}
