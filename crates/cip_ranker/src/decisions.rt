// How the branches at the neighbours of a root compare.
ghost use Rattle.std.specs.Prelude.{◌≡◌, ◌≤◌, [], length, IfOk, OnOk};
ghost use Rattle.cip_branches.specs.Deciding.{AreFollowed};
ghost use Rattle.cip_rules.specs.Taking.{AreSame};
ghost use Rattle.cip_partition.specs.Keys.{AreKeyed};
ghost use Rattle.cip_ranker.specs.Standing.{StandsOrdered, both_as, by_vertices, found_of, standing_of};

use cip_constitution::{VertexPair, Work};
use cip_digraph::{BranchPair, Decision, Descriptors};
use cip_label::reversed;
use cip_rank::zip_results;
use cip_rules::Rule4bWorkspace;
use std::alloc::{AllocError, Global};
use std::marker::Model;

/// At most four ligands make n pairs.
const MOST_PAIRS: usize = 6;

/// How the branches at each two neighbours of a root compare, with R first and with S first.
#[derive(Drop)]
pub struct RootDecisions {
    natural: Vec<BranchPair>,
    turned: Vec<BranchPair>,
    // whether it may be another one with S first
    has_reversed: bool,
    // pairs by their branches, while they are decided with S first
    numbered: Vec<BranchPair>,
}

impl Model for RootDecisions {
    ghost use Rattle.std.specs.Prelude.{cond};
    ghost use Rattle.cip_ranker.specs.Standing.{Standing};

    ghost Value = { Standing };

    ghost view = { λ b. record { natural = b.natural.items; turned = cond b.has_reversed b.turned.items b.natural.items } };
}

impl RootDecisions {
    /// No pairs, with room for those of four ligands.
    pub fn reserve(alloc: Global) -> Result<RootDecisions, AllocError>
        ensures { IfOk result (λ made. made ≡ record { natural = []; turned = [] }) }
    {
        let named = zip_results(
            Vec::with_capacity(alloc, MOST_PAIRS),
            Vec::with_capacity(alloc, MOST_PAIRS),
        );
        let Ok(((natural, turned), numbered)) = zip_results(
            named,
            Vec::with_capacity(alloc, MOST_PAIRS),
        ) else {
            return Err(AllocError);
        };
        Ok(RootDecisions {
            natural,
            turned,
            has_reversed: false,
            numbered,
        })
    }

    /// Takes what was noted of pairs by their vertices: it is the same with R first and with S first.
    pub fn set_decisions(&mut self, noted: &[BranchPair]) -> Result<(), AllocError>
        ensures natural { OnOk result (self.new.natural ≡ noted.now) }
        ensures turned { OnOk result (self.new.turned ≡ noted.now) }
    {
        self.has_reversed = false;
        copy(noted, &mut self.natural)
    }

    /// Takes pairs that constitution left open, as all rules decide between them, both ways, by the descriptors of
    /// nodes.
    pub fn apply_rules_3_to_5(
        &mut self,
        work: &mut Work,
        readings: &mut Rule4bWorkspace,
        descriptors: &Descriptors,
    ) -> Result<(), AllocError>
        requires followed { AreFollowed work.old.branched }
        requires keyed { AreKeyed (length descriptors.now.descriptors) work.old.branched.layers.place_tree }
        requires room { length work.old.branched.layers.place_tree.place_parents ≤ readings.old.bound }
        ensures ordered { OnOk result (StandsOrdered work.old descriptors.now.descriptors self.new) }
        ensures same { OnOk result (AreSame work.old.branched work.new.branched) }
        ensures pairs { OnOk result (work.new.pairs ≡ work.old.pairs) }
        ensures len { OnOk result (length work.new.noted ≡ length work.old.noted) }
        ensures work { work.new.bound ≡ work.old.bound }
        ensures readings { readings.new.bound ≡ readings.old.bound }
    {
        self.has_reversed = true;
        let Ok(()) = copy(work.noted(), &mut self.numbered) else {
            return Err(AllocError);
        };
        work.apply_rules_3_to_5(readings, descriptors, self.numbered.as_mut_slice());
        let Ok(()) = name(work.pairs(), self.numbered.as_slice(), &mut self.turned) else {
            return Err(AllocError);
        };
        name(work.pairs(), work.noted(), &mut self.natural)
    }

    /// How the branches at two neighbours compare.
    pub fn decision_of(&self, a: u32, b: u32, r_first: bool) -> Option<Decision>
        ensures { result ≡ standing_of self.now r_first a b }
    {
        if a == b {
            None
        } else if r_first || !self.has_reversed {
            get(&self.natural, a, b)
        } else {
            get(&self.turned, a, b)
        }
    }
}

// What was noted of two, whichever of them was asked about first.
fn get(requested: &[BranchPair], a: u32, b: u32) -> Option<Decision>
    ensures { result ≡ found_of a b requested.now }
{
    for one in requested {
        if one.first == a && one.second == b {
            return one.decision;
        }
        if one.first == b && one.second == a {
            return reversed(one.decision);
        }
    }
    None
}

// What was noted of pairs by their branches, by their vertices.
fn name(
    pairs: &[VertexPair],
    noted: &[BranchPair],
    named: &mut Vec<BranchPair>,
) -> Result<(), AllocError>
    ensures { OnOk result (named.new.items ≡ by_vertices pairs.now noted.now) }
{
    named.clear();
    let mut rest = pairs;
    let mut found = noted;
    while let [pair, others @ ..] = rest {
        let [one, later @ ..] = found else {
            return Ok(());
        };
        let Ok(()) = named.push(BranchPair {
            first: pair.a,
            second: pair.b,
            decision: one.decision,
        }) else {
            return Err(AllocError);
        };
        rest = others;
        found = later;
    }
    Ok(())
}

/// Takes what was noted of pairs by their branches, and keeps it by their vertices.
pub fn store_decisions(
    work: &Work,
    branches: &mut RootDecisions,
    kept: &mut Vec<BranchPair>,
) -> Result<(), AllocError>
    ensures standing { OnOk result (branches.new ≡ both_as (by_vertices work.now.pairs work.now.noted)) }
    ensures kept { OnOk result (kept.new.items ≡ by_vertices work.now.pairs work.now.noted) }
{
    let Ok(()) = name(work.pairs(), work.noted(), kept) else {
        return Err(AllocError);
    };
    branches.set_decisions(kept)
}

/// Makes a list the same as another one.
pub fn copy<T: Copy>(items: &[T], other: &mut Vec<T>) -> Result<(), AllocError>
    ensures { OnOk result (other.new.items ≡ items.now) }
{
    other.clear();
    other.extend_from_slice(items)
}
