// What is decided between each two ligands of a root.
ghost use Rattle.std.specs.Prelude.{◌≡◌, ◌++◌, IfOk, None, OnOk, map};
ghost use Rattle.std.specs.List.{list_any, slice_index_or};
ghost use Rattle.std.specs.Ordering.{is_lt};
ghost use Rattle.cip_digraph.specs.units.Ranked.{is_tie};
ghost use Rattle.cip_label.specs.Pairwise.{between, compared, decided_at, decided_each, is_by_rule_5, pair_place};

use crate::ligand_order::{compare_branches, reversed};
use crate::root_ranker::RootRanker;
use cip_digraph::{Decision, MOST_PAIRS};
use cip_mol::{Ligand, Rule};
use smallvec::SmallVec;
use std::alloc::{AllocError, Global};

/// What is decided between each two ligands, each two asked about once: the first one and each later one, and so on.
pub fn decide_each<D: RootRanker>(
    alloc: Global,
    digraphs: &D,
    ligands: &[Ligand],
    r_first: bool,
) -> Result<SmallVec<Option<Decision>, MOST_PAIRS>, AllocError>
    ensures { IfOk result (λ decided. decided.items ≡ decided_each (D.standing digraphs.now) r_first ligands.now) }
{
    let mut decided = SmallVec::new(alloc);
    for (place, one) in ligands.iter().enumerate() {
        let Ok(()) = push_decided(digraphs, *one, &ligands[place + 1..], r_first, &mut decided)
        else {
            return Err(AllocError);
        };
    }
    Ok(decided)
}

// Pushes the decision between one ligand and each of the others.
fn push_decided<D: RootRanker>(
    digraphs: &D,
    one: Ligand,
    others: &[Ligand],
    r_first: bool,
    decided: &mut SmallVec<Option<Decision>, MOST_PAIRS>,
) -> Result<(), AllocError>
    ensures { OnOk result (decided.new.items
        ≡ decided.old.items ++ map (between (D.standing digraphs.now) r_first one) others.now) }
{
    for other in others {
        let Ok(()) = decided.push(compare_branches(digraphs, one, *other, r_first)) else {
            return Err(AllocError);
        };
    }
    Ok(())
}

/// Whether two of the ligands tie.
pub fn has_tie(decided: &[Option<Decision>]) -> bool
    ensures { result ≡ list_any is_tie decided.now }
{
    for decision in decided {
        if decision.is_none() {
            return true;
        }
    }
    false
}

// Whether a decision is by Rule 5.
fn is_by_rule_5(decision: Option<Decision>) -> bool
    ensures { result ≡ is_by_rule_5 decision }
{
    match decision {
        Some(decision) => matches!(decision.rule, Rule::R5),
        None => false,
    }
}

/// Whether the last rule decides between two of them.
pub fn has_rule_5(decided: &[Option<Decision>]) -> bool
    ensures { result ≡ list_any is_by_rule_5 decided.now }
{
    for decision in decided {
        if is_by_rule_5(*decision) {
            return true;
        }
    }
    false
}

// Where a pair stands among each two of n ligands.
fn pair_place(count: u32, first: u32, second: u32) -> usize
    ensures { result ≡ pair_place count first second }
{
    let second = second as usize;
    let count = count as usize;
    match first {
        0 => second.saturating_sub(1),
        1 => (count + second).saturating_sub(3),
        _ => (2 * count + second).saturating_sub(6),
    }
}

// The decision between the ligands at two places, the lower place first.
fn decided_between(
    decided: &[Option<Decision>],
    count: u32,
    first: u32,
    second: u32,
) -> Option<Decision>
    ensures { result ≡ slice_index_or decided.now (pair_place count first second) None }
{
    match decided.get(pair_place(count, first, second)) {
        Some(decision) => *decision,
        None => None,
    }
}

/// How the ligands at two of n places compare.
pub fn decided_at(decided: &[Option<Decision>], count: u32, i: u32, j: u32) -> Option<Decision>
    ensures { result ≡ decided_at count decided.now i j }
{
    if i < j {
        decided_between(decided, count, i, j)
    } else if j < i {
        reversed(decided_between(decided, count, j, i))
    } else {
        None
    }
}

/// Whether the ligand at one place is below that at another.
pub fn is_below(decided: &[Option<Decision>], count: u32, i: u32, j: u32) -> bool
    ensures { result ≡ is_lt (compared count decided.now i j) }
{
    match decided_at(decided, count, i, j) {
        Some(decision) => decision.side.is_lt(),
        None => false,
    }
}
