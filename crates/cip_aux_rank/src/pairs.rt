// Pairs of ligands that are asked about, by their branches.
ghost use Rattle.std.specs.Prelude.{◌≡◌, ◌++◌, IfOk, OnOk, map};
ghost use Rattle.cip_aux_rank.specs.Asking.{asked_between, known, asked_of, asked_pairs};

use crate::branches::ligand_branches::LigandBranches;
use cip_digraph::{BranchPair, Decision, MOST_PAIRS};
use cip_mol::Rule;
use std::alloc::{AllocError, Global};
use std::cmp::Ordering;

// A pair of which one is a lone pair: by Rule 1a, in a sphere that isn't kept.
fn known_pair(side: Ordering) -> BranchPair
    ensures { result ≡ asked_between 0 0 (known side) }
{
    BranchPair {
        first: 0,
        second: 0,
        decision: Some(Decision {
            side,
            rule: Rule::R1a,
            sphere: 1,
        }),
    }
}

/// Two ligands, to be asked about.
pub fn pair_of(ligand_branches: &LigandBranches, one: Option<u32>, other: Option<u32>) -> BranchPair
    ensures { result ≡ asked_of ligand_branches.now.tops one other }
{
    match (one, other) {
        (Some(one), Some(other)) => BranchPair {
            first: ligand_branches.branch(one).unwrap_or(0),
            second: ligand_branches.branch(other).unwrap_or(0),
            decision: None,
        },
        (Some(_), None) => known_pair(Ordering::Greater),
        (None, Some(_)) => known_pair(Ordering::Less),
        (None, None) => BranchPair {
            first: 0,
            second: 0,
            decision: None,
        },
    }
}

// Pushes the pairs of one ligand with each of the others.
fn ask_row(
    ligand_branches: &LigandBranches,
    one: Option<u32>,
    others: &[Option<u32>],
    pairs: &mut Vec<BranchPair>,
) -> Result<(), AllocError>
    ensures { OnOk result (pairs.new.items ≡ pairs.old.items ++ map (asked_of ligand_branches.now.tops one) others.now) }
{
    for other in others {
        let Ok(()) = pairs.push(pair_of(ligand_branches, one, *other)) else {
            return Err(AllocError);
        };
    }
    Ok(())
}

/// Each two ligands, to be asked about.
pub fn all_pairs(
    alloc: Global,
    ligand_branches: &LigandBranches,
    ligands: &[Option<u32>],
) -> Result<Vec<BranchPair>, AllocError>
    ensures { IfOk result (λ pairs. pairs.items ≡ asked_pairs ligand_branches.now.tops ligands.now) }
{
    let Ok(mut pairs) = Vec::with_capacity(alloc, MOST_PAIRS) else {
        return Err(AllocError);
    };
    let mut rest = ligands;
    while let [one, others @ ..] = rest {
        let Ok(()) = ask_row(ligand_branches, *one, others, &mut pairs) else {
            return Err(AllocError);
        };
        rest = others;
    }
    Ok(pairs)
}
