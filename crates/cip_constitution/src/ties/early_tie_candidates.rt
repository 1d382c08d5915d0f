// Ligands that may be alike within the last sphere, and were not before.
ghost use Rattle.std.specs.Prelude.{◌≡◌, ◌≤◌, false, length, vec_capacity};
ghost use Rattle.std.specs.List.{AllByRecursion};
ghost use Rattle.cip_constitution.specs.Ending.{EachPair};
ghost use Rattle.cip_constitution.specs.Trials.{node_data, FollowsTo, IsGrown, HasKeys, AreNotAnew};

use crate::ties::branch_ends::{TieTest, all_go_on, one_may_end};
use crate::ties::distinct::{are_distinct, have_distinct_vertices};
use crate::ties::early_tie::is_closed_at;
use cip_mol::Ligand;

// Whether the branches of two don't differ, one of them may end here, and both are closed.
fn are_candidates(trial: &TieTest<'_, '_>, under: &mut Vec<bool>, a: &Ligand, b: &Ligand) -> bool
    requires grown { IsGrown (node_data trial.now.setting) trial.now.arena.now }
    requires keyed { HasKeys trial.now }
    requires room { length trial.now.arena.now.nodes ≤ vec_capacity under.old }
    ensures anew { result ≡ false → AreNotAnew trial.now a.now b.now }
    ensures room { vec_capacity under.old ≤ vec_capacity under.new }
{
    !are_distinct(trial.arena, trial.branches, a, b)
        && one_may_end(trial, a, b)
        && is_closed_at(trial, under, a)
        && is_closed_at(trial, under, b)
}

// Whether a ligand and one of the others may have become alike in this sphere.
fn has_candidate_from(
    trial: &TieTest<'_, '_>,
    under: &mut Vec<bool>,
    ligand: &Ligand,
    others: &[Ligand],
) -> bool
    requires grown { IsGrown (node_data trial.now.setting) trial.now.arena.now }
    requires keyed { HasKeys trial.now }
    requires room { length trial.now.arena.now.nodes ≤ vec_capacity under.old }
    ensures anew { result ≡ false → AllByRecursion (AreNotAnew trial.now ligand.now) others.now }
    ensures room { vec_capacity under.old ≤ vec_capacity under.new }
{
    let mut rest = others;
    while let [other, more @ ..] = rest {
        if are_candidates(trial, under, ligand, other) {
            return true;
        }
        rest = more;
    }
    false
}

/// Whether some two may be alike within the last sphere, and were not before, by Rule 1a alone. Where all branches that
/// tie go on, ligands of different vertices aren't looked at one by one.
pub(crate) fn has_candidates(trial: &TieTest<'_, '_>, under: &mut Vec<bool>) -> bool
    requires grown { IsGrown (node_data trial.now.setting) trial.now.arena.now }
    requires followed { FollowsTo (node_data trial.now.setting) trial.now.arena.now trial.now.arena.now.sphere
        trial.now.branches.now }
    requires keyed { HasKeys trial.now }
    requires room { length trial.now.arena.now.nodes ≤ vec_capacity under.old }
    ensures anew { result ≡ false → EachPair (AreNotAnew trial.now) trial.now.setting.ligands.now }
    ensures room { vec_capacity under.old ≤ vec_capacity under.new }
{
    let ligands = trial.setting.ligands;
    if trial.arena.sphere() > 1 && all_go_on(trial) && have_distinct_vertices(ligands) {
        return false;
    }
    let mut rest = ligands;
    while let [ligand, others @ ..] = rest {
        if has_candidate_from(trial, under, ligand, others) {
            return true;
        }
        rest = others;
    }
    false
}
