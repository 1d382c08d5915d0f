// Ligands that are alike: their branches have ended, hold no atom of a unit and tie.
ghost use Rattle.std.specs.Prelude.{◌≡◌, ◌≤◌, length, vec_capacity};
ghost use Rattle.std.specs.List.{list_any};
ghost use Rattle.cip_digraph.specs.units.Ranked.{some_pair};
ghost use Rattle.cip_constitution.specs.Trials.{node_data, is_closed_in, are_alike_in, IsGrown};

use crate::ligand_nodes::node_of_ligand;
use crate::ties::branch_ends::TieTest;
use crate::ties::closed_branches::is_closed;
use crate::ties::distinct::are_distinct;
use cip_mol::Ligand;

/// Whether a ligand has no node beyond the last sphere and no atom of a unit.
pub(crate) fn is_closed_at(trial: &TieTest<'_, '_>, under: &mut Vec<bool>, ligand: &Ligand) -> bool
    requires grown { IsGrown (node_data trial.now.setting) trial.now.arena.now }
    requires room { length trial.now.arena.now.nodes ≤ vec_capacity under.old }
    ensures closed { result ≡ is_closed_in trial.now ligand.now }
    ensures room { vec_capacity under.old ≤ vec_capacity under.new }
{
    match node_of_ligand(trial.arena, ligand) {
        None => true,
        Some(top) => is_closed(trial.arena, &trial.setting, under, top),
    }
}

// Whether the branches of two ligands tie and are closed: then they tie by all rules.
fn are_alike(trial: &TieTest<'_, '_>, under: &mut Vec<bool>, a: &Ligand, b: &Ligand) -> bool
    requires grown { IsGrown (node_data trial.now.setting) trial.now.arena.now }
    requires room { length trial.now.arena.now.nodes ≤ vec_capacity under.old }
    ensures alike { result ≡ are_alike_in trial.now a.now b.now }
    ensures room { vec_capacity under.old ≤ vec_capacity under.new }
{
    !are_distinct(trial.arena, trial.branches, a, b)
        && is_closed_at(trial, under, a)
        && is_closed_at(trial, under, b)
}

// Whether a ligand is alike with one of the others.
fn alike_from(
    trial: &TieTest<'_, '_>,
    under: &mut Vec<bool>,
    ligand: &Ligand,
    others: &[Ligand],
) -> bool
    requires grown { IsGrown (node_data trial.now.setting) trial.now.arena.now }
    requires room { length trial.now.arena.now.nodes ≤ vec_capacity under.old }
    ensures alike { result ≡ list_any (are_alike_in trial.now ligand.now) others.now }
    ensures room { vec_capacity under.old ≤ vec_capacity under.new }
{
    let mut rest = others;
    while let [other, more @ ..] = rest {
        if are_alike(trial, under, ligand, other) {
            return true;
        }
        rest = more;
    }
    false
}

/// Whether some two are alike, by the numbers of their branches.
pub(crate) fn alike_each(trial: &TieTest<'_, '_>, under: &mut Vec<bool>) -> bool
    requires grown { IsGrown (node_data trial.now.setting) trial.now.arena.now }
    requires room { length trial.now.arena.now.nodes ≤ vec_capacity under.old }
    ensures alike { result ≡ some_pair (are_alike_in trial.now) trial.now.setting.ligands.now }
    ensures room { vec_capacity under.old ≤ vec_capacity under.new }
{
    let mut rest = trial.setting.ligands;
    while let [ligand, others @ ..] = rest {
        if alike_from(trial, under, ligand, others) {
            return true;
        }
        rest = others;
    }
    false
}
