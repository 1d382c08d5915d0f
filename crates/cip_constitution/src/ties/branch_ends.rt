// Branches that have their last nodes in the last sphere.
ghost use Rattle.std.specs.Prelude.{◌≡◌, ◌<◌, ◌↔◌, ℕ, true, false, length, slice_index};
ghost use Rattle.cip_partition.specs.Parting.{has_flag};
ghost use Rattle.cip_digraph.specs.outcome.Deciding.{is_empty};
ghost use Rattle.cip_digraph.specs.digraph.Digraph.{children, digraph};
ghost use Rattle.cip_digraph.specs.digraph.Telling.{node_at};
ghost use Rattle.cip_constitution.specs.Trials.{node_data, IsGrown, HasKeys, IsElsewhere, IsLigandElsewhere};

use crate::context::RootContext;
use crate::ligand_nodes::node_of_ligand;
use cip_arena::Arena;
use cip_branches::Branches;
use cip_mol::Ligand;

/// What ligands are tried on.
#[derive(Clone, Copy)]
pub(crate) struct TieTest<'a, 'u> {
    pub(crate) arena: &'a Arena,
    pub(crate) branches: &'a Branches,
    pub(crate) setting: RootContext<'a, 'u>,
}

// Whether the node at a place has children, those beyond the last sphere too.
fn goes_on(trial: &TieTest<'_, '_>, place: u32) -> bool
    requires grown { IsGrown (node_data trial.now.setting) trial.now.arena.now }
    requires keyed { HasKeys trial.now }
    requires place { place < length trial.now.branches.now.layers.place_tree.place_parents }
    ensures { result ≡ false ↔ (is_empty (children trial.now.setting.graph.now trial.now.setting.positions.now (node_at
        (digraph trial.now.setting.graph.now trial.now.setting.positions.now trial.now.arena.now.root
        trial.now.arena.now.sphere) (slice_index trial.now.branches.now.layers.place_tree.nodes place))) ≡ true) }
{
    trial
        .arena
        .child_count(trial.setting.graph, trial.branches.node(place))
        > 0
}

// Whether the last nodes of a branch may be in the last sphere: they do, or it isn't followed any more.
fn may_end_here(trial: &TieTest<'_, '_>, branch: u32) -> bool
    requires grown { IsGrown (node_data trial.now.setting) trial.now.arena.now }
    requires keyed { HasKeys trial.now }
    ensures { result ≡ false → IsElsewhere trial.now branch }
{
    if trial.branches.is_unresolved(branch) {
        let mut found = false;
        for place in trial.branches.first()..trial.branches.len() {
            if trial.branches.branch(place) == branch {
                if goes_on(trial, place) {
                    return false;
                }
                found = true;
            }
        }
        found
    } else {
        true
    }
}

// Whether the branch of a ligand may end in the last sphere; that of a lone pair doesn't.
fn ligand_may_end(trial: &TieTest<'_, '_>, ligand: &Ligand) -> bool
    requires grown { IsGrown (node_data trial.now.setting) trial.now.arena.now }
    requires keyed { HasKeys trial.now }
    ensures { result ≡ false → IsLigandElsewhere trial.now ligand.now }
{
    match node_of_ligand(trial.arena, ligand) {
        None => false,
        Some(0) => true,
        Some(top) => may_end_here(trial, top - 1),
    }
}

/// Whether one of two branches may have its last nodes in the last sphere, or that sphere is the first one.
pub(crate) fn one_may_end(trial: &TieTest<'_, '_>, a: &Ligand, b: &Ligand) -> bool
    requires grown { IsGrown (node_data trial.now.setting) trial.now.arena.now }
    requires keyed { HasKeys trial.now }
    ensures further { result ≡ false → 1 < trial.now.arena.now.sphere }
    ensures first { result ≡ false → IsLigandElsewhere trial.now a.now }
    ensures second { result ≡ false → IsLigandElsewhere trial.now b.now }
{
    trial.arena.sphere() == 1 || ligand_may_end(trial, a) || ligand_may_end(trial, b)
}

/// Whether no branch that is still unresolved may have its last nodes in the last sphere.
pub(crate) fn all_go_on(trial: &TieTest<'_, '_>) -> bool
    requires grown { IsGrown (node_data trial.now.setting) trial.now.arena.now }
    requires keyed { HasKeys trial.now }
    ensures elsewhere { result ≡ true → (branch : ℕ) → branch < length trial.now.branches.now.unresolved
        → has_flag trial.now.branches.now.unresolved branch ≡ true → IsElsewhere trial.now branch }
{
    for branch in 0..trial.branches.branch_count() {
        if trial.branches.is_unresolved(branch) && may_end_here(trial, branch) {
            return false;
        }
    }
    true
}
