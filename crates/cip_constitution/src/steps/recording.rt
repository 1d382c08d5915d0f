// What Rule 1a decides between the branches of a root's ligands, noted at each sphere.
ghost use Rattle.std.specs.Prelude.{◌≡◌, ◌<◌, ◌≤◌, ◌-◌, List, length, vec_capacity};
ghost use Rattle.cip_constitution.specs.Noting.{branch_at};
ghost use Rattle.cip_constitution.specs.Settling.{RootContext};
ghost use Rattle.cip_constitution.specs.Trials.{IsGrown, FollowsTo, NotesTo};
ghost use Rattle.cip_constitution.specs.declared.pairs.VertexPair.{VertexPair as AnyPair};

use crate::ligand_nodes::node_of_ligand;
use crate::pairs::VertexPair;
use cip_arena::Arena;
use cip_branches::Branches;
use cip_digraph::BranchPair;
use cip_mol::{Ligand, Rule};
use cip_rules::record_decisions;

// The branch of the root's child that stands for a vertex.
fn branch_at(arena: &Arena, vertex: u32) -> u32
    requires { 0 < length arena.now.nodes }
    ensures { result ≡ branch_at arena.now.nodes vertex }
{
    match node_of_ligand(arena, &Ligand::Vertex(vertex)) {
        Some(number) => number.saturating_sub(1),
        None => 0,
    }
}

/// Asks for each pair of vertices by their branches, in the first sphere. Nothing is decided yet.
pub(crate) fn begin_noting(arena: &Arena, pairs: &[VertexPair], noted: &mut Vec<BranchPair>)
    requires some { 0 < length arena.now.nodes }
    requires room { length pairs.now ≤ vec_capacity noted.old }
    ensures noted { (setting : RootContext) → IsGrown setting arena.now → arena.now.sphere ≡ 1
        → NotesTo setting arena.now 0 pairs.now noted.new.items }
    ensures room { vec_capacity noted.old ≤ vec_capacity noted.new }
{
    noted.clear();
    for pair in pairs {
        noted.push_reserved(BranchPair {
            first: branch_at(arena, pair.a),
            second: branch_at(arena, pair.b),
            decision: None,
        });
    }
}

/// Notes what the branches' numbers say in the last sphere.
pub(crate) fn record_sphere(arena: &Arena, branches: &Branches, noted: &mut [BranchPair])
    requires { 0 < arena.now.sphere }
    ensures { (setting : RootContext) (pairs : List AnyPair)
        → FollowsTo setting arena.now arena.now.sphere branches.now
        → NotesTo setting arena.now (arena.now.sphere - 1) pairs noted.old
        → NotesTo setting arena.now arena.now.sphere pairs noted.new }
{
    record_decisions(branches, Rule::R1a, arena.sphere() - 1, noted);
}
