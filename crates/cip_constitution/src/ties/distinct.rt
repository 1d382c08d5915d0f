// Ligands that differ by the numbers of their branches.
ghost use Rattle.std.specs.Prelude.{◌≡◌, ◌<◌, length, slice_index};
ghost use Rattle.std.specs.List.{list_all};
ghost use Rattle.cip_digraph.specs.units.Ranked.{every_pair};
ghost use Rattle.cip_constitution.specs.Ending.{are_unlike};
ghost use Rattle.cip_constitution.specs.Following.{numbers_of};
ghost use Rattle.cip_constitution.specs.Standing.{differ_told};

use crate::ligand_nodes::node_of_ligand;
use cip_arena::Arena;
use cip_branches::Branches;
use cip_mol::Ligand;

/// Whether the branches of every two differ.
pub fn all_distinct(arena: &Arena, branches: &Branches, ligands: &[Ligand]) -> bool
    requires { 0 < length arena.now.nodes }
    ensures { result ≡ every_pair (differ_told (numbers_of branches.now) arena.now.nodes) ligands.now }
{
    let mut rest = ligands;
    while let [ligand, others @ ..] = rest {
        if !part_from(arena, branches, ligand, others) {
            return false;
        }
        rest = others;
    }
    true
}

// Whether the branch of a ligand differs from each of the others.
fn part_from(arena: &Arena, branches: &Branches, ligand: &Ligand, others: &[Ligand]) -> bool
    requires { 0 < length arena.now.nodes }
    ensures { result ≡ list_all (differ_told (numbers_of branches.now) arena.now.nodes ligand.now) others.now }
{
    for other in others {
        if !are_distinct(arena, branches, ligand, other) {
            return false;
        }
    }
    true
}

/// Whether the branches of two differ. A lone pair's is its own.
pub fn are_distinct(arena: &Arena, branches: &Branches, a: &Ligand, b: &Ligand) -> bool
    requires { 0 < length arena.now.nodes }
    ensures { result ≡ differ_told (numbers_of branches.now) arena.now.nodes a.now b.now }
{
    match (node_of_ligand(arena, a), node_of_ligand(arena, b)) {
        (None, None) => false,
        (Some(a), Some(b)) => number_at(branches, a) != number_at(branches, b),
        _ => true,
    }
}

// The number of the branch of a child of the root.
fn number_at(branches: &Branches, node: u32) -> u32
    ensures { result ≡ slice_index (numbers_of branches.now) node }
{
    if node == 0 {
        0
    } else {
        branches.number(node - 1)
    }
}

// Whether two ligands have different vertices; a lone pair differs from everything.
fn are_unlike(a: &Ligand, b: &Ligand) -> bool
    ensures { result ≡ are_unlike a.now b.now }
{
    match (a, b) {
        (Ligand::Vertex(a), Ligand::Vertex(b)) => *a != *b,
        _ => true,
    }
}

// Whether a ligand has another vertex than each of the others.
fn unlike_from(ligand: &Ligand, others: &[Ligand]) -> bool
    ensures { result ≡ list_all (are_unlike ligand.now) others.now }
{
    for other in others {
        if !are_unlike(ligand, other) {
            return false;
        }
    }
    true
}

/// Whether no two ligands are of the same vertex.
pub fn have_distinct_vertices(ligands: &[Ligand]) -> bool
    ensures { result ≡ every_pair are_unlike ligands.now }
{
    let mut rest = ligands;
    while let [ligand, others @ ..] = rest {
        if !unlike_from(ligand, others) {
            return false;
        }
        rest = others;
    }
    true
}
