// What is noted of a root's ligands while it is settled and after that, against boxes.
ghost use Rattle.std.specs.Prelude.{◌≡◌, ◌<◌, ◌≤◌, ◌^◌, length};
ghost use Rattle.cip_tree.specs.Branches.{node_count};
ghost use Rattle.gate_differential.specs.Tables.{HaveRoom};

use crate::counts::Counts;
use crate::digraphs::deciding::{decide_plain, is_same, reversed};
use crate::digraphs::twice::Difference;
use crate::molecule_rows::molecules::Drawn;
use crate::tables::Tables;
use cip_constitution::{Settled, settle};
use cip_digraph::{BranchPair, FlaggedUnits, Graph};
use cip_mol::{Ligand, Ligands};
use cip_rank::{Rules, Steps};
use cip_tree::{PlainTree, plain_tree};
use std::alloc::{AllocError, Global};
use std::sync::ledger::Ledger;

/// The last sphere up to which branches are compared: boxes that tie take long.
pub const COMPARED: u32 = 3;

// The first four neighbours of a vertex.
fn ligands_of(alloc: Global, graph: &Graph, vertex: u32) -> Ligands
    requires { vertex < length graph.now.vertices }
{
    let mut ligands = Ligands::new(alloc);
    for edge in graph.edges_at(vertex) {
        if ligands.len() < 4 {
            ligands.push(Ligand::Vertex(edge.other_end(vertex)));
        }
    }
    ligands
}

// What is settled: a vertex by its ligands, and no units.
#[derive(Drop)]
struct Root<'a> {
    vertex: u32,
    ligands: Ligands,
    units: FlaggedUnits<'a>,
}

/// Settles a root by its first four neighbours, and where its digraph is whole takes Rules 1b and 2 too. Compares what
/// was noted of each two, but where they are alike or settled after the last sphere that is compared.
pub fn compare_settled<L: Ledger>(
    alloc: Global,
    drawn: &Drawn,
    tables: &mut Tables,
    root: u32,
    steps: &mut Steps<L>,
    counts: &mut Counts,
) -> Result<Option<Difference>, AllocError>
    requires room { HaveRoom tables.old }
    requires root { root < length drawn.now.graph.vertices }
    ensures room { HaveRoom tables.new }
{
    let root = Root {
        vertex: root,
        ligands: ligands_of(alloc, &drawn.graph, root),
        units: FlaggedUnits::of(alloc, &[], 0)?,
    };
    compare_root(alloc, drawn, tables, &root, steps, counts)
}

// The same of a root.
// proof: the caller keeps the root, so no exit drops it
fn compare_root<L: Ledger>(
    alloc: Global,
    drawn: &Drawn,
    tables: &mut Tables,
    root: &Root<'_>,
    steps: &mut Steps<L>,
    counts: &mut Counts,
) -> Result<Option<Difference>, AllocError>
    requires room { HaveRoom tables.old }
    requires root { root.now.vertex < length drawn.now.graph.vertices }
    ensures room { HaveRoom tables.new }
{
    let graph = &drawn.graph;
    tables.arena.start(graph, root.vertex);
    tables.work.set_ligands(&root.ligands);
    let settled = settle(
        &mut tables.arena,
        &mut tables.work,
        graph,
        &drawn.positions,
        &root.units,
        root.ligands.as_slice(),
        Rules::Wording2018,
        steps,
    );
    let sphere = tables.arena.sphere();
    if settled == Settled::Tied || settled == Settled::Over || sphere == 0 || sphere > COMPARED {
        return Ok(None);
    }
    if settled == Settled::Whole {
        tables
            .work
            .apply_rules_1b_2(&tables.arena, Rules::Wording2018);
    }
    let tree = plain_tree(alloc, graph, &drawn.positions, root.vertex, sphere)?;
    compare_noted(alloc, &tree, tables.work.noted(), counts)
}

// Compares what was noted of each two branches, either way round.
fn compare_noted(
    alloc: Global,
    tree: &PlainTree,
    noted: &[BranchPair],
    counts: &mut Counts,
) -> Result<Option<Difference>, AllocError> {
    if tree.node_count().is_none() {
        return Ok(None);
    }
    for one in noted {
        let plain = decide_plain(alloc, tree, Rules::Wording2018, one.first, one.second)?;
        let back = decide_plain(alloc, tree, Rules::Wording2018, one.second, one.first)?;
        if !is_same(one.decision, plain) || !is_same(reversed(one.decision), back) {
            return Ok(Some(Difference::Branches(one.first, one.second)));
        }
        counts.pairs = counts.pairs.saturating_add(2);
    }
    Ok(None)
}
