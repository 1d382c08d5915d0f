// The digraph of a root up to a sphere, made in both ways.
ghost use Rattle.std.specs.Prelude.{◌≡◌, ◌<◌, ◌≤◌, ◌^◌, true, length};
ghost use Rattle.cip_arena.specs.Growth.{Holds, next_size};
ghost use Rattle.cip_tree.specs.Branches.{node_count};
ghost use Rattle.gate_differential.specs.Tables.{HaveRoom};

use crate::counts::Counts;
use crate::digraphs::deciding::{decide_plain, decide_whole, is_same};
use crate::digraphs::nodes::first_other;
use crate::molecule_rows::molecules::Drawn;
use crate::tables::Tables;
use cip_arena::Arena;
use cip_aux::WholeDigraph;
use cip_aux_rank::LigandBranches;
use cip_digraph::Nodes;
use cip_rank::Rules;
use cip_tree::{PlainTree, plain_tree};
use std::alloc::{AllocError, Global};

/// What differs.
#[derive(Clone, Copy)]
pub enum Difference {
    /// What is known of a node, by its number.
    Node(u32),
    /// What is decided between two branches of the root, by their numbers.
    Branches(u32, u32),
}

/// How far a root's digraph was grown, and whether its branches are compared.
#[derive(Clone, Copy)]
pub struct Extent {
    pub root: u32,
    pub is_whole: bool,
    pub branches: bool,
}

/// Compares what the arena holds with the digraph in boxes, up to the same sphere, or where it is whole up to the next
/// one; and what is decided between the branches of a whole one, if asked to.
pub fn compare_sphere(
    alloc: Global,
    drawn: &Drawn,
    tables: &mut Tables,
    extent: Extent,
    counts: &mut Counts,
) -> Result<Option<Difference>, AllocError>
    requires holds { Holds drawn.now.graph drawn.now.positions tables.old.arena }
    requires whole { extent.is_whole ≡ true → next_size drawn.now.graph drawn.now.positions tables.old.arena ≡ 0 }
    requires root { tables.old.arena.root ≡ extent.root }
    requires low { extent.root < length drawn.now.graph.vertices }
    requires room { HaveRoom tables.old }
    requires fits { length tables.old.arena.nodes ≤ tables.old.arena.bound }
    ensures room { HaveRoom tables.new }
{
    let arena = &tables.arena;
    let sphere = if extent.is_whole {
        arena.sphere().saturating_add(1)
    } else {
        arena.sphere()
    };
    let tree = plain_tree(alloc, &drawn.graph, &drawn.positions, extent.root, sphere)?;
    let compared = compare_tree(alloc, drawn, tables, extent, &tree, counts);
    // proof: dropped by a call, here and below, which is quicker to prove than the end of scope
    drop(tree);
    compared
}

// The same with the digraph in boxes.
// proof: the caller keeps the digraph, so no exit drops it
fn compare_tree(
    alloc: Global,
    drawn: &Drawn,
    tables: &mut Tables,
    extent: Extent,
    tree: &PlainTree,
    counts: &mut Counts,
) -> Result<Option<Difference>, AllocError>
    requires holds { Holds drawn.now.graph drawn.now.positions tables.old.arena }
    requires whole { extent.is_whole ≡ true → next_size drawn.now.graph drawn.now.positions tables.old.arena ≡ 0 }
    requires root { tables.old.arena.root ≡ extent.root }
    requires low { extent.root < length drawn.now.graph.vertices }
    requires room { HaveRoom tables.old }
    requires fits { length tables.old.arena.nodes ≤ tables.old.arena.bound }
    ensures room { HaveRoom tables.new }
{
    let Some(count) = tree.node_count() else {
        return Ok(Some(Difference::Node(tables.arena.len())));
    };
    if let Some(node) = first_other_in(&tables.arena, tree)? {
        return Ok(Some(Difference::Node(node)));
    }
    counts.nodes = counts.nodes.saturating_add(u64::from(count));
    if extent.is_whole && extent.branches {
        compare_whole(alloc, drawn, tables, extent.root, tree, counts)
    } else {
        Ok(None)
    }
}

// The first node at which the arena and the digraph in boxes differ.
fn first_other_in(arena: &Arena, tree: &PlainTree) -> Result<Option<u32>, AllocError>
    requires { node_count tree.now < 2 ^ 32 }
{
    let flat = tree.flat()?;
    let other = first_other(arena, &flat);
    drop(flat);
    Ok(other)
}

// Compares what is decided between each two branches of a whole digraph, in both wordings.
fn compare_whole(
    alloc: Global,
    drawn: &Drawn,
    tables: &mut Tables,
    root: u32,
    tree: &PlainTree,
    counts: &mut Counts,
) -> Result<Option<Difference>, AllocError>
    requires holds { Holds drawn.now.graph drawn.now.positions tables.old.arena }
    requires whole { next_size drawn.now.graph drawn.now.positions tables.old.arena ≡ 0 }
    requires root { tables.old.arena.root ≡ root }
    requires low { root < length drawn.now.graph.vertices }
    requires few { node_count tree.now < 2 ^ 32 }
    requires room { HaveRoom tables.old }
    requires fits { length tables.old.arena.nodes ≤ tables.old.arena.bound }
    ensures room { HaveRoom tables.new }
{
    let found = compare_by(
        alloc,
        drawn,
        tables,
        (root, Rules::Wording2013),
        tree,
        counts,
    )?;
    if found.is_some() {
        return Ok(found);
    }
    compare_by(
        alloc,
        drawn,
        tables,
        (root, Rules::Wording2018),
        tree,
        counts,
    )
}

// The same in one wording of Rule 1b.
fn compare_by(
    alloc: Global,
    drawn: &Drawn,
    tables: &mut Tables,
    requested: (u32, Rules),
    tree: &PlainTree,
    counts: &mut Counts,
) -> Result<Option<Difference>, AllocError>
    requires holds { Holds drawn.now.graph drawn.now.positions tables.old.arena }
    requires whole { next_size drawn.now.graph drawn.now.positions tables.old.arena ≡ 0 }
    requires root { tables.old.arena.root ≡ requested.0 }
    requires low { requested.0 < length drawn.now.graph.vertices }
    requires few { node_count tree.now < 2 ^ 32 }
    requires room { HaveRoom tables.old }
    requires fits { length tables.old.arena.nodes ≤ tables.old.arena.bound }
    ensures room { HaveRoom tables.new }
    ensures arena { tables.new.arena ≡ tables.old.arena }
{
    let (root, rules) = requested;
    let arena = &tables.arena;
    if arena.len() == 0 {
        return Ok(None);
    }
    let whole = WholeDigraph::new(
        arena,
        &drawn.graph,
        &drawn.positions,
        rules,
        root,
        arena.sphere(),
    );
    compare_pairs(alloc, &whole, &mut tables.nearer, tree, counts)
}

// Compares what is decided between each two branches.
fn compare_pairs(
    alloc: Global,
    whole: &WholeDigraph<'_, Arena>,
    nearer: &mut LigandBranches,
    tree: &PlainTree,
    counts: &mut Counts,
) -> Result<Option<Difference>, AllocError>
    requires some { 0 < length whole.now.node_data }
    requires few { node_count tree.now < 2 ^ 32 }
    requires room { length whole.now.node_data ≤ nearer.old.bound }
    ensures bound { nearer.new.bound ≡ nearer.old.bound }
{
    let (start, past) = whole.nodes().table().children(0);
    for second in 0..past.saturating_sub(start) {
        let found = compare_with_earlier(alloc, whole, nearer, tree, second, counts)?;
        if found.is_some() {
            return Ok(found);
        }
    }
    Ok(None)
}

// Compares what is decided between a branch and each one before it.
fn compare_with_earlier(
    alloc: Global,
    whole: &WholeDigraph<'_, Arena>,
    nearer: &mut LigandBranches,
    tree: &PlainTree,
    second: u32,
    counts: &mut Counts,
) -> Result<Option<Difference>, AllocError>
    requires some { 0 < length whole.now.node_data }
    requires few { node_count tree.now < 2 ^ 32 }
    requires room { length whole.now.node_data ≤ nearer.old.bound }
    ensures bound { nearer.new.bound ≡ nearer.old.bound }
{
    for first in 0..second {
        let fast = decide_whole(whole, nearer, first, second);
        let plain = decide_plain(alloc, tree, whole.rules(), first, second)?;
        if !is_same(fast, plain) {
            return Ok(Some(Difference::Branches(first, second)));
        }
        counts.pairs = counts.pairs.saturating_add(1);
    }
    Ok(None)
}
