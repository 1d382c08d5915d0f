// Worked digraphs in boxes: how many nodes they have, and how two ligands compare by constitution.
ghost use Rattle.std.specs.Prelude.{◌<◌, ◌^◌};
ghost use Rattle.cip_tree.specs.Branches.{node_count};

use crate::digraphs::deciding::decide_plain;
use crate::molecule_rows::molecules::Drawn;
use crate::molecule_rows::written::written;
use cip_digraph::{Decision, Nodes};
use cip_rank::Rules;
use cip_tree::{Flat, PlainTree, plain_tree};
use gate_tables::{Row, Text};
use std::alloc::{AllocError, Global};
use std::cmp::Ordering;

/// How many nodes the digraph of atom 0 has up to a sphere, and how two of the atom's neighbours compare.
pub fn two_stand(alloc: Global, out: &mut Text, row: &Row) {
    let boxed = boxed(alloc, row, row.number(4));
    match &boxed {
        Ok(Some(tree)) => push_counted(alloc, out, row, tree),
        Ok(None) => out.push_str("no molecule"),
        Err(_) => out.miss(),
    }
    // proof: dropped by a call, here and below, which is quicker to prove than the end of scope
    drop(boxed);
}

// The digraph of atom 0 up to a sphere.
fn boxed(alloc: Global, row: &Row, sphere: u32) -> Result<Option<PlainTree>, AllocError> {
    let drawn = written(alloc, row)?;
    let tree = boxed_of(alloc, &drawn, sphere);
    drop(drawn);
    tree
}

fn boxed_of(
    alloc: Global,
    drawn: &Option<Drawn>,
    sphere: u32,
) -> Result<Option<PlainTree>, AllocError> {
    match drawn {
        Some(drawn) => Ok(Some(plain_tree(alloc, &drawn.graph, &drawn.positions, 0, sphere)?)),
        None => Ok(None),
    }
}

fn push_counted(alloc: Global, out: &mut Text, row: &Row, tree: &PlainTree) {
    let Some(count) = tree.node_count() else {
        return out.push_str("too many nodes");
    };
    write!(out, "{count} nodes, ");
    push_order(alloc, out, row, tree)
}

fn push_order(alloc: Global, out: &mut Text, row: &Row, tree: &PlainTree)
    requires few { node_count tree.now < 2 ^ 32 }
{
    let flat = tree.flat();
    match &flat {
        Ok(nodes) => push_order_in(alloc, out, row, tree, nodes),
        Err(_) => out.miss(),
    }
    drop(flat);
}

fn push_order_in(alloc: Global, out: &mut Text, row: &Row, tree: &PlainTree, nodes: &Flat)
    requires few { node_count tree.now < 2 ^ 32 }
{
    match (
        place_of(nodes, row.number(5)),
        place_of(nodes, row.number(6)),
    ) {
        (Some(a), Some(b)) => push_stand(alloc, out, tree, a, b),
        _ => out.push_str("no neighbours"),
    }
}

// The place of a vertex among the children of the root.
fn place_of(nodes: &Flat, vertex: u32) -> Option<u32> {
    let table = nodes.table();
    if table.len() == 0 {
        return None;
    }
    let (first, past) = table.children(0);
    for node in first..past {
        if nodes.vertex(node) == Some(vertex) {
            return Some(node - first);
        }
    }
    None
}

fn push_stand(alloc: Global, out: &mut Text, tree: &PlainTree, a: u32, b: u32)
    requires few { node_count tree.now < 2 ^ 32 }
{
    match decide_plain(alloc, tree, Rules::Wording2013, a, b) {
        Ok(Some(decision)) => push_decision(out, decision),
        Ok(None) => out.push_str("a tie"),
        Err(_) => out.miss(),
    }
}

fn push_decision(out: &mut Text, decision: Decision) {
    let Decision { side, rule, sphere } = decision;
    let side = match side {
        Ordering::Greater => "higher",
        _ => "lower",
    };
    write!(out, "{side} by Rule {rule} in sphere {sphere}")
}

/// The atom keys of the children of atom 0, ascending, each six times an atomic number.
pub fn child_keys(alloc: Global, out: &mut Text, row: &Row) {
    let boxed = boxed(alloc, row, 1);
    match &boxed {
        Ok(Some(tree)) => push_keys_of(alloc, out, tree),
        Ok(None) => out.push_str("no molecule"),
        Err(_) => out.miss(),
    }
    drop(boxed);
}

fn push_keys_of(alloc: Global, out: &mut Text, tree: &PlainTree) {
    if tree.node_count().is_none() {
        return out.push_str("too many nodes");
    }
    let flat = tree.flat();
    match &flat {
        Ok(nodes) => push_keys_in(alloc, out, nodes),
        Err(_) => out.miss(),
    }
    drop(flat);
}

fn push_keys_in(alloc: Global, out: &mut Text, nodes: &Flat) {
    match keys_of(alloc, nodes) {
        Ok(keys) => push_numbers(out, &keys),
        Err(_) => out.miss(),
    }
}

fn keys_of(alloc: Global, nodes: &Flat) -> Result<Vec<u32>, AllocError> {
    let mut keys = Vec::new(alloc);
    let table = nodes.table();
    if table.len() > 0 {
        let (first, past) = table.children(0);
        for node in first..past {
            keys.push(nodes.atom_key(node))?;
        }
    }
    keys.sort()?;
    Ok(keys)
}

fn push_numbers(out: &mut Text, numbers: &[u32]) {
    for number in numbers {
        out.push_number(i64::from(*number));
    }
}
