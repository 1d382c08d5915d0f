// The digraph of a root, grown path by path.
ghost use Rattle.std.specs.Prelude.{◌≡◌, ◌<◌, ◌≤◌, ◌+◌, ◌^◌, ◌++◌, IfOk, OnOk, length, map, replicate};
ghost use Rattle.cip_digraph.specs.digraph.View.{real_at};
ghost use Rattle.cip_tree.specs.Along.{neighbour_below, edge_below, copies as copies_of, is_shifted as can_shift, duplicate_for as duplicate_of};
ghost use Rattle.cip_tree.specs.Boxed.{bare, grown, boxed_digraph};

use crate::labels::{closure, delocalised, multiple, real};
use crate::paths::{is_above, is_on, longer};
use crate::tree::PlainTree;
use cip_digraph::{Edge, Graph, Positions};
use std::alloc::{AllocError, Global};

// A graph, and where the double bonds at a vertex can be.
#[derive(Clone, Copy)]
struct Bonding<'a> {
    graph: &'a Graph,
    positions: &'a Positions,
}

// The real node at the end of a path, with n spheres below it.
#[cycle(grow)]
fn grow(
    alloc: Global,
    bonding: &Bonding<'_>,
    path: Vec<u32>,
    spheres: u32,
) -> Result<PlainTree, AllocError>
    requires some { 0 < length path.items }
    requires few { length path.items + spheres ≤ 2 ^ 32 }
    ensures { IfOk result (λ tree. tree ≡ grown bonding.now.graph.now bonding.now.positions.now spheres
        (real_at path.items)) }
{
    let mut children = Vec::new(alloc);
    if spheres > 0 {
        for edge in bonding.graph.edges_at(path[0]) {
            add_edge(alloc, bonding, &path, edge, spheres - 1, &mut children)?;
        }
    }
    Ok(real(bonding.graph, path, children))
}

// Adds what an edge at the end of a path gives.
#[cycle(grow)]
fn add_edge(
    alloc: Global,
    bonding: &Bonding<'_>,
    path: &[u32],
    edge: &Edge,
    spheres: u32,
    children: &mut Vec<PlainTree>,
) -> Result<(), AllocError>
    requires some { 0 < length path.now }
    requires few { length path.now + spheres < 2 ^ 32 }
    ensures { OnOk result (children.new.items ≡ children.old.items
        ++ map (grown bonding.now.graph.now bonding.now.positions.now spheres)
        (edge_below bonding.now.positions.now path.now edge.now)) }
{
    let other = edge.other_end(path[0]);
    add_neighbour(alloc, bonding, path, other, spheres, children)?;
    add_duplicates(alloc, bonding, path, edge, children)
}

#[cycle(grow)]
fn add_neighbour(
    alloc: Global,
    bonding: &Bonding<'_>,
    path: &[u32],
    other: u32,
    spheres: u32,
    children: &mut Vec<PlainTree>,
) -> Result<(), AllocError>
    requires some { 0 < length path.now }
    requires few { length path.now + spheres < 2 ^ 32 }
    ensures { OnOk result (children.new.items ≡ children.old.items
        ++ map (grown bonding.now.graph.now bonding.now.positions.now spheres)
        (neighbour_below path.now other)) }
{
    if is_above(path, other) {
        return Ok(());
    }
    let child = if is_on(path, other) {
        closure(alloc, bonding.graph, path, other)?
    } else {
        grow(alloc, bonding, longer(alloc, other, path)?, spheres)?
    };
    children.push(child)?;
    Ok(())
}

// Adds the duplicates for a multiple bond at the end of a path.
fn add_duplicates(
    alloc: Global,
    bonding: &Bonding<'_>,
    path: &[u32],
    edge: &Edge,
    children: &mut Vec<PlainTree>,
) -> Result<(), AllocError>
    requires some { 0 < length path.now }
    requires few { length path.now < 2 ^ 32 }
    ensures { OnOk result (children.new.items ≡ children.old.items ++ replicate (copies_of edge.now)
        (bare bonding.now.graph.now bonding.now.positions.now
        (duplicate_of bonding.now.positions.now path.now edge.now))) }
{
    for _ in 0..copies(edge) {
        children.push(duplicate_for(alloc, bonding, path, edge)?)?;
    }
    Ok(())
}

// How many duplicates an edge gives at each of its ends.
fn copies(edge: &Edge) -> u8
    ensures { result ≡ copies_of edge.now }
{
    if edge.counted {
        edge.order.saturating_sub(1)
    } else {
        0
    }
}

// The double bond at a vertex can be at several places.
fn is_shifted(positions: &Positions, vertex: u32, edge: &Edge) -> bool
    ensures { result ≡ can_shift positions.now vertex edge.now }
{
    edge.order == 2 && positions.of(vertex).len() > 1
}

fn duplicate_for(
    alloc: Global,
    bonding: &Bonding<'_>,
    path: &[u32],
    edge: &Edge,
) -> Result<PlainTree, AllocError>
    requires some { 0 < length path.now }
    requires few { length path.now < 2 ^ 32 }
    ensures { IfOk result (λ branch. branch
        ≡ bare bonding.now.graph.now bonding.now.positions.now
        (duplicate_of bonding.now.positions.now path.now edge.now)) }
{
    let vertex = path[0];
    if is_shifted(bonding.positions, vertex, edge) {
        delocalised(alloc, bonding.graph, bonding.positions, path, vertex)
    } else {
        multiple(alloc, bonding.graph, path, edge.other_end(vertex))
    }
}

/// The digraph of a root up to a sphere.
pub fn plain_tree(
    alloc: Global,
    graph: &Graph,
    positions: &Positions,
    root: u32,
    sphere: u32,
) -> Result<PlainTree, AllocError>
    ensures { IfOk result (λ tree. tree ≡ boxed_digraph graph.now positions.now root sphere) }
{
    let mut path = Vec::new(alloc);
    path.push(root)?;
    let bonding = Bonding { graph, positions };
    grow(alloc, &bonding, path, sphere)
}
