// What is known of one node, and nodes without children.
ghost use Rattle.std.specs.Prelude.{◌≡◌, ◌<◌, ◌≤◌, ◌+◌, ◌-◌, ◌*◌, ◌^◌, ℕ, List, IfOk, length};
ghost use Rattle.cip_digraph.specs.graph.Graph.{vertex_at};
ghost use Rattle.cip_digraph.specs.rings.Positions.{listed_positions, mean_key};
ghost use Rattle.cip_digraph.specs.declared.nodes.NodeKind.TheVariants.{Closure, Multiple, Delocalised};
ghost use Rattle.cip_digraph.specs.digraph.Digraph.{duplicate};
ghost use Rattle.cip_digraph.specs.digraph.View.{real_at};
ghost use Rattle.cip_digraph.specs.rules.Keys.{atom_mass};
ghost use Rattle.cip_tree.specs.Branches.{gathered};
ghost use Rattle.cip_tree.specs.Boxed.{label_of, bare};

use crate::paths::sphere_of_counterpart;
use crate::tree::PlainTree;
use cip_digraph::{Graph, NodeKind, Positions};
use cip_elem::natural_half;
use std::alloc::{AllocError, Global};

// The atomic number of a vertex, 0 at a number that is no vertex.
fn z_of(graph: &Graph, vertex: u32) -> u8
    ensures { result ≡ (vertex_at graph.now vertex).z }
{
    match graph.vertices().get(vertex as usize) {
        Some(vertex) => vertex.z,
        None => 0,
    }
}

fn atomic_of(graph: &Graph, vertex: u32) -> u32
    ensures { result ≡ 6 * (vertex_at graph.now vertex).z }
{
    6 * z_of(graph, vertex) as u32
}

// Six times the mean atomic number where the double bond of a vertex can be.
fn mean_of(graph: &Graph, positions: &Positions, vertex: u32) -> u32
    requires { 0 < length (listed_positions positions.now vertex) }
    ensures { result ≡ mean_key graph.now positions.now vertex }
{
    let others = positions.of(vertex);
    let mut total = 0u32;
    for other in others {
        total += z_of(graph, *other) as u32;
    }
    6 * total / others.len() as u32
}

// The mass key of an atom of a vertex, in half units.
#[tactic(auto, using(crate::proofs::lemmas::Masses::no_atom))]
fn mass_of(graph: &Graph, vertex: u32) -> u32
    ensures { result ≡ atom_mass (vertex_at graph.now vertex) }
{
    match graph.vertices().get(vertex as usize) {
        Some(vertex) => {
            if vertex.isotope == 0 {
                natural_half(vertex.z) as u32
            } else {
                2 * vertex.isotope as u32
            }
        }
        None => 1,
    }
}

/// The real node at the end of a path, with its children.
pub fn real(graph: &Graph, path: Vec<u32>, children: Vec<PlainTree>) -> PlainTree
    requires some { 0 < length path.items }
    requires few { length path.items ≤ 2 ^ 32 }
    ensures { (positions : List (List ℕ)) → result
        ≡ record { label = label_of graph.now positions (real_at path.items); below = gathered children.items } }
{
    let vertex = path[0];
    let sphere = (path.len() - 1) as u32;
    PlainTree {
        kind: NodeKind::Real,
        path,
        vertex,
        atomic: atomic_of(graph, vertex),
        mass: mass_of(graph, vertex),
        as_printed: sphere,
        as_corrected: sphere,
        children,
    }
}

/// The closure below the end of a path that repeats a vertex of it.
pub fn closure(
    alloc: Global,
    graph: &Graph,
    path: &[u32],
    vertex: u32,
) -> Result<PlainTree, AllocError>
    requires { length path.now < 2 ^ 32 }
    ensures { (positions : List (List ℕ)) → IfOk result (λ branch. branch ≡ bare graph.now positions (duplicate Closure vertex path.now)) }
{
    let sphere = sphere_of_counterpart(path, vertex);
    Ok(PlainTree {
        kind: NodeKind::Closure,
        path: path.to_vec(alloc)?,
        vertex,
        atomic: atomic_of(graph, vertex),
        mass: 0,
        as_printed: sphere,
        as_corrected: sphere,
        children: Vec::new(alloc),
    })
}

/// The duplicate below the end of a path for a multiple bond to a vertex.
pub fn multiple(
    alloc: Global,
    graph: &Graph,
    path: &[u32],
    vertex: u32,
) -> Result<PlainTree, AllocError>
    requires some { 0 < length path.now }
    requires few { length path.now < 2 ^ 32 }
    ensures { (positions : List (List ℕ)) → IfOk result (λ branch. branch ≡ bare graph.now positions (duplicate Multiple vertex path.now)) }
{
    Ok(PlainTree {
        kind: NodeKind::Multiple,
        path: path.to_vec(alloc)?,
        vertex,
        atomic: atomic_of(graph, vertex),
        mass: 0,
        as_printed: sphere_of_counterpart(path, vertex),
        as_corrected: (path.len() - 1) as u32,
        children: Vec::new(alloc),
    })
}

/// The duplicate below the end of a path for its vertex's double bond that can be at several places.
pub fn delocalised(
    alloc: Global,
    graph: &Graph,
    positions: &Positions,
    path: &[u32],
    vertex: u32,
) -> Result<PlainTree, AllocError>
    requires some { 0 < length path.now }
    requires few { length path.now < 2 ^ 32 }
    requires listed { 0 < length (listed_positions positions.now vertex) }
    ensures { IfOk result (λ branch. branch ≡ bare graph.now positions.now (duplicate Delocalised vertex path.now)) }
{
    let sphere = (path.len() - 1) as u32;
    Ok(PlainTree {
        kind: NodeKind::Delocalised,
        path: path.to_vec(alloc)?,
        vertex,
        atomic: mean_of(graph, positions, vertex),
        mass: 0,
        as_printed: sphere,
        as_corrected: sphere,
        children: Vec::new(alloc),
    })
}
