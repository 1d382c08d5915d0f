// The ends of bond and axis units.
ghost use Rattle.std.specs.Prelude.{◌≡◌, ◌<◌, ◌≤◌, ◌++◌, ◌∷◌, [], cond, length, map, not};
ghost use Rattle.cip_mol.specs.declared.site.Ligand.TheVariants as variants;
ghost use Rattle.cip_digraph.specs.rings.Alternating.{is_in};
ghost use Rattle.cip_digraph.specs.units.DoubleBonds.{end_ligands, has_end_bonds, is_bond_end, is_double_end, multiples, outer_neighbours};
ghost use Rattle.cip_digraph.specs.graph.Graph.{edges_at, vertex_at};
ghost use Rattle.cip_unit.specs.Sites.{has_drawn_outside};

use cip_digraph::{Graph, Vertex};
use cip_mol::{Ligand, Ligands};
use std::alloc::Global;

/// What is known of a number that is no vertex.
const NO_VERTEX: Vertex = Vertex {
    z: 0,
    isotope: 0,
    charge: 0,
    lone: false,
};

/// The vertex of a number.
pub fn vertex_at(graph: &Graph, number: u32) -> Vertex
    ensures { result ≡ vertex_at graph.now number }
{
    match graph.vertices().get(number as usize) {
        Some(vertex) => *vertex,
        None => NO_VERTEX,
    }
}

/// Whether an atom can be an end of a bond unit.
pub fn is_bond_end(graph: &Graph, unit: &[u32], atom: u32) -> bool
    ensures { result ≡ is_bond_end graph.now unit.now atom }
{
    is_double_end(vertex_at(graph, atom), graph.edges_at(atom).len())
        && has_end_bonds(graph, unit, atom)
}

/// Whether an atom with n bonds can be an end of a double bond that is a unit.
pub(crate) fn is_double_end(vertex: Vertex, edges: usize) -> bool
    ensures { result ≡ is_double_end vertex.z vertex.charge edges }
{
    match edges {
        3 => match vertex.z {
            6 | 14 | 32 => true,
            7 => vertex.charge == 1,
            _ => false,
        },
        2 => vertex.z == 7 && vertex.charge == 0,
        _ => false,
    }
}

/// Whether an atom has one multiple bond, and a drawn neighbour outside a unit.
pub fn has_end_bonds(graph: &Graph, unit: &[u32], atom: u32) -> bool
    ensures { result ≡ has_end_bonds graph.now unit.now atom }
{
    multiple_count(graph, atom) == 1 && has_drawn_outside(graph, unit, atom)
}

fn multiple_count(graph: &Graph, atom: u32) -> usize
    ensures { result ≡ length (multiples graph.now atom) }
{
    let mut count = 0;
    for edge in graph.edges_at(atom) {
        if edge.order >= 2 {
            count += 1;
        }
    }
    count
}

fn is_outside(unit: &[u32], atom: u32) -> bool
    ensures { result ≡ not (is_in atom unit.now) }
{
    !unit.contains(&atom)
}

fn has_drawn_outside(graph: &Graph, unit: &[u32], atom: u32) -> bool
    ensures { result ≡ has_drawn_outside graph.now unit.now atom }
{
    let drawn = graph.drawn();
    for edge in graph.edges_at(atom) {
        let other = edge.other_end(atom);
        if is_outside(unit, other) && other < drawn {
            return true;
        }
    }
    false
}

/// How many neighbours of an atom are outside a unit.
pub fn outer_ligand_count(graph: &Graph, unit: &[u32], atom: u32) -> usize
    ensures { result ≡ length (outer_neighbours graph.now unit.now atom) }
{
    let mut count = 0;
    for edge in graph.edges_at(atom) {
        count += one_if(is_outside(unit, edge.other_end(atom)));
    }
    count
}

fn one_if(counts: bool) -> usize
    ensures value { result ≡ cond counts 1 0 }
    ensures few { result ≤ 1 }
{
    if counts { 1 } else { 0 }
}

/// The ligands of an end.
pub fn end_ligands(alloc: Global, graph: &Graph, unit: &[u32], atom: u32) -> Ligands
    requires { length (edges_at graph.now atom) ≤ 3 }
    ensures { result ≡ end_ligands graph.now unit.now atom }
{
    let mut ligands = outer_ligands(alloc, graph, unit, atom);
    if vertex_at(graph, atom).z == 7 && graph.edges_at(atom).len() == 2 {
        ligands.push(Ligand::LonePair);
    }
    ligands
}

fn outer_ligands(alloc: Global, graph: &Graph, unit: &[u32], atom: u32) -> Ligands
    requires { length (edges_at graph.now atom) ≤ 3 }
    ensures value { result ≡ map variants.Vertex (outer_neighbours graph.now unit.now atom) }
    ensures few { length result ≤ 3 }
{
    let mut ligands = Ligands::new(alloc);
    for edge in graph.edges_at(atom) {
        push_outer(&mut ligands, unit, edge.other_end(atom));
    }
    ligands
}

// Adds a neighbour that is outside the unit.
fn push_outer(ligands: &mut Ligands, unit: &[u32], other: u32)
    requires { length ligands.old < 4 }
    ensures { ligands.new ≡ ligands.old ++ cond (is_in other unit.now) [] (variants.Vertex other ∷ []) }
{
    if is_outside(unit, other) {
        ligands.push(Ligand::Vertex(other));
    }
}
