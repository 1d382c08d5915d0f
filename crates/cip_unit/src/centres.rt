// Centres: the atoms that can be chirality centres.
ghost use Rattle.std.specs.Prelude.{◌≡◌, ◌<◌, ◌≤◌, ◌++◌, ◌&&◌, ◌||◌, ◌==◌, OnOk, drop, filter, is_some, length, map, true};
ghost use Rattle.cip_elem.specs.Electrons.{outer_of};
ghost use Rattle.cip_mol.specs.declared.site.Ligand.TheVariants as variants;
ghost use Rattle.cip_digraph.specs.units.Centres.{centre_ligands, is_centre, is_quadriligant};
ghost use Rattle.cip_digraph.specs.graph.Graph.{edges_at, neighbours};
ghost use Rattle.cip_digraph.specs.graph.GraphRanges.{IsElement};
ghost use Rattle.cip_digraph.specs.graph.Incidence.{leads_lower};
ghost use Rattle.cip_digraph.specs.graph.SoundGraphs.{IsSound};
ghost use Rattle.cip_unit.specs.Sites.{centre_sites, fourth, has_centre_bonds, units_at};

use crate::unit::push_unit;
use cip_digraph::{Edge, Graph, Units, Vertex};
use cip_elem::outer;
use cip_mol::{Ligand, Ligands, Molecule, Site};
use std::alloc::{AllocError, Global};

/// Adds the centre at an atom, where it is one.
pub fn push_centre(
    alloc: Global,
    molecule: &Molecule,
    graph: &Graph,
    atom: u32,
    units: &mut Units,
) -> Result<(), AllocError>
    requires drawn { graph.now.drawn ≡ length molecule.now.atoms }
    requires within { atom < graph.now.drawn }
    ensures { OnOk result (units.new ≡ units.old ++ units_at molecule.now (centre_sites graph.now atom)) }
{
    if is_centre(graph, atom) {
        push_site(alloc, molecule, graph, atom, units)
    } else {
        Ok(())
    }
}

// Most atoms are no centre: what makes a site stands aside, so that looking for them takes few steps.
#[inline(never)]
fn push_site(
    alloc: Global,
    molecule: &Molecule,
    graph: &Graph,
    atom: u32,
    units: &mut Units,
) -> Result<(), AllocError>
    requires drawn { graph.now.drawn ≡ length molecule.now.atoms }
    requires within { atom < graph.now.drawn }
    requires centre { is_centre graph.now atom ≡ true }
    ensures { OnOk result (units.new ≡ units.old ++ units_at molecule.now (centre_sites graph.now atom)) }
{
    let site = Site::Centre {
        at: atom,
        ligands: centre_ligands(alloc, graph, atom),
    };
    push_unit(molecule, site, units)
}

fn is_centre(graph: &Graph, atom: u32) -> bool
    requires { atom < graph.now.drawn }
    ensures { result ≡ is_centre graph.now atom }
{
    // Most atoms have other bonds: their neighbours aren't counted. Edges ascend, and drawn atoms come first: the third
    // edge says whether three neighbours are drawn.
    has_centre_bonds(&graph.vertices()[atom as usize], graph.edges_at(atom).len())
        && leads_to_drawn(graph.edges_at(atom), 2, atom, graph.drawn())
}

// Whether there is an edge at a place that leads from an atom to one of the drawn ones.
fn leads_to_drawn(edges: &[Edge], place: usize, atom: u32, drawn: u32) -> bool
    ensures { result ≡ leads_lower atom drawn (drop place edges.now) }
{
    match edges.get(place) {
        Some(edge) => edge.other_end(atom) < drawn,
        None => false,
    }
}

// Whether an atom with n bonds can be a centre.
fn has_centre_bonds(vertex: &Vertex, edges: usize) -> bool
    requires { IsElement vertex.now }
    ensures { result ≡ has_centre_bonds vertex.now edges }
{
    match edges {
        4 => is_quadriligant(vertex),
        3 => outer(vertex.z).is_some() && vertex.lone,
        _ => false,
    }
}

fn is_quadriligant(vertex: &Vertex) -> bool
    requires { IsElement vertex.now }
    ensures { result ≡ is_quadriligant vertex.now.z vertex.now.charge }
{
    match vertex.z {
        6 | 14 | 32 => true,
        7 => vertex.charge > 0,
        5 => vertex.charge < 0,
        z => outer(z).is_some(),
    }
}

fn centre_ligands(alloc: Global, graph: &Graph, atom: u32) -> Ligands
    requires { length (edges_at graph.now atom) ≤ 4 }
    ensures { result ≡ centre_ligands graph.now atom }
{
    let mut ligands = neighbours(alloc, graph, atom);
    if ligands.len() == 3 {
        ligands.push(Ligand::LonePair);
    }
    ligands
}

fn neighbours(alloc: Global, graph: &Graph, atom: u32) -> Ligands
    requires { length (edges_at graph.now atom) ≤ 4 }
    ensures { result ≡ map variants.Vertex (neighbours graph.now atom) }
{
    let mut ligands = Ligands::new(alloc);
    for edge in graph.edges_at(atom) {
        ligands.push(Ligand::Vertex(edge.other_end(atom)));
    }
    ligands
}
