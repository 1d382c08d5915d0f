// The graph, the rings, the positions and the units of a molecule.
ghost use Rattle.std.specs.Prelude.{◌≡◌};
ghost use Rattle.cip_digraph.specs.graph.DrawnGraph.{graph_of};

use crate::molecule_rows::molecules::{Drawn, drawn_of};
use crate::molecule_rows::written::molecule;
use cip_digraph::Graph;
use cip_mol::{Ligand, Ligands, Molecule, Site, Unit};
use cip_ring::smallest_ring;
use cip_unit::units;
use gate_tables::{Row, Text};
use std::alloc::Global;

/// How many vertices and edges a molecule's graph has, the positions of an atom, how many atoms the smallest ring through
/// its first bond has, and its units.
pub fn units_told(alloc: Global, out: &mut Text, row: &Row) {
    let molecule = molecule(alloc, row);
    match &molecule {
        Ok(Some(molecule)) => push_molecule(alloc, out, molecule, row.number(4)),
        Ok(None) => out.push_str("no molecule"),
        Err(_) => out.miss(),
    }
    // proof: dropped by a call, here and below, which is quicker to prove than the end of scope
    drop(molecule);
}

fn push_molecule(alloc: Global, out: &mut Text, molecule: &Molecule, atom: u32) {
    let Ok(drawn) = drawn_of(alloc, molecule) else {
        return out.miss();
    };
    push_drawn(alloc, out, molecule, &drawn, atom);
    drop(drawn);
}

fn push_drawn(alloc: Global, out: &mut Text, molecule: &Molecule, drawn: &Drawn, atom: u32)
    requires { drawn.now.graph ≡ graph_of molecule.now }
{
    push_graph(out, &drawn.graph);
    push_positions(out, &drawn.graph, drawn.positions.of(atom));
    push_first_ring(alloc, out, &drawn.graph);
    push_units(alloc, out, molecule, drawn)
}

fn push_graph(out: &mut Text, graph: &Graph) {
    let vertices = graph.vertices().len();
    let edges = graph.edges().len();
    write!(out, "{vertices} {edges}; ")
}

// The positions of an atom, and six times the mean of their atomic numbers.
fn push_positions(out: &mut Text, graph: &Graph, positions: &[u32]) {
    let (mut sum, mut count) = (0_u32, 0_u32);
    for position in positions {
        count = count.saturating_add(1);
        write!(out, "{position} ");
        if let Some(vertex) = graph.vertices().get(*position as usize) {
            sum = sum.saturating_add(6 * u32::from(vertex.z));
        }
    }
    let mean = sum.checked_div(count).unwrap_or(0);
    write!(out, "{mean}; ")
}

// How many atoms the smallest ring through the first edge has; 0 where there is none.
fn push_first_ring(alloc: Global, out: &mut Text, graph: &Graph) {
    if graph.edges().is_empty() {
        return out.push_str("0; ");
    }
    match smallest_ring(alloc, graph, 0) {
        Ok(ring) => write!(out, "{}; ", ring.unwrap_or(0)),
        Err(_) => out.miss(),
    }
}

fn push_units(alloc: Global, out: &mut Text, molecule: &Molecule, drawn: &Drawn)
    requires { drawn.now.graph ≡ graph_of molecule.now }
{
    let Ok(units) = units(alloc, molecule, &drawn.graph, &drawn.positions) else {
        return out.miss();
    };
    for unit in units.list() {
        push_unit(out, unit);
    }
}

fn push_unit(out: &mut Text, unit: &Unit) {
    match &unit.site {
        Site::Centre { at, ligands } => {
            write!(out, "{at}");
            push_ligands(out, ligands)
        }
        Site::Bond {
            a,
            b,
            first,
            second,
        } => {
            write!(out, "{a}={b}");
            push_both(out, first, second)
        }
        Site::Axis {
            a,
            middle,
            b,
            first,
            second,
        } => {
            write!(out, "{a}={middle}={b}");
            push_both(out, first, second)
        }
    }
}

fn push_both(out: &mut Text, first: &Ligands, second: &Ligands) {
    push_ligands(out, first);
    push_ligands(out, second)
}

// Ligands in brackets, a space after each.
fn push_ligands(out: &mut Text, ligands: &Ligands) {
    out.push_str("(");
    for ligand in ligands.as_slice() {
        match ligand {
            Ligand::Vertex(vertex) => write!(out, "{vertex} "),
            Ligand::LonePair => out.push_str("e "),
        }
    }
    out.push_str(")")
}
