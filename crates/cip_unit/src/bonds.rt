// Bond units: double bonds that can have a descriptor.
ghost use Rattle.std.specs.Prelude.{◌≡◌, ◌==◌, ◌<◌, ◌&&◌, ◌++◌, ◌∷◌, [], IfOk, OnOk, length};
ghost use Rattle.cip_digraph.specs.units.DoubleBonds.{bond_site, bond_sites, is_bond_unit};
ghost use Rattle.cip_digraph.specs.graph.Graph.{other_end};
ghost use Rattle.cip_digraph.specs.rings.Positions.{is_delocalised};
ghost use Rattle.cip_unit.specs.Sites.{can_be_bond_unit, can_begin, LeadsToAtoms, one_bond_site, units_at};

use crate::ends::{end_ligands, is_bond_end, is_double_end, vertex_at};
use crate::unit::push_unit;
use crate::unit_context::UnitContext;
use cip_digraph::{Edge, Graph, Positions, Units};
use cip_mol::Site;
use cip_ring::{VertexSet, is_in_small_ring};
use std::alloc::{AllocError, Global};

/// Adds the bond units of a first end, by the second one. The set serves the search for rings.
pub fn push_bonds(
    alloc: Global,
    sketch: &UnitContext<'_>,
    a: u32,
    reached: &mut VertexSet,
    units: &mut Units,
) -> Result<(), AllocError>
    requires drawn { sketch.now.graph.now.drawn ≡ length sketch.now.molecule.now.atoms }
    requires within { a < sketch.now.graph.now.drawn }
    requires leads { LeadsToAtoms sketch.now.graph.now }
    ensures { OnOk result (units.new ≡ units.old
        ++ units_at sketch.now.molecule.now (bond_sites sketch.now.graph.now sketch.now.positions.now a)) }
{
    // Most atoms are no first end: their bonds aren't looked at.
    if !can_begin(sketch, a) {
        return Ok(());
    }
    for edge in sketch.graph.edges_at(a) {
        // Most bonds are single: no site is made for them.
        if is_counted_double(edge) {
            let Ok(()) = push_bond(alloc, sketch, a, edge, reached, units) else {
                return Err(AllocError);
            };
        }
    }
    Ok(())
}

fn can_begin(sketch: &UnitContext<'_>, a: u32) -> bool
    ensures { result ≡ can_begin sketch.now.graph.now sketch.now.positions.now a }
{
    sketch.positions.of(a).len() <= 1
        && is_double_end(vertex_at(sketch.graph, a), sketch.graph.edges_at(a).len())
}

fn is_counted_double(edge: &Edge) -> bool
    ensures { result ≡ (edge.now.counted && (edge.now.order == 2)) }
{
    edge.counted && edge.order == 2
}

// Adds the unit of a bond, where it is one.
fn push_bond(
    alloc: Global,
    sketch: &UnitContext<'_>,
    a: u32,
    edge: &Edge,
    reached: &mut VertexSet,
    units: &mut Units,
) -> Result<(), AllocError>
    requires drawn { sketch.now.graph.now.drawn ≡ length sketch.now.molecule.now.atoms }
    requires within { a < sketch.now.graph.now.drawn }
    requires leads { edge.now.order ≡ 2 → other_end a edge.now < sketch.now.graph.now.drawn }
    ensures { OnOk result
        (units.new ≡ units.old
        ++ units_at sketch.now.molecule.now (one_bond_site sketch.now.graph.now sketch.now.positions.now a edge.now)) }
{
    let b = edge.other_end(a);
    if !can_be_bond_unit(sketch.graph, sketch.positions, a, b, edge) {
        return Ok(());
    }
    let Ok(in_ring) = is_in_small_ring(sketch.graph, a, b, reached) else {
        return Err(AllocError);
    };
    if in_ring {
        Ok(())
    } else {
        let unit = [a, b];
        let site = Site::Bond {
            a,
            b,
            first: end_ligands(alloc, sketch.graph, &unit, a),
            second: end_ligands(alloc, sketch.graph, &unit, b),
        };
        push_unit(sketch.molecule, site, units)
    }
}

// Whether a bond is a unit if it lies in no small ring.
fn can_be_bond_unit(graph: &Graph, positions: &Positions, a: u32, b: u32, edge: &Edge) -> bool
    requires { b ≡ other_end a edge.now }
    ensures { result ≡ can_be_bond_unit graph.now positions.now a edge.now }
{
    let unit = [a, b];
    edge.counted
        && edge.order == 2
        && a < b
        && is_bond_end(graph, &unit, a)
        && is_bond_end(graph, &unit, b)
        && positions.of(a).len() <= 1
}
