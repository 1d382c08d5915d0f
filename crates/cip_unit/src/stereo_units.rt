// The units of a molecule.
ghost use Rattle.std.specs.Prelude.{◌≡◌, ◌++◌, ◌<◌, ◌≤◌, flat_map, IfOk, OnOk, length};
ghost use Rattle.std.specs.List.{range_with_len};
ghost use Rattle.cip_mol.specs.Geometry.{geometry_of};
ghost use Rattle.cip_digraph.specs.graph.DrawnGraph.{graph_of};
ghost use Rattle.cip_digraph.specs.units.Units.{units_of};
ghost use Rattle.cip_unit.specs.Sites.{centre_sites, has_allene, has_double, LeadsToAtoms, units_at, with_axes, with_bonds};

use crate::axes::{is_allene_middle, push_axes};
use crate::bonds::push_bonds;
use crate::centres::push_centre;
use crate::unit_context::UnitContext;
use cip_digraph::{Graph, Positions, Units};
use cip_mol::Molecule;
use cip_ring::VertexSet;
use std::alloc::{AllocError, Global};

/// The units of a molecule with this graph, with what the drawing shows of each.
pub fn units(
    alloc: Global,
    molecule: &Molecule,
    graph: &Graph,
    positions: &Positions,
) -> Result<Units, AllocError>
    requires { graph.now ≡ graph_of molecule.now }
    ensures { IfOk result (λ units. units ≡ units_of (geometry_of molecule.now) graph.now positions.now) }
{
    let sketch = UnitContext {
        molecule,
        graph,
        positions,
    };
    let atoms = molecule.atoms().len() as u32;
    let mut units = Units::new(alloc);
    let Ok(()) = push_all_centres(alloc, &sketch, atoms, &mut units) else {
        return Err(AllocError);
    };
    let Ok(()) = push_all_doubles(alloc, &sketch, atoms, &mut units) else {
        return Err(AllocError);
    };
    Ok(units)
}

fn push_all_centres(
    alloc: Global,
    sketch: &UnitContext<'_>,
    atoms: u32,
    units: &mut Units,
) -> Result<(), AllocError>
    requires drawn { sketch.now.graph.now.drawn ≡ length sketch.now.molecule.now.atoms }
    requires atoms { atoms ≡ sketch.now.graph.now.drawn }
    ensures { OnOk result
        (units.new ≡ units.old
        ++ units_at sketch.now.molecule.now (flat_map (centre_sites sketch.now.graph.now) (range_with_len 0 atoms))) }
{
    for atom in 0..atoms {
        let Ok(()) = push_centre(alloc, sketch.molecule, sketch.graph, atom, units) else {
            return Err(AllocError);
        };
    }
    Ok(())
}

// Adds the bond units and then the axis units, of which there are none without double bonds.
fn push_all_doubles(
    alloc: Global,
    sketch: &UnitContext<'_>,
    atoms: u32,
    units: &mut Units,
) -> Result<(), AllocError>
    requires drawn { sketch.now.graph.now.drawn ≡ length sketch.now.molecule.now.atoms }
    requires atoms { atoms ≡ sketch.now.graph.now.drawn }
    requires leads { LeadsToAtoms sketch.now.graph.now }
    ensures { OnOk result
        (units.new ≡ with_axes sketch.now.molecule.now sketch.now.graph.now atoms
        (with_bonds sketch.now.molecule.now sketch.now.graph.now sketch.now.positions.now atoms units.old)) }
{
    if has_double(sketch.graph) {
        let Ok(()) = push_all_bonds(alloc, sketch, atoms, units) else {
            return Err(AllocError);
        };
        push_all_axes(alloc, sketch, atoms, units)
    } else {
        Ok(())
    }
}

fn has_double(graph: &Graph) -> bool
    ensures { result ≡ has_double graph.now }
{
    for edge in graph.edges() {
        if edge.order == 2 {
            return true;
        }
    }
    false
}

fn push_all_bonds(
    alloc: Global,
    sketch: &UnitContext<'_>,
    atoms: u32,
    units: &mut Units,
) -> Result<(), AllocError>
    requires drawn { sketch.now.graph.now.drawn ≡ length sketch.now.molecule.now.atoms }
    requires atoms { atoms ≡ sketch.now.graph.now.drawn }
    requires leads { LeadsToAtoms sketch.now.graph.now }
    ensures { OnOk result
        (units.new ≡ with_bonds sketch.now.molecule.now sketch.now.graph.now sketch.now.positions.now atoms units.old) }
{
    let Ok(mut reached) = VertexSet::new(alloc, sketch.graph.vertices().len()) else {
        return Err(AllocError);
    };
    for atom in 0..atoms {
        let Ok(()) = push_bonds(alloc, sketch, atom, &mut reached, units) else {
            return Err(AllocError);
        };
    }
    Ok(())
}

// Few molecules have an allene, so axes are looked for where there is one.
fn push_all_axes(
    alloc: Global,
    sketch: &UnitContext<'_>,
    atoms: u32,
    units: &mut Units,
) -> Result<(), AllocError>
    requires drawn { sketch.now.graph.now.drawn ≡ length sketch.now.molecule.now.atoms }
    requires atoms { atoms ≡ sketch.now.graph.now.drawn }
    requires leads { LeadsToAtoms sketch.now.graph.now }
    ensures { OnOk result (units.new ≡ with_axes sketch.now.molecule.now sketch.now.graph.now atoms units.old) }
{
    if !has_allene(sketch.graph, atoms) {
        return Ok(());
    }
    for atom in 0..atoms {
        let Ok(()) = push_axes(alloc, sketch, atom, units) else {
            return Err(AllocError);
        };
    }
    Ok(())
}

fn has_allene(graph: &Graph, atoms: u32) -> bool
    ensures { result ≡ has_allene graph.now atoms }
{
    for atom in 0..atoms {
        if is_allene_middle(graph, atom) {
            return true;
        }
    }
    false
}
