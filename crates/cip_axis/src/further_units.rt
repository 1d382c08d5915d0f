// The further units of a molecule.
ghost use Rattle.std.specs.Prelude.{◌≡◌, ◌++◌, ◌<◌, ◌^◌, flat_map, IfOk, OnOk, length};
ghost use Rattle.std.specs.List.{range_with_len};
ghost use Rattle.cip_digraph.specs.graph.DrawnGraph.{graph_of};
ghost use Rattle.cip_axis.specs.Further.{biaryls_of, cumulenes_of, further_of};
ghost use Rattle.cip_axis.specs.FurtherOutcomes.{AreFurtherFit};
ghost use Rattle.cip_axis.specs.Listing.{IsGraphOf};

use crate::axis_context::AxisContext;
use crate::biaryls::push_biaryls;
use crate::cumulenes::push_cumulenes;
use crate::units::FurtherUnits;
use cip_digraph::{Graph, Positions};
use cip_mol::Molecule;
use cip_ring::VertexSet;
use std::alloc::{AllocError, Global};

/// The further units of a molecule with this graph, with what the drawing shows of each.
pub fn further(
    alloc: Global,
    molecule: &Molecule,
    graph: &Graph,
    positions: &Positions,
) -> Result<FurtherUnits, AllocError>
    requires { graph.now ≡ graph_of molecule.now }
    ensures value { IfOk result (λ units. units ≡ further_of molecule.now graph.now positions.now) }
    ensures fit { IfOk result (AreFurtherFit graph.now) }
    ensures few { IfOk result (λ units. length units < 2 ^ 32) }
{
    let source = AxisContext {
        molecule,
        graph,
        positions,
    };
    let atoms = molecule.atoms().len() as u32;
    let Ok(mut reached) = VertexSet::new(alloc, graph.vertices().len()) else {
        return Err(AllocError);
    };
    let mut units = FurtherUnits::new(alloc);
    match push_all(alloc, &source, atoms, &mut reached, &mut units) {
        Ok(()) => Ok(units),
        Err(error) => Err(error),
    }
}

fn push_all(
    alloc: Global,
    source: &AxisContext<'_>,
    atoms: u32,
    reached: &mut VertexSet,
    units: &mut FurtherUnits,
) -> Result<(), AllocError>
    requires source { IsGraphOf source.now.molecule.now source.now.graph.now }
    requires atoms { atoms ≡ source.now.graph.now.drawn }
    ensures { OnOk result
        (units.new ≡ (units.old
        ++ flat_map (cumulenes_of source.now.molecule.now source.now.graph.now) (range_with_len 0 atoms))
        ++ flat_map (biaryls_of source.now.molecule.now source.now.graph.now source.now.positions.now)
        (range_with_len 0 atoms)) }
{
    match push_all_cumulenes(alloc, source, atoms, reached, units) {
        Ok(()) => push_all_biaryls(alloc, source, atoms, reached, units),
        Err(error) => Err(error),
    }
}

fn push_all_cumulenes(
    alloc: Global,
    source: &AxisContext<'_>,
    atoms: u32,
    reached: &mut VertexSet,
    units: &mut FurtherUnits,
) -> Result<(), AllocError>
    requires source { IsGraphOf source.now.molecule.now source.now.graph.now }
    requires atoms { atoms ≡ source.now.graph.now.drawn }
    ensures { OnOk result
        (units.new ≡ units.old
        ++ flat_map (cumulenes_of source.now.molecule.now source.now.graph.now) (range_with_len 0 atoms)) }
{
    for atom in 0..atoms {
        let Ok(()) = push_cumulenes(alloc, source, atom, reached, units) else {
            return Err(AllocError);
        };
    }
    Ok(())
}

fn push_all_biaryls(
    alloc: Global,
    source: &AxisContext<'_>,
    atoms: u32,
    reached: &mut VertexSet,
    units: &mut FurtherUnits,
) -> Result<(), AllocError>
    requires source { IsGraphOf source.now.molecule.now source.now.graph.now }
    requires atoms { atoms ≡ source.now.graph.now.drawn }
    ensures { OnOk result
        (units.new ≡ units.old
        ++ flat_map (biaryls_of source.now.molecule.now source.now.graph.now source.now.positions.now)
        (range_with_len 0 atoms)) }
{
    for atom in 0..atoms {
        let Ok(()) = push_biaryls(alloc, source, atom, reached, units) else {
            return Err(AllocError);
        };
    }
    Ok(())
}
