// Biaryl axes: single bonds about which two rings don't turn.
ghost use Rattle.std.specs.Prelude.{◌≡◌, ◌<◌, ◌≤◌, ◌++◌, IfOk, OnOk, length};
ghost use Rattle.cip_mol.specs.Sites.{IsSite};
ghost use Rattle.cip_digraph.specs.graph.Graph.{edges_at};
ghost use Rattle.cip_axis.specs.Biaryls.{is_biaryl, is_biaryl_end};
ghost use Rattle.cip_axis.specs.Further.{biaryl_site, biaryl_unit, biaryls_of};
ghost use Rattle.cip_axis.specs.Likeness.{like};
ghost use Rattle.cip_axis.specs.Listing.{IsGraphOf, are_three_hindered, can_be_biaryl, one_biaryl};

use crate::axis_context::AxisContext;
use crate::hindrance::hindered_count;
use crate::site::{FurtherSite, FurtherUnit};
use crate::units::FurtherUnits;
use cip_digraph::{Edge, Graph, Positions};
use cip_mol::Molecule;
use cip_orient::orient_ends;
use cip_ring::{VertexSet, is_in_ring, is_in_small_ring};
use cip_unit::{end_ligands, has_end_bonds, outer_ligand_count};
use std::alloc::{AllocError, Global};

/// Adds the biaryl axes of a first end, by the second one. The set serves the search for rings.
pub fn push_biaryls(
    alloc: Global,
    source: &AxisContext<'_>,
    a: u32,
    reached: &mut VertexSet,
    units: &mut FurtherUnits,
) -> Result<(), AllocError>
    requires source { IsGraphOf source.now.molecule.now source.now.graph.now }
    requires within { a < source.now.graph.now.drawn }
    ensures { OnOk result
        (units.new ≡ units.old
        ++ biaryls_of source.now.molecule.now source.now.graph.now source.now.positions.now a) }
{
    for edge in source.graph.edges_at(a) {
        let Ok(()) = push_biaryl(alloc, source, a, edge, reached, units) else {
            return Err(AllocError);
        };
    }
    Ok(())
}

// Adds the unit of a bond, where it is one.
fn push_biaryl(
    alloc: Global,
    source: &AxisContext<'_>,
    a: u32,
    edge: &Edge,
    reached: &mut VertexSet,
    units: &mut FurtherUnits,
) -> Result<(), AllocError>
    requires source { IsGraphOf source.now.molecule.now source.now.graph.now }
    requires within { a < source.now.graph.now.drawn }
    ensures { OnOk result
        (units.new ≡ units.old
        ++ one_biaryl source.now.molecule.now source.now.graph.now source.now.positions.now a edge.now) }
{
    match is_biaryl(alloc, source.graph, source.positions, a, edge, reached) {
        Ok(true) => {
            let unit = biaryl_unit(alloc, source.molecule, source.graph, a, edge.other_end(a));
            units.push(unit)
        }
        Ok(false) => Ok(()),
        Err(error) => Err(error),
    }
}

fn biaryl_unit(alloc: Global, molecule: &Molecule, graph: &Graph, a: u32, b: u32) -> FurtherUnit
    requires shown { IsSite (length molecule.now.atoms) (like (biaryl_site graph.now a b)) }
    requires first { length (edges_at graph.now a) ≤ 3 }
    requires second { length (edges_at graph.now b) ≤ 3 }
    ensures { result ≡ biaryl_unit molecule.now graph.now a b }
{
    let unit = [a, b];
    let site = FurtherSite::Biaryl {
        a,
        b,
        first: end_ligands(alloc, graph, &unit, a),
        second: end_ligands(alloc, graph, &unit, b),
    };
    let geometry = orient_ends(molecule, &site.ends());
    FurtherUnit { site, geometry }
}

// Most bonds between such atoms lie in small rings, which are found in a few steps. For others hindered neighbours, which
// take walks round alternating rings, are looked for before a large ring: that search may go through a whole side of the
// molecule.
#[tactic(auto, unfolding(crate::specs::Biaryls::is_biaryl))]
fn is_biaryl(
    alloc: Global,
    graph: &Graph,
    positions: &Positions,
    a: u32,
    edge: &Edge,
    reached: &mut VertexSet,
) -> Result<bool, AllocError>
    ensures { IfOk result (λ found. found ≡ is_biaryl graph.now positions.now a edge.now) }
{
    if can_be_biaryl(graph, positions, a, edge) {
        let b = edge.other_end(a);
        let Ok(small) = is_in_small_ring(graph, a, b, reached) else {
            return Err(AllocError);
        };
        if small || are_three_hindered(alloc, graph, a, b) {
            let Ok(lies_in_ring) = is_in_ring(graph, a, b, reached) else {
                return Err(AllocError);
            };
            Ok(!lies_in_ring && are_three_hindered(alloc, graph, a, b))
        } else {
            Ok(false)
        }
    } else {
        Ok(false)
    }
}

// Whether a bond is a unit by its ends.
fn can_be_biaryl(graph: &Graph, positions: &Positions, a: u32, edge: &Edge) -> bool
    ensures { result ≡ can_be_biaryl graph.now positions.now a edge.now }
{
    let b = edge.other_end(a);
    let unit = [a, b];
    edge.order == 1
        && a < b
        && b < graph.drawn()
        && is_biaryl_end(graph, positions, &unit, a)
        && is_biaryl_end(graph, positions, &unit, b)
}

fn is_biaryl_end(graph: &Graph, positions: &Positions, unit: &[u32], atom: u32) -> bool
    ensures { result ≡ is_biaryl_end graph.now positions.now unit.now atom }
{
    positions.of(atom).len() >= 2
        && graph.edges_at(atom).len() == 3
        && has_end_bonds(graph, unit, atom)
        && outer_ligand_count(graph, unit, atom) == 2
}

fn are_three_hindered(alloc: Global, graph: &Graph, a: u32, b: u32) -> bool
    requires a { length (edges_at graph.now a) ≤ 3 }
    requires b { length (edges_at graph.now b) ≤ 3 }
    ensures { result ≡ are_three_hindered graph.now a b }
{
    let unit = [a, b];
    hindered_count(alloc, graph, &unit, a) + hindered_count(alloc, graph, &unit, b) >= 3
}
