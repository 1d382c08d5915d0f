// Cumulenes: chains of at least three double bonds.
ghost use Rattle.std.specs.Prelude.{◌≡◌, ◌<◌, ◌++◌, ◌≤◌, ◌^◌, All, IfOk, OnOk, length};
ghost use Rattle.cip_mol.specs.Sites.{IsSite};
ghost use Rattle.cip_digraph.specs.graph.Graph.{edges_at};
ghost use Rattle.cip_ring.specs.AnyRings.{is_in_ring};
ghost use Rattle.cip_axis.specs.Cumulenes.{any_bond, chain_over, first_atom, is_cumulene, last_atom};
ghost use Rattle.cip_axis.specs.Further.{cumulene_geometry, cumulene_site, cumulene_unit, cumulenes_of, has_crossed};
ghost use Rattle.cip_axis.specs.Likeness.{like};
ghost use Rattle.cip_axis.specs.Listing.{IsGraphOf, can_be_cumulene, first_in_ring, one_cumulene};

use crate::axis_context::AxisContext;
use crate::chains::{chain_over, continues_chain};
use crate::site::{FurtherSite, FurtherUnit};
use crate::units::FurtherUnits;
use cip_digraph::Graph;
use cip_mol::{Cause, Geometry, Molecule};
use cip_orient::{is_crossed, orient_ends};
use cip_ring::{VertexSet, is_in_ring};
use cip_unit::{end_ligands, is_axis_end};
use std::alloc::{AllocError, Global};

/// Adds the cumulenes of a first end, along each of its double bonds. The set serves the search for rings.
pub fn push_cumulenes(
    alloc: Global,
    source: &AxisContext<'_>,
    a: u32,
    reached: &mut VertexSet,
    units: &mut FurtherUnits,
) -> Result<(), AllocError>
    requires source { IsGraphOf source.now.molecule.now source.now.graph.now }
    requires within { a < source.now.graph.now.drawn }
    ensures { OnOk result (units.new ≡ units.old ++ cumulenes_of source.now.molecule.now source.now.graph.now a) }
{
    let edges = source.graph.edges_at(a);
    if edges.len() == 3 {
        for edge in edges {
            if edge.order == 2 {
                let Ok(()) = push_over(alloc, source, a, edge.other_end(a), reached, units) else {
                    return Err(AllocError);
                };
            }
        }
        Ok(())
    } else {
        Ok(())
    }
}

// Adds the unit of the chain over a neighbour, where it is one.
fn push_over(
    alloc: Global,
    source: &AxisContext<'_>,
    a: u32,
    next: u32,
    reached: &mut VertexSet,
    units: &mut FurtherUnits,
) -> Result<(), AllocError>
    requires source { IsGraphOf source.now.molecule.now source.now.graph.now }
    requires within { a < source.now.graph.now.drawn }
    requires next { next < source.now.graph.now.drawn }
    ensures { OnOk result
        (units.new ≡ units.old
        ++ one_cumulene source.now.molecule.now source.now.graph.now (chain_over source.now.graph.now a next)) }
{
    // Most double bonds lead no further: for these no chain is made.
    if continues_chain(source.graph, a, next) {
        // Reading the vertices says that there are few.
        let _count = source.graph.vertices().len();
        let Ok(chain) = chain_over(alloc, source.graph, a, next) else {
            return Err(AllocError);
        };
        let Ok(is_unit) = is_cumulene(source.graph, &chain, reached) else {
            return Err(AllocError);
        };
        if is_unit {
            let unit = cumulene_unit(alloc, source.molecule, source.graph, &chain);
            units.push(unit)
        } else {
            Ok(())
        }
    } else {
        Ok(())
    }
}

fn is_cumulene(graph: &Graph, chain: &[u32], reached: &mut VertexSet) -> Result<bool, AllocError>
    requires rings { any_bond (is_in_ring graph.now) chain.now ≡ first_in_ring graph.now chain.now }
    ensures { IfOk result (λ found. found ≡ is_cumulene graph.now chain.now) }
{
    if can_be_cumulene(graph, chain) {
        // One bond is asked: a ring through the first goes through all.
        match is_in_ring(graph, chain[0], chain[1], reached) {
            Ok(lies_in_ring) => Ok(!lies_in_ring),
            Err(error) => Err(error),
        }
    } else {
        Ok(false)
    }
}

// Whether a chain is a unit if it lies in no ring.
fn can_be_cumulene(graph: &Graph, chain: &[u32]) -> bool
    ensures { result ≡ can_be_cumulene graph.now chain.now }
{
    if chain.len() < 4 {
        false
    } else {
        let a = chain[0];
        let b = chain[chain.len() - 1];
        a < b && is_axis_end(graph, chain, a) && is_axis_end(graph, chain, b)
    }
}

fn cumulene_unit(alloc: Global, molecule: &Molecule, graph: &Graph, chain: &[u32]) -> FurtherUnit
    requires some { 1 ≤ length chain.now }
    requires shown { IsSite (length molecule.now.atoms) (like (cumulene_site graph.now chain.now)) }
    requires within { All (λ atom. atom < length molecule.now.atoms) chain.now }
    requires first { length (edges_at graph.now (first_atom chain.now)) ≤ 3 }
    requires last { length (edges_at graph.now (last_atom chain.now)) ≤ 3 }
    requires few { length chain.now ≤ 2 ^ 32 }
    ensures { result ≡ cumulene_unit molecule.now graph.now chain.now }
{
    let a = chain[0];
    let b = chain[chain.len() - 1];
    let site = FurtherSite::Cumulene {
        a,
        b,
        bonds: (chain.len() - 1) as u32,
        first: end_ligands(alloc, graph, chain, a),
        second: end_ligands(alloc, graph, chain, b),
    };
    let geometry = cumulene_geometry(molecule, chain, &site);
    FurtherUnit { site, geometry }
}

fn cumulene_geometry(molecule: &Molecule, chain: &[u32], site: &FurtherSite) -> Geometry
    requires shown { IsSite (length molecule.now.atoms) (like site.now) }
    requires within { All (λ atom. atom < length molecule.now.atoms) chain.now }
    ensures { result ≡ cumulene_geometry molecule.now chain.now site.now }
{
    if has_crossed(molecule, chain) {
        Geometry::Unknown(Cause::Either)
    } else {
        orient_ends(molecule, &site.ends())
    }
}

// Whether a double bond of a chain is itself marked as undecided.
fn has_crossed(molecule: &Molecule, chain: &[u32]) -> bool
    requires { All (λ atom. atom < length molecule.now.atoms) chain.now }
    ensures { result ≡ has_crossed molecule.now.bonds chain.now }
{
    let Some((first, rest)) = chain.split_first() else {
        return false;
    };
    let mut before = *first;
    for atom in rest {
        if is_crossed(molecule, before, *atom) {
            return true;
        }
        before = *atom;
    }
    false
}
