// The positions of every vertex.
ghost use Rattle.std.specs.Prelude.{◌≡◌, ◌==◌, ◌<◌, ◌||◌, ◌++◌, ◌∷◌, [], cond, IfOk, OnOk, Some, true, length, slice_set};
ghost use Rattle.std.specs.List.{list_any};
ghost use Rattle.cip_digraph.specs.rings.Alternating.{closes_ring, is_in};
ghost use Rattle.cip_digraph.specs.graph.Graph.{neighbours};
ghost use Rattle.cip_digraph.specs.graph.SoundGraphs.{IsSound};
ghost use Rattle.cip_digraph.specs.rings.PositionLists.{IsPositionList};
ghost use Rattle.cip_digraph.specs.rings.Positions.{listed_positions, positions_at, positions_of};
ghost use Rattle.cip_mancude.specs.Partners.{alternating_partner, AreListedBelow};

use crate::alternating::Alternation;
use crate::search::closes_ring;
use cip_digraph::{Graph, Positions};
use cip_ring::VertexSet;
use smallvec::SmallVec;
use std::alloc::{AllocError, Global};

/// An alternating atom, and the other end of its double bond.
#[derive(Clone, Copy)]
struct Double {
    vertex: u32,
    partner: u32,
}

/// Where the double bonds of alternating atoms can be.
pub fn positions(alloc: Global, graph: &Graph) -> Result<Positions, AllocError>
    ensures { IfOk result (λ positions. positions ≡ positions_of graph.now) }
{
    // No atom alternates without counted bonds.
    if has_counted(graph) {
        set_all(alloc, graph)
    } else {
        Positions::none(alloc, graph.vertices().len())
    }
}

fn has_counted(graph: &Graph) -> bool
    ensures { result ≡ list_any (λ edge. edge.counted) graph.now.edges }
{
    for edge in graph.edges() {
        if edge.counted {
            return true;
        }
    }
    false
}

// Sets the positions of each vertex.
fn set_all(alloc: Global, graph: &Graph) -> Result<Positions, AllocError>
    ensures { IfOk result (λ positions. positions ≡ positions_of graph.now) }
{
    let count = graph.vertices().len() as u32;
    let Ok(alternation) = Alternation::new(alloc, graph) else {
        return Err(AllocError);
    };
    set_each(alloc, &alternation, count)
}

// The same, where the partners are known.
#[tactic(auto, unfolding(cip_digraph::specs::rings::Positions::positions_of))]
fn set_each(alloc: Global, alternation: &Alternation, count: u32) -> Result<Positions, AllocError>
    requires { count ≡ length alternation.now.vertices }
    ensures { IfOk result (λ positions. positions ≡ positions_of alternation.now) }
{
    let Ok(mut reached) = VertexSet::new(alloc, count as usize) else {
        return Err(AllocError);
    };
    let Ok(mut positions) = Positions::none(alloc, count as usize) else {
        return Err(AllocError);
    };
    for vertex in 0..count {
        let Ok(()) = set_positions(alloc, alternation, vertex, &mut reached, &mut positions) else {
            return Err(AllocError);
        };
    }
    Ok(positions)
}

// Sets the positions of a vertex that had none yet.
fn set_positions(
    alloc: Global,
    alternation: &Alternation,
    vertex: u32,
    reached: &mut VertexSet,
    positions: &mut Positions,
) -> Result<(), AllocError>
    requires within { vertex < length positions.old }
    requires none { listed_positions positions.old vertex ≡ [] }
    requires below { AreListedBelow alternation.now vertex positions.old }
    ensures { OnOk result (positions.new ≡ slice_set positions.old vertex (positions_at alternation.now vertex)) }
{
    match alternation.partner(vertex) {
        Some(partner) => set_list(
            alloc,
            alternation,
            Double { vertex, partner },
            reached,
            positions,
        ),
        None => Ok(()),
    }
}

// Most vertices don't alternate: what makes a list is a function apart, so that passing them over takes few steps.
#[inline(never)]
fn set_list(
    alloc: Global,
    alternation: &Alternation,
    double: Double,
    reached: &mut VertexSet,
    positions: &mut Positions,
) -> Result<(), AllocError>
    requires partner { alternating_partner alternation.now double.vertex ≡ Some double.partner }
    requires within { double.vertex < length positions.old }
    requires below { AreListedBelow alternation.now double.vertex positions.old }
    ensures { OnOk result
        (positions.new ≡ slice_set positions.old double.vertex (positions_at alternation.now double.vertex)) }
{
    let Ok(list) = positions_at(alloc, alternation, double, positions, reached) else {
        return Err(AllocError);
    };
    positions.set(double.vertex, list.as_slice());
    Ok(())
}

// Whether the double bond of an alternating atom can lead to a neighbour. Whether a ring goes through a bond was looked
// for from its lower end.
fn is_position(
    alloc: Global,
    alternation: &Alternation,
    double: Double,
    other: u32,
    before: &Positions,
    reached: &mut VertexSet,
) -> Result<bool, AllocError>
    requires sound { IsSound alternation.now }
    requires partner { alternating_partner alternation.now double.vertex ≡ Some double.partner }
    requires nearer { is_in other (neighbours alternation.now double.vertex) ≡ true }
    requires below { AreListedBelow alternation.now double.vertex before.now }
    ensures { IfOk result
        (λ found. found ≡ ((other == double.partner) || closes_ring alternation.now double.vertex other)) }
{
    if other == double.partner {
        Ok(true)
    } else if other < double.vertex {
        Ok(holds(before.of(other), double.vertex))
    } else {
        closes_ring(alloc, alternation, double.vertex, other, reached)
    }
}

fn holds(positions: &[u32], vertex: u32) -> bool
    ensures { result ≡ is_in vertex positions.now }
{
    positions.contains(&vertex)
}

fn push_if(positions: &mut SmallVec<u32, 3>, other: u32, found: bool) -> Result<(), AllocError>
    ensures { OnOk result (positions.new.items ≡ positions.old.items ++ cond found (other ∷ []) []) }
{
    if found {
        let Ok(()) = positions.push(other) else {
            return Err(AllocError);
        };
    }
    Ok(())
}

// The positions of an alternating atom, where those of all lower ones are known.
fn positions_at(
    alloc: Global,
    alternation: &Alternation,
    double: Double,
    before: &Positions,
    reached: &mut VertexSet,
) -> Result<SmallVec<u32, 3>, AllocError>
    requires partner { alternating_partner alternation.now double.vertex ≡ Some double.partner }
    requires below { AreListedBelow alternation.now double.vertex before.now }
    ensures value { IfOk result (λ list. list.items ≡ positions_at alternation.now double.vertex) }
    ensures list { IfOk result (λ list. IsPositionList list.items) }
{
    let mut positions: SmallVec<u32, 3> = SmallVec::new(alloc);
    for edge in alternation.edges_at(double.vertex) {
        let other = edge.other_end(double.vertex);
        let Ok(found) = is_position(alloc, alternation, double, other, before, reached) else {
            return Err(AllocError);
        };
        let Ok(()) = push_if(&mut positions, other, found) else {
            return Err(AllocError);
        };
    }
    Ok(positions)
}
