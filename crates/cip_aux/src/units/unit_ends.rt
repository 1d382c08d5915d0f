// The turns of a unit's ends, seen from a node.
ghost use Rattle.std.specs.Prelude.{◌≡◌, ◌<◌, ◌&&◌, [], ◌∷◌, None, true, length, option_to_list, IfOk};
ghost use Rattle.cip_digraph.specs.digraph.NodeList.{parents_of};
ghost use Rattle.cip_digraph.specs.digraph.Telling.{node_at};
ghost use Rattle.cip_digraph.specs.rules.Auxiliary.{nearer_first};
ghost use Rattle.cip_mol.specs.Ends.{between_in};
ghost use Rattle.cip_digraph.specs.LentEnds.{as_end, ends_in};
ghost use Rattle.cip_digraph.specs.TurnsOf.{both_turns};
ghost use Rattle.cip_aux.specs.InnerContext.{Ready};
ghost use Rattle.cip_aux.specs.Joining.{AreJoined, Joins, far_number};
ghost use Rattle.cip_aux.specs.DescriptorsInside.{AreRootTurns, AreEndTurns};
ghost use Rattle.cip_aux.specs.Neighbours.{shape_at};

use crate::context::InnerContext;
use crate::ligand_nodes::{ligands_at, real_child};
use crate::ligand_ranker::{FoundParity, LigandRanker};
use cip_digraph::{Nodes, combine};
use cip_mol::{Ends, Ligands, TwoEnds};
use std::alloc::{AllocError, Global};

// None, as the digraph is.
fn no_turns() -> FoundParity
    ensures { result ≡ record { parities = None; by_constitution = true } }
{
    FoundParity {
        parities: None,
        by_constitution: true,
    }
}

// The parities of both ends of a unit together; unknown if either is.
fn both_found(one: FoundParity, other: FoundParity) -> FoundParity
    ensures { result ≡ record {
      parities = both_turns one.parities other.parities;
      by_constitution = one.by_constitution && other.by_constitution;
    } }
{
    let parities = match (one.parities, other.parities) {
        (Some(one), Some(other)) => Some(combine(one, other)),
        _ => None,
    };
    FoundParity {
        parities,
        by_constitution: one.by_constitution && other.by_constitution,
    }
}

// The turns of a root's ligands, seen from its node.
fn turns_at<N: Nodes, V: LigandRanker>(
    alloc: Global,
    inner: &InnerContext<'_, N>,
    viewer: &mut V,
    node: u32,
    ligands: &Ligands,
) -> Result<FoundParity, AllocError>
    requires ready { Ready inner.now node }
    requires stands { V.stands viewer.old inner.now.sight }
    ensures room { V.room viewer.new ≡ V.room viewer.old }
    ensures stands { V.stands viewer.new inner.now.sight }
    ensures parities { IfOk result (λ found.
        AreRootTurns inner.now node found.by_constitution ligands.now found.parities) }
{
    let numbers = ligands_at(inner.whole().nodes(), node, ligands);
    viewer.ligand_parity(alloc, inner, node, numbers.as_slice())
}

// The node of a unit's other end, where the rest of the unit follows below a node.
fn far_end<N: Nodes>(nodes: &N, node: u32, between: Option<u32>, far: u32) -> Option<u32>
    requires { node < length (N.nodes nodes.now) }
    ensures { result ≡ far_number (shape_at (N.nodes nodes.now)) (parents_of (N.nodes nodes.now)) node between far }
{
    match between {
        None => real_child(nodes, node, far),
        Some(middle) => match real_child(nodes, node, middle) {
            Some(next) => real_child(nodes, next, far),
            None => None,
        },
    }
}

// The turns of both ends, the first of which is at the node whose descriptors count.
fn ends_turns<N: Nodes, V: LigandRanker>(
    alloc: Global,
    inner: &InnerContext<'_, N>,
    viewer: &mut V,
    ends: &TwoEnds<'_>,
) -> Result<FoundParity, AllocError>
    requires ready { Ready inner.now inner.now.from }
    requires joins { Joins inner.now.sight.graph (node_at inner.now.sight.nodes inner.now.from).vertex
        ends.now.between ends.now.far.at }
    requires stands { V.stands viewer.old inner.now.sight }
    ensures room { V.room viewer.new ≡ V.room viewer.old }
    ensures stands { V.stands viewer.new inner.now.sight }
    ensures parities { IfOk result (λ found. AreEndTurns inner.now inner.now.from found.by_constitution
        (option_to_list ends.now.between) (as_end ends.now.nearer ∷ as_end ends.now.far ∷ []) found.parities) }
{
    let node = inner.from();
    let Some(other) = far_end(inner.whole().nodes(), node, ends.between, ends.far.at) else {
        return Ok(no_turns());
    };
    let Ok(one) = turns_at(alloc, inner, viewer, node, ends.nearer.ligands) else {
        return Err(AllocError);
    };
    if one.parities.is_none() {
        Ok(one)
    } else {
        let Ok(two) = turns_at(alloc, inner, viewer, other, ends.far.ligands) else {
            return Err(AllocError);
        };
        Ok(both_found(one, two))
    }
}

/// The turns of a unit at the nearer of its ends, seen from the node, whose vertex this is.
pub fn unit_parity<N: Nodes, V: LigandRanker>(
    alloc: Global,
    inner: &InnerContext<'_, N>,
    viewer: &mut V,
    vertex: u32,
    ends: &Ends<'_>,
) -> Result<FoundParity, AllocError>
    requires ready { Ready inner.now inner.now.from }
    requires vertex { vertex ≡ (node_at inner.now.sight.nodes inner.now.from).vertex }
    requires joined { AreJoined inner.now.sight.graph ends.now }
    requires stands { V.stands viewer.old inner.now.sight }
    ensures room { V.room viewer.new ≡ V.room viewer.old }
    ensures stands { V.stands viewer.new inner.now.sight }
    ensures parities { IfOk result (λ found. AreEndTurns inner.now inner.now.from found.by_constitution
        (between_in ends.now) (nearer_first vertex (ends_in ends.now)) found.parities) }
{
    match ends {
        Ends::One(end) => {
            if end.at == vertex {
                turns_at(alloc, inner, viewer, inner.from(), end.ligands)
            } else {
                Ok(no_turns())
            }
        }
        // the end that is this vertex is the nearer one
        Ends::Two(_, ends) => {
            if ends.nearer.at == vertex {
                ends_turns(alloc, inner, viewer, ends)
            } else if ends.far.at == vertex {
                ends_turns(alloc, inner, viewer, &ends.reversed())
            } else {
                Ok(no_turns())
            }
        }
    }
}
