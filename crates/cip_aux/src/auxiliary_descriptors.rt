// The descriptors inside a whole digraph, from the last node to the first.
ghost use Rattle.std.specs.Prelude.{◌≡◌, ◌<◌, ◌≤◌, ◌+◌, length, cond, replicate, None, IfOk, OnOk};
ghost use Rattle.cip_digraph.specs.digraph.NodeList.{told_at, parents_of};
ghost use Rattle.cip_digraph.specs.digraph.Telling.{node_at};
ghost use Rattle.cip_digraph.specs.units.Units.{sites_of};
ghost use Rattle.cip_aux.specs.ParityCache.{AreKept, sites_in};
ghost use Rattle.cip_aux.specs.DescriptorsInside.{UnitsJoin, descriptor_at_node, flag_at, HaveDescriptors, AreWanted};
ghost use Rattle.cip_aux.specs.Neighbours.{atom_told};
ghost use Rattle.cip_aux.specs.Views.{Shows, sight_of};

use crate::context::InnerContext;
use crate::ligand_ranker::LigandRanker;
use crate::node_descriptor::node_descriptor;
use crate::parities::parity_cache::ParityCache;
use crate::units::unit_index::UnitIndex;
use crate::whole_digraph::WholeDigraph;
use cip_digraph::{Descriptors, NodeKind, Nodes};
use cip_mol::Descriptor;
use std::alloc::{AllocError, Global};

// The vertex of a real node.
fn atom_at<N: Nodes>(nodes: &N, node: u32) -> Option<u32>
    requires { node < length (N.nodes nodes.now) }
    ensures { result ≡ atom_told (told_at (N.nodes nodes.now) node) }
{
    match nodes.kind(node) {
        NodeKind::Real => nodes.vertex(node),
        NodeKind::Closure | NodeKind::Multiple | NodeKind::Delocalised => None,
    }
}

/// The units of a record, and at which nodes their descriptors are requested.
#[derive(Clone, Copy)]
pub struct AuxiliaryRequest<'a> {
    pub units: &'a UnitIndex<'a>,
    pub flags: &'a [bool],
}

impl<'a> AuxiliaryRequest<'a> {
    // Whether a descriptor is requested at the node.
    fn is_at(&self, node: u32) -> bool
        ensures { result ≡ flag_at self.now.flags.now node }
    {
        match self.flags.get(node as usize) {
            Some(flag) => *flag,
            None => false,
        }
    }
}

// A node, and the descriptors of those after it.
#[derive(Clone, Copy)]
struct Behind<'a> {
    node: u32,
    descriptors: &'a Descriptors,
}

// The descriptor at a node, if it is requested, by those of all nodes after it.
fn flagged_descriptor<N: Nodes, V: LigandRanker>(
    alloc: Global,
    whole: &WholeDigraph<'_, N>,
    viewer: &mut V,
    requested: &AuxiliaryRequest<'_>,
    behind: &Behind<'_>,
    kept: &mut ParityCache,
) -> Result<Option<Descriptor>, AllocError>
    requires shows { Shows (sight_of whole.now) }
    requires within { behind.now.node < length (sight_of whole.now).nodes }
    requires joined { UnitsJoin (sight_of whole.now) requested.now.units.now }
    requires requested { AreWanted (parents_of whole.now.node_data) requested.now.flags.now }
    requires behind { HaveDescriptors (sight_of whole.now) requested.now.units.now requested.now.flags.now (behind.now.node + 1)
        behind.now.descriptors.now.descriptors }
    requires stands { V.stands viewer.old (sight_of whole.now) }
    requires kept { AreKept (sight_of whole.now) (sites_in requested.now.units.now) kept.old.items }
    ensures room { V.room viewer.new ≡ V.room viewer.old }
    ensures stands { V.stands viewer.new (sight_of whole.now) }
    ensures kept { AreKept (sight_of whole.now) (sites_in requested.now.units.now) kept.new.items }
    ensures kept_room { kept.new.room ≡ kept.old.room }
    ensures descriptor { IfOk result (λ descriptor. descriptor ≡ cond (flag_at requested.now.flags.now behind.now.node)
        (descriptor_at_node (sight_of whole.now) requested.now.units.now (node_at (sight_of whole.now).nodes behind.now.node))
        None) }
{
    let node = behind.node;
    if requested.is_at(node) {
        let Some(vertex) = atom_at(whole.nodes(), node) else {
            return Ok(None);
        };
        if node == 0 {
            Ok(None)
        } else {
            let inner = InnerContext::new(whole, node, behind.descriptors);
            node_descriptor(alloc, &inner, viewer, vertex, requested.units, kept)
        }
    } else {
        Ok(None)
    }
}

// No descriptor at each of n nodes.
fn clear(descriptors: &mut Descriptors, count: u32)
    requires { count ≤ descriptors.old.bound }
    ensures { descriptors.new ≡ record descriptors.old { descriptors = replicate count None } }
{
    descriptors.clear();
    for _ in 0..count {
        descriptors.push(None);
    }
}

/// The descriptor at each node of a whole digraph that is requested; none at the root, at duplicates and where ligands
/// tie. Units whose turns are kept aren't looked at, and what constitution says of others is kept.
pub fn auxiliaries<N: Nodes, V: LigandRanker>(
    alloc: Global,
    whole: &WholeDigraph<'_, N>,
    viewer: &mut V,
    requested: &AuxiliaryRequest<'_>,
    kept: &mut ParityCache,
    descriptors: &mut Descriptors,
) -> Result<(), AllocError>
    requires sites { sites_in requested.now.units.now ≡ sites_of whole.now.graph whole.now.positions }
    requires requested { AreWanted (parents_of whole.now.node_data) requested.now.flags.now }
    requires stands { V.stands viewer.old (sight_of whole.now) }
    requires bound { length whole.now.node_data ≤ descriptors.old.bound }
    requires kept { AreKept (sight_of whole.now) (sites_in requested.now.units.now) kept.old.items }
    ensures room { V.room viewer.new ≡ V.room viewer.old }
    ensures stands { V.stands viewer.new (sight_of whole.now) }
    ensures bound { descriptors.new.bound ≡ descriptors.old.bound }
    ensures kept { AreKept (sight_of whole.now) (sites_in requested.now.units.now) kept.new.items }
    ensures kept_room { kept.new.room ≡ kept.old.room }
    ensures descriptors { OnOk result (HaveDescriptors (sight_of whole.now) requested.now.units.now requested.now.flags.now 0
        descriptors.new.descriptors) }
{
    let count = whole.nodes().table().len();
    clear(descriptors, count);
    for done in 0..count {
        let node = count - 1 - done;
        let behind = Behind {
            node,
            descriptors: &*descriptors,
        };
        let Ok(descriptor) = flagged_descriptor(alloc, whole, viewer, requested, &behind, kept)
        else {
            return Err(AllocError);
        };
        descriptors.set(node, descriptor);
    }
    Ok(())
}
