// The descriptors inside a whole digraph whose nodes are known.
ghost use Rattle.std.specs.Prelude.{◌≡◌, ◌≤◌, length, map, OnOk};
ghost use Rattle.cip_digraph.specs.units.Units.{sites_of};
ghost use Rattle.cip_aux.specs.DescriptorsInside.{descriptor_at_node};
ghost use Rattle.cip_aux.specs.Views.{sight_of};

use crate::ranker::AuxRanker;
use cip_aux::{AuxiliaryRequest, ParityCache, UnitIndex, WholeDigraph, auxiliaries};
use cip_digraph::{Descriptors, Nodes};
use cip_rank::zip_results;
use std::alloc::{AllocError, Global};

/// Puts the descriptor at each node of a whole digraph into memory that was reserved; none at the root, at duplicates
/// and where ligands tie.
pub fn descriptors_inside<N: Nodes>(
    alloc: Global,
    whole: &WholeDigraph<'_, N>,
    units: &UnitIndex<'_>,
    aux_ranker: &mut AuxRanker,
    descriptors: &mut Descriptors,
) -> Result<(), AllocError>
    requires sites { map (λ unit. unit.site) units.now ≡ sites_of whole.now.graph whole.now.positions }
    requires room { length whole.now.node_data ≤ aux_ranker.old.bound }
    requires bound { length whole.now.node_data ≤ descriptors.old.bound }
    ensures room { aux_ranker.new.bound ≡ aux_ranker.old.bound }
    ensures bound { descriptors.new.bound ≡ descriptors.old.bound }
    ensures descriptors { OnOk result (descriptors.new.descriptors
        ≡ map (descriptor_at_node (sight_of whole.now) units.now) (sight_of whole.now).nodes) }
{
    let count = whole.nodes().table().len();
    let Ok((flags, mut none)) = zip_results(
        vec![in alloc; true; count as usize],
        ParityCache::reserve(alloc, 0),
    ) else {
        return Err(AllocError);
    };
    let unresolved = AuxiliaryRequest {
        units,
        flags: flags.as_slice(),
    };
    aux_ranker.begin(0);
    let found = auxiliaries(
        alloc,
        whole,
        aux_ranker,
        &unresolved,
        &mut none,
        descriptors,
    );
    drop(none);
    drop(flags);
    found
}
