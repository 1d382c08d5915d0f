// A digraph as it is seen from one of its nodes.
ghost use Rattle.std.specs.Prelude.{◌≡◌, ℕ, All, Contains, IfOk, IfSome};
ghost use Rattle.cip_digraph.specs.digraph.NodeList.{parents_of};
ghost use Rattle.cip_aux.specs.InnerContext.{Ready};
ghost use Rattle.cip_aux.specs.DescriptorsInside.{AreSeenTurns};
ghost use Rattle.cip_aux.specs.Neighbours.{neighbours_of};
ghost use Rattle.cip_aux.specs.Views.{DigraphView};

use crate::context::InnerContext;
use cip_digraph::{Nodes, Parity};
use std::alloc::{AllocError, Global};

/// How ligands turn a sense, not at all where two of them tie, and whether constitution alone decided it: then it holds
/// whichever descriptors there are.
#[derive(Clone, Copy)]
pub struct FoundParity {
    pub parities: Option<Parity>,
    pub by_constitution: bool,
}

/// What looks at whole digraphs from their nodes, and says how ligands turn a sense.
pub trait LigandRanker {
    /// For how many nodes there is room.
    ghost room: { Self → ℕ };

    /// There is room for a digraph, and cached rankings are of this one.
    ghost stands: { Self → DigraphView → Type 0 };

    /// How ligands of a real node turn a sense, with the descriptors that count at another one. A lone pair is below
    /// every node.
    fn ligand_parity<N: Nodes>(
        &mut self,
        alloc: Global,
        inner: &InnerContext<'_, N>,
        node: u32,
        ligands: &[Option<u32>],
    ) -> Result<FoundParity, AllocError>
        requires stands { stands self.old inner.now.sight }
        requires ready { Ready inner.now node }
        requires ligands { All (λ ligand. IfSome ligand (Contains (neighbours_of (parents_of inner.now.sight.node_data) node)))
            ligands.now }
        ensures room { room self.new ≡ room self.old }
        ensures stands { stands self.new inner.now.sight }
        ensures parities { IfOk result (AreSeenTurns inner.now node ligands.now) };
}
