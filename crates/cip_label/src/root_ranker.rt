// What is found of the digraph of a root.
ghost use Rattle.std.specs.Prelude.{◌≡◌, ◌<◌, ◌≤◌, ◌^◌, ◌∷◌, [], ℕ, Bool, IfOk, Option};
ghost use Rattle.cip_digraph.specs.declared.decisions.decision.Decision as decisions;
ghost use Rattle.cip_digraph.specs.units.Ends.{end_at};
ghost use Rattle.cip_label.specs.Fitting.{IsFit};
ghost use Rattle.cip_label.specs.BranchComparison.{RankedAs};
ghost use Rattle.cip_label.specs.Steps.{Rises};

use crate::context::LabelContext;
use cip_digraph::Decision;
use cip_mol::Ligands;
use cip_rank::Steps;
use std::alloc::{AllocError, Global};
use std::sync::ledger::Ledger;

/// How far the ligands of a root are ranked.
#[derive(Clone, Copy)]
pub enum Ranking {
    /// It is known how each two branches compare.
    Known,
    /// Two ligands tie by all rules.
    Tied,
    /// The digraph is larger than the bound.
    Over,
}

/// Reserved memory for a digraph and its ranking, used for one root after the other.
pub trait RootRanker {
    /// How many nodes there is room for.
    ghost bound: { Self → ℕ };

    /// How the branches at two neighbours of the root ranked last stand, by their vertices; the first argument says
    /// whether R is above S by the last rule.
    ghost standing: { Self → Bool → ℕ → ℕ → Option decisions.Decision };

    /// Takes memory for at most n nodes of each digraph, which are below 2^31: both readings of a node have a
    /// number each.
    fn reserve(alloc: Global, nodes: u32) -> Result<Self, AllocError>
        requires few { nodes < 2 ^ 31 }
        ensures room { IfOk result (λ digraphs. bound digraphs ≡ nodes) };

    /// Grows the digraph of a root as far as its ligands need, and ranks them.
    fn rank<L: Ledger>(
        &mut self,
        alloc: Global,
        setting: &LabelContext<'_>,
        root: u32,
        ligands: &Ligands,
        steps: &mut Steps<L>,
    ) -> Result<Ranking, AllocError>
        requires fit { IsFit setting.now.graph root ligands.now }
        requires some { 1 ≤ bound self.old }
        ensures kept { bound self.new ≡ bound self.old }
        ensures ranking { IfOk result (RankedAs setting.now (bound self.old) root ligands.now (standing self.new)) }
        ensures cost { Rises setting.now (bound self.old) (end_at root ligands.now ∷ []) steps.old steps.new };

    /// How the branches at two neighbours of the root compare.
    fn compare_branches(&self, a: u32, b: u32, r_first: bool) -> Option<Decision>
        ensures { result ≡ standing self.now r_first a b };

    /// Whether what was found of the root ranked last is kept, so that it costs little to ask again. A hint: nothing
    /// rests on it.
    fn is_cached(&self) -> bool;
}
