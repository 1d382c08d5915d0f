// Roots whose ligands two spheres distinguish.
ghost use Rattle.std.specs.Prelude.{◌≡◌, ◌≤◌, [], IfOk, Ok, true};
ghost use Rattle.cip_label.specs.Fitting.{IsFit};
ghost use Rattle.cip_label.specs.Settings.{IsProper};
ghost use Rattle.cip_ranker.specs.ToldEarly.{is_told_early, noted_early};

use crate::root::Root;
use crate::two_sphere::two_sphere_branches::{TwoSphereBuffer, collect_branches};
use crate::two_sphere::two_sphere_pairs::decide_each_pair;
use crate::two_sphere::two_sphere_size::fits_bound;
use cip_digraph::{BranchPair, all_decided};
use cip_label::LabelContext;
use cip_mol::Ligands;
use std::alloc::{AllocError, Global};
use std::marker::Model;

/// At most four ligands make n pairs.
const MOST_PAIRS: usize = 6;

/// A root with its ligands, and how many nodes may be looked at.
#[derive(Clone, Copy)]
pub struct RootQuery<'a, 's> {
    pub setting: &'a LabelContext<'s>,
    pub root: u32,
    pub ligands: &'a Ligands,
    pub bound: u32,
    ghost some: { 1 ≤ bound },
    ghost proper: { IsProper setting.now },
}

/// What two spheres decide between the ligands of a root, in memory used for one root after the other.
#[derive(Drop)]
pub struct TwoSphereRanker {
    shown: TwoSphereBuffer,
    noted: Vec<BranchPair>,
}

impl Model for TwoSphereRanker {
    ghost use Rattle.std.specs.Prelude.{List};
    ghost use Rattle.cip_digraph.specs.declared.decisions.branch_pair.BranchPair as requested;

    ghost Value = { List requested.BranchPair };

    ghost view = { λ early. early.noted.items };
}

impl TwoSphereRanker {
    /// Nothing is noted yet. There is room for four ligands.
    pub fn reserve(alloc: Global) -> Result<TwoSphereRanker, AllocError>
        ensures { IfOk result (λ early. early ≡ []) }
    {
        let Ok(noted) = Vec::with_capacity(alloc, MOST_PAIRS) else {
            return Err(AllocError);
        };
        let Ok(shown) = TwoSphereBuffer::reserve(alloc) else {
            return Err(AllocError);
        };
        Ok(TwoSphereRanker { shown, noted })
    }

    /// Whether two spheres of at most `bound` nodes distinguish each two ligands; then it's noted what is decided
    /// between each two.
    pub fn tell(&mut self, rooted: &RootQuery<'_, '_>) -> Result<bool, AllocError>
        requires fit { IsFit rooted.now.setting.now.graph rooted.now.root rooted.now.ligands.now }
        ensures node_data { IfOk result (λ node_data. node_data ≡ is_told_early rooted.now.setting.now rooted.now.root
            rooted.now.ligands.now rooted.now.bound) }
        ensures noted { result ≡ Ok true → self.new ≡ noted_early rooted.now.setting.now rooted.now.root
            rooted.now.ligands.now }
    {
        let root = Root {
            graph: rooted.setting.graph(),
            positions: rooted.setting.positions(),
            at: rooted.root,
        };
        if fits_bound(&root, rooted.bound) {
            let ligands = rooted.ligands.as_slice();
            let Ok(()) = collect_branches(&root, ligands, &mut self.shown) else {
                return Err(AllocError);
            };
            let Ok(()) = decide_each_pair(self.shown.row(), &mut self.noted) else {
                return Err(AllocError);
            };
            Ok(all_decided(&self.noted))
        } else {
            Ok(false)
        }
    }

    /// The vertices of each two ligands, with what is decided between them.
    pub fn noted(&self) -> &[BranchPair]
        ensures { result.now ≡ self.now }
    {
        &self.noted
    }
}
