// Roots whose ligands two spheres distinguish: no digraph is grown.
ghost use Rattle.std.specs.Prelude.{◌≡◌, true, IfOk, Ok};
ghost use Rattle.cip_ranker.specs.ToldEarly.{is_told_early};
ghost use Rattle.cip_label.specs.Fitting.{IsFit};
ghost use Rattle.cip_label.specs.BranchComparison.{RankedAs};
ghost use Rattle.cip_label.specs.declared.root_ranker.Ranking.TheVariants.{Known};
ghost use Rattle.cip_ranker.specs.Standing.{standing_of};

use crate::decisions::RootDecisions;
use crate::two_sphere::two_spheres::{RootQuery, TwoSphereRanker};
use std::alloc::AllocError;

/// Ranks the ligands of a root where two spheres distinguish them, and answers whether they do.
pub fn rank_by_two_spheres(
    rooted: &RootQuery<'_, '_>,
    early: &mut TwoSphereRanker,
    branches: &mut RootDecisions,
) -> Result<bool, AllocError>
    requires fit { IsFit rooted.now.setting.now.graph rooted.now.root rooted.now.ligands.now }
    ensures node_data { IfOk result (λ node_data. node_data ≡ is_told_early rooted.now.setting.now rooted.now.root
        rooted.now.ligands.now rooted.now.bound) }
    ensures ranked { result ≡ Ok true → RankedAs rooted.now.setting.now rooted.now.bound rooted.now.root
        rooted.now.ligands.now (standing_of branches.new) Known }
{
    let node_data = early.tell(rooted);
    if let Ok(true) = node_data {
        let Ok(()) = branches.set_decisions(early.noted()) else {
            return Err(AllocError);
        };
    }
    node_data
}
