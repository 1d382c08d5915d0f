// A root that is kept, ranked once more.
ghost use Rattle.std.specs.Prelude.{◌≡◌, Some, IfOk};
ghost use Rattle.cip_label.specs.Fitting.{IsFit};
ghost use Rattle.cip_label.specs.BranchComparison.{RankedAs};
ghost use Rattle.cip_label.specs.declared.root_ranker.Ranking.TheVariants.{Known};
ghost use Rattle.cip_ranker.specs.Keeping.{IsReady, kept_of};
ghost use Rattle.cip_ranker.specs.Standing.{standing_of};

use crate::caches::cache::CachedResult;
use crate::decisions::RootDecisions;
use crate::grown_root::GrownRoot;
use crate::two_sphere::two_spheres::RootQuery;
use crate::whole_digraph::rank_by_all_rules;
use crate::workspace::Workspace;
use cip_label::Ranking;
use std::alloc::{AllocError, Global};

/// Ranks the ligands of the root that is kept, whatever the senses of units are now.
pub fn rank_cached(
    alloc: Global,
    query: &RootQuery<'_, '_>,
    found: CachedResult,
    workspace: &mut Workspace,
    branches: &mut RootDecisions,
) -> Result<Ranking, AllocError>
    requires fit { IsFit query.now.setting.now.graph query.now.root query.now.ligands.now }
    requires ready { IsReady query.now.bound workspace.old }
    requires found { workspace.old.root_cache.found ≡ Some found }
    requires root { workspace.old.root_cache.root ≡ Some (kept_of query.now.setting.now query.now.root query.now.ligands.now) }
    ensures ready { IsReady query.now.bound workspace.new }
    ensures ranking { IfOk result (RankedAs query.now.setting.now query.now.bound query.now.root query.now.ligands.now
        (standing_of branches.new)) }
{
    match found {
        CachedResult::Final(ranking) => {
            let Ok(()) = branches.set_decisions(workspace.tables.aside.noted.as_slice()) else {
                return Err(AllocError);
            };
            Ok(ranking)
        }
        CachedResult::Open => {
            workspace.root_cache.found = None;
            // the last rules are taken over its branches, which are again as constitution left them
            let aside = &workspace.tables.aside;
            workspace.work.restore(&aside.ranks, aside.noted.as_slice());
            let rooted = GrownRoot {
                arena: &workspace.arena,
                setting: query.setting,
                root: query.root,
                ligands: query.ligands,
            };
            let Ok(()) = rank_by_all_rules(
                alloc,
                &rooted,
                &mut workspace.work,
                &mut workspace.tables,
                branches,
            ) else {
                return Err(AllocError);
            };
            workspace.root_cache.found = Some(found);
            Ok(Ranking::Known)
        }
    }
}
