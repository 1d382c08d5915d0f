// Roots that two spheres don't decide: their digraphs are grown, and what costs much is kept.
ghost use Rattle.std.specs.Prelude.{◌<◌, ◌^◌, ◌∷◌, [], IfOk, None};
ghost use Rattle.cip_digraph.specs.units.Ends.{end_at};
ghost use Rattle.cip_label.specs.Fitting.{IsFit};
ghost use Rattle.cip_label.specs.BranchComparison.{RankedAs};
ghost use Rattle.cip_label.specs.Steps.{Rises};
ghost use Rattle.cip_ranker.specs.Keeping.{IsReady};
ghost use Rattle.cip_ranker.specs.Standing.{standing_of};

use crate::caches::cache::{CachedResult, RootCache};
use crate::caches::cached::rank_cached;
use crate::caches::uncached::rank_uncached;
use crate::decisions::RootDecisions;
use crate::two_sphere::two_spheres::RootQuery;
use crate::whole_digraph::{RankTables, is_worth_caching};
use cip_arena::Arena;
use cip_constitution::Work;
use cip_label::Ranking;
use cip_rank::{Steps, zip_ok, zip_results};
use std::alloc::{AllocError, Global};
use std::sync::ledger::Ledger;

/// A digraph, its branches and tables, in memory that was reserved, and what is kept of the root ranked last.
#[derive(Drop)]
pub struct Workspace {
    pub arena: Arena,
    pub work: Work,
    pub tables: RankTables,
    pub root_cache: RootCache,
}

impl Workspace {
    /// Room for digraphs of n nodes.
    pub fn reserve(alloc: Global, nodes: u32) -> Result<Workspace, AllocError>
        requires { nodes < 2 ^ 31 }
        ensures { IfOk result (IsReady nodes) }
    {
        let Ok(growing) = zip_results(Arena::reserve(alloc, nodes), Work::reserve(alloc, nodes))
        else {
            return Err(AllocError);
        };
        let Ok(((arena, work), tables)) = zip_ok(growing, RankTables::reserve(alloc, nodes)) else {
            return Err(AllocError);
        };
        Ok(Workspace {
            arena,
            work,
            tables,
            root_cache: RootCache {
                root: None,
                found: None,
            },
        })
    }
}

/// Ranks the ligands of a root that two spheres don't distinguish. One that isn't kept is grown and ranked, in the
/// place of what was kept, if it costs much to find it once more.
pub fn rank_by_digraph<L: Ledger>(
    alloc: Global,
    query: &RootQuery<'_, '_>,
    workspace: &mut Workspace,
    branches: &mut RootDecisions,
    steps: &mut Steps<L>,
) -> Result<Ranking, AllocError>
    requires fit { IsFit query.now.setting.now.graph query.now.root query.now.ligands.now }
    requires ready { IsReady query.now.bound workspace.old }
    ensures ready { IsReady query.now.bound workspace.new }
    ensures ranking { IfOk result (RankedAs query.now.setting.now query.now.bound query.now.root query.now.ligands.now
        (standing_of branches.new)) }
    ensures cost { Rises query.now.setting.now query.now.bound (end_at query.now.root query.now.ligands.now ∷ [])
        steps.old steps.new }
{
    match workspace.root_cache.get(query) {
        Some(found) => rank_cached(alloc, query, found, workspace, branches),
        None => {
            workspace.root_cache.found = None;
            let Ok(found) = rank_uncached(alloc, query, workspace, branches, steps) else {
                return Err(AllocError);
            };
            if is_worth_caching(&workspace.arena, query.setting, found) {
                let Ok(()) = workspace.root_cache.keep(alloc, query, found) else {
                    return Err(AllocError);
                };
            }
            Ok(found.ranking())
        }
    }
}
