// Roots whose digraph is grown anew.
ghost use Rattle.std.specs.Prelude.{◌≡◌, ◌≤◌, ◌∷◌, [], IfOk};
ghost use Rattle.cip_constitution.specs.FollowedOut.{AreFollowedOut};
ghost use Rattle.cip_constitution.specs.Noting.{Notes};
ghost use Rattle.cip_constitution.specs.Pairs.{pairs_of};
ghost use Rattle.cip_constitution.specs.Settling.{SettledAs};
ghost use Rattle.cip_digraph.specs.units.Ends.{end_at};
ghost use Rattle.cip_label.specs.Fitting.{IsFit};
ghost use Rattle.cip_label.specs.BranchComparison.{RankedAs};
ghost use Rattle.cip_label.specs.declared.root_ranker.Ranking.TheVariants.{Known};
ghost use Rattle.cip_label.specs.Steps.{Rises};
ghost use Rattle.cip_ranker.specs.Desks.{settled_by};
ghost use Rattle.cip_ranker.specs.Keeping.{FoundAs, HaveRoom, kept_of, ranking_in};
ghost use Rattle.cip_ranker.specs.Rooting.{IsRooted};
ghost use Rattle.cip_ranker.specs.Standing.{standing_of};

use crate::caches::cache::CachedResult;
use crate::decisions::{RootDecisions, store_decisions};
use crate::grown_root::GrownRoot;
use crate::two_sphere::two_spheres::RootQuery;
use crate::whole_digraph::rank_whole_digraph;
use crate::workspace::Workspace;
use cip_arena::Arena;
use cip_constitution::{Settled, Work, settle};
use cip_label::Ranking;
use cip_rank::Steps;
use std::alloc::{AllocError, Global};
use std::sync::ledger::Ledger;

// Grows the digraph of a root until its ligands are settled.
fn settle_root<L: Ledger>(
    arena: &mut Arena,
    work: &mut Work,
    query: &RootQuery<'_, '_>,
    steps: &mut Steps<L>,
) -> Settled
    requires fit { IsFit query.now.setting.now.graph query.now.root query.now.ligands.now }
    requires some { 1 ≤ arena.old.bound }
    requires room { arena.old.bound ≤ work.old.bound }
    ensures settled { SettledAs (settled_by query.now.setting.now query.now.ligands.now) arena.new result }
    ensures rooted { IsRooted query.now.setting.now query.now.root query.now.ligands.now arena.new }
    ensures bound { arena.new.bound ≡ arena.old.bound }
    ensures cost { Rises query.now.setting.now arena.old.bound (end_at query.now.root query.now.ligands.now ∷ [])
        steps.old steps.new }
    ensures work { work.new.bound ≡ work.old.bound }
    ensures pairs { work.new.pairs ≡ pairs_of query.now.ligands.now }
    ensures noted { result ≡ Settled.Ordered → Notes query.now.setting.now.graph query.now.setting.now.positions
        arena.new.root arena.new.bound arena.new.sphere work.new.pairs work.new.noted }
    ensures followed { result ≡ Settled.Whole → AreFollowedOut query.now.setting.now.graph
        query.now.setting.now.positions arena.new work.new }
{
    let setting = query.setting;
    let graph = setting.graph();
    arena.start(graph, query.root);
    work.set_ligands(query.ligands);
    settle(
        arena,
        work,
        graph,
        setting.positions(),
        setting.units(),
        query.ligands.as_slice(),
        setting.rules(),
        steps,
    )
}

/// Ranks the ligands of a root by its digraph, as far as they need it.
pub fn rank_uncached<L: Ledger>(
    alloc: Global,
    query: &RootQuery<'_, '_>,
    workspace: &mut Workspace,
    branches: &mut RootDecisions,
    steps: &mut Steps<L>,
) -> Result<CachedResult, AllocError>
    requires fit { IsFit query.now.setting.now.graph query.now.root query.now.ligands.now }
    requires room { HaveRoom query.now.bound workspace.old }
    ensures room { HaveRoom query.now.bound workspace.new }
    ensures root_cache { workspace.new.root_cache ≡ workspace.old.root_cache }
    ensures found { IfOk result (FoundAs (kept_of query.now.setting.now query.now.root query.now.ligands.now)
        workspace.new.arena workspace.new.work workspace.new.tables) }
    ensures ranking { IfOk result (λ found. RankedAs query.now.setting.now query.now.bound query.now.root
        query.now.ligands.now (standing_of branches.new) (ranking_in found)) }
    ensures cost { Rises query.now.setting.now query.now.bound (end_at query.now.root query.now.ligands.now ∷ [])
        steps.old steps.new }
{
    let settled = settle_root(&mut workspace.arena, &mut workspace.work, query, steps);
    match settled {
        Settled::Over => Ok(CachedResult::Final(Ranking::Over)),
        Settled::Tied => Ok(CachedResult::Final(Ranking::Tied)),
        Settled::Ordered => {
            // what Rule 1a decides between them was noted while they were settled
            let Ok(()) = store_decisions(
                &workspace.work,
                branches,
                &mut workspace.tables.aside.noted,
            ) else {
                return Err(AllocError);
            };
            Ok(CachedResult::Final(Ranking::Known))
        }
        Settled::Whole => {
            let rooted = GrownRoot {
                arena: &workspace.arena,
                setting: query.setting,
                root: query.root,
                ligands: query.ligands,
            };
            rank_whole_digraph(
                alloc,
                &rooted,
                &mut workspace.work,
                &mut workspace.tables,
                branches,
            )
        }
    }
}
