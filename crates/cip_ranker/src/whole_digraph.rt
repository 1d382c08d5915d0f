// Roots that are ranked by their whole digraph.
ghost use Rattle.std.specs.Prelude.{◌≡◌, ◌<◌, ◌≤◌, ◌^◌, false, length, IfOk, OnOk};
ghost use Rattle.std.specs.List.{list_all};
ghost use Rattle.cip_branches.specs.Saving.{saved_of};
ghost use Rattle.cip_constitution.specs.FollowedOut.{AreConstituted, AreFollowedOut};
ghost use Rattle.cip_constitution.specs.Pairs.{pairs_of};
ghost use Rattle.cip_constitution.specs.Settling.{SettledAs};
ghost use Rattle.cip_label.specs.BranchComparison.{RankedAs};
ghost use Rattle.cip_label.specs.declared.root_ranker.Ranking.TheVariants.{Known};
ghost use Rattle.cip_digraph.specs.Asking.{is_decided};
ghost use Rattle.cip_rules.specs.Taking.{AreSame};
ghost use Rattle.cip_ranker.specs.Desks.{settled_by};
ghost use Rattle.cip_ranker.specs.Keeping.{FoundAs, kept_of, ranking_in};
ghost use Rattle.cip_ranker.specs.Rooting.{HasRoom, IsRooted, HoldDescriptors, HaveTurns};
ghost use Rattle.cip_ranker.specs.Standing.{standing_of};

use crate::caches::cache::CachedResult;
use crate::checkpoint::RootCheckpoint;
use crate::decisions::{RootDecisions, copy, store_decisions};
use crate::grown_root::{GrownRoot, whole_digraph};
use cip_arena::Arena;
use cip_aux::{AuxiliaryRequest, ParityCache, UnitIndex, auxiliaries, flag_subtrees};
use cip_aux_rank::AuxRanker;
use cip_constitution::{Settled, Work};
use cip_digraph::{Descriptors, Nodes};
use cip_label::{LabelContext, Ranking};
use cip_rank::{zip_ok, zip_results};
use cip_rules::Rule4bWorkspace;
use std::alloc::{AllocError, Global};

/// A digraph is costly from this number of nodes on: if all rules are applied, or if it is only grown.
const MANY_FOLLOWED: usize = 256;

const MANY_GROWN: usize = 2_000;

/// What ranks the ligands of a root by its whole digraph, in memory that was reserved.
#[derive(Drop)]
pub struct RankTables {
    // rankings from the nodes inside
    pub aux_ranker: AuxRanker,
    // the descriptors of these
    pub descriptors: Descriptors,
    // both readings of the root's branches
    pub readings: Rule4bWorkspace,
    // what constitution decided of the units at nodes inside
    pub parities: ParityCache,
    // the root's branches as constitution left them
    pub aside: RootCheckpoint,
}

impl RankTables {
    /// Room for digraphs of n nodes.
    pub fn reserve(alloc: Global, nodes: u32) -> Result<RankTables, AllocError>
        requires { nodes < 2 ^ 31 }
        ensures { IfOk result (HasRoom nodes) }
    {
        let read = zip_results(
            Descriptors::reserve(alloc, nodes),
            Rule4bWorkspace::reserve(alloc, nodes),
        );
        let kept = zip_results(
            ParityCache::reserve(alloc, nodes),
            RootCheckpoint::reserve(alloc, nodes),
        );
        let Ok(tables) = zip_results(read, kept) else {
            return Err(AllocError);
        };
        let Ok((((descriptors, readings), (parities, aside)), aux_ranker)) = zip_ok(
            tables,
            AuxRanker::reserve(alloc, nodes),
        ) else {
            return Err(AllocError);
        };
        Ok(RankTables {
            aux_ranker,
            descriptors,
            readings,
            parities,
            aside,
        })
    }
}

/// Whether it costs much to find once more what was found of a root: its digraph is large, also beside the graph, which
/// is copied if that is kept; and there is a unit that may have another sense. Without rings a digraph is as large as
/// the graph, and a symmetry costs more than the root.
pub fn is_worth_caching(arena: &Arena, setting: &LabelContext<'_>, found: CachedResult) -> bool {
    let many = match found {
        CachedResult::Open => MANY_FOLLOWED,
        CachedResult::Final(_) => MANY_GROWN,
    };
    let nodes = arena.len() as usize;
    nodes >= many
        && nodes / 3 >= setting.graph().vertices().len() / 2
        && setting.units().as_slice().len() > 1
}

// Finds the descriptors inside those branches that are still unresolved, at all nodes in them and below.
fn find_descriptors(
    alloc: Global,
    rooted: &GrownRoot<'_, '_>,
    work: &Work,
    tables: &mut RankTables,
) -> Result<(), AllocError>
    requires rooted { IsRooted rooted.now.setting.now rooted.now.root rooted.now.ligands.now rooted.now.arena.now }
    requires settled { SettledAs (settled_by rooted.now.setting.now rooted.now.ligands.now) rooted.now.arena.now
        Settled.Whole }
    requires constituted { AreConstituted rooted.now.setting.now.rules rooted.now.setting.now.graph
        rooted.now.setting.now.positions rooted.now.arena.now work.now.pairs work.now.branched work.now.noted }
    requires room { HasRoom rooted.now.arena.now.bound tables.old }
    requires parities { HaveTurns rooted.now.setting.now rooted.now.arena.now tables.old }
    ensures descriptors { OnOk result (HoldDescriptors rooted.now.setting.now rooted.now.arena.now work.now.branched
        tables.new.descriptors.descriptors) }
    ensures room { HasRoom rooted.now.arena.now.bound tables.new }
    ensures parities { HaveTurns rooted.now.setting.now rooted.now.arena.now tables.new }
    ensures aside { tables.new.aside ≡ tables.old.aside }
{
    let Ok(mut flags) = vec![in alloc; false; rooted.arena.len() as usize] else {
        return Err(AllocError);
    };
    let flagged = flags.as_mut_slice();
    work.flag_unresolved_nodes(flagged);
    flag_subtrees(rooted.arena.table(), flagged);
    let Ok(units) = UnitIndex::new(alloc, rooted.setting.units().as_slice()) else {
        return Err(AllocError);
    };
    let whole = whole_digraph(rooted);
    let unresolved = AuxiliaryRequest {
        units: &units,
        flags: flags.as_slice(),
    };
    auxiliaries(
        alloc,
        &whole,
        &mut tables.aux_ranker,
        &unresolved,
        &mut tables.parities,
        &mut tables.descriptors,
    )
}

/// Ranks the ligands of a root by all rules, where constitution leaves two of them.
pub fn rank_by_all_rules(
    alloc: Global,
    rooted: &GrownRoot<'_, '_>,
    work: &mut Work,
    tables: &mut RankTables,
    branches: &mut RootDecisions,
) -> Result<(), AllocError>
    requires rooted { IsRooted rooted.now.setting.now rooted.now.root rooted.now.ligands.now rooted.now.arena.now }
    requires settled { SettledAs (settled_by rooted.now.setting.now rooted.now.ligands.now) rooted.now.arena.now
        Settled.Whole }
    requires constituted { AreConstituted rooted.now.setting.now.rules rooted.now.setting.now.graph
        rooted.now.setting.now.positions rooted.now.arena.now work.old.pairs work.old.branched work.old.noted }
    requires undone { list_all is_decided work.old.noted ≡ false }
    requires pairs { work.old.pairs ≡ pairs_of rooted.now.ligands.now }
    requires room { HasRoom rooted.now.arena.now.bound tables.old }
    requires parities { HaveTurns rooted.now.setting.now rooted.now.arena.now tables.old }
    ensures ranked { OnOk result (RankedAs rooted.now.setting.now rooted.now.arena.now.bound rooted.now.root
        rooted.now.ligands.now (standing_of branches.new) Known) }
    ensures same { OnOk result (AreSame work.old.branched work.new.branched) }
    ensures pairs { OnOk result (work.new.pairs ≡ work.old.pairs) }
    ensures len { OnOk result (length work.new.noted ≡ length work.old.noted) }
    ensures work { work.new.bound ≡ work.old.bound }
    ensures room { HasRoom rooted.now.arena.now.bound tables.new }
    ensures parities { HaveTurns rooted.now.setting.now rooted.now.arena.now tables.new }
    ensures aside { tables.new.aside ≡ tables.old.aside }
{
    let Ok(()) = find_descriptors(alloc, rooted, work, tables) else {
        return Err(AllocError);
    };
    branches.apply_rules_3_to_5(work, &mut tables.readings, &tables.descriptors)
}

// Nothing is kept of the nodes inside, and no ranking is tied; where the nodes are many both will be.
fn begin_inside(rooted: &GrownRoot<'_, '_>, tables: &mut RankTables)
    requires fits { length rooted.now.arena.now.nodes ≤ rooted.now.arena.now.bound }
    requires room { HasRoom rooted.now.arena.now.bound tables.old }
    ensures parities { HaveTurns rooted.now.setting.now rooted.now.arena.now tables.new }
    ensures aside { tables.new.aside ≡ tables.old.aside }
    ensures room { HasRoom rooted.now.arena.now.bound tables.new }
{
    if is_worth_caching(rooted.arena, rooted.setting, CachedResult::Open) {
        let nodes = rooted.arena.len();
        tables.parities.begin(nodes);
        tables.aux_ranker.begin(nodes.saturating_mul(4));
    } else {
        tables.parities.reset();
        tables.aux_ranker.begin(0);
    }
}

// Sets the branches aside as constitution left them.
fn set_aside(
    rooted: &GrownRoot<'_, '_>,
    work: &Work,
    tables: &mut RankTables,
) -> Result<(), AllocError>
    requires places { length work.now.branched.layers.place_tree.place_parents ≤ tables.old.aside.ranks.room }
    requires fits { length rooted.now.arena.now.nodes ≤ rooted.now.arena.now.bound }
    requires room { HasRoom rooted.now.arena.now.bound tables.old }
    ensures parities { HaveTurns rooted.now.setting.now rooted.now.arena.now tables.new }
    ensures ranks { tables.new.aside.ranks ≡ saved_of tables.old.aside.ranks.room work.now.branched }
    ensures count { length work.now.branched.layers.ranked.numbers ≡ length work.now.branched.layers.place_tree.place_parents }
    ensures noted { OnOk result (tables.new.aside.noted.items ≡ work.now.noted) }
    ensures room { HasRoom rooted.now.arena.now.bound tables.new }
{
    begin_inside(rooted, tables);
    work.save(&mut tables.aside.ranks);
    copy(work.noted(), &mut tables.aside.noted)
}

/// Ranks the ligands of a root by its whole digraph: by constitution, and where that leaves two of them by all rules.
pub fn rank_whole_digraph(
    alloc: Global,
    rooted: &GrownRoot<'_, '_>,
    work: &mut Work,
    tables: &mut RankTables,
    branches: &mut RootDecisions,
) -> Result<CachedResult, AllocError>
    requires rooted { IsRooted rooted.now.setting.now rooted.now.root rooted.now.ligands.now rooted.now.arena.now }
    requires settled { SettledAs (settled_by rooted.now.setting.now rooted.now.ligands.now) rooted.now.arena.now
        Settled.Whole }
    requires followed { AreFollowedOut rooted.now.setting.now.graph rooted.now.setting.now.positions
        rooted.now.arena.now work.old }
    requires pairs { work.old.pairs ≡ pairs_of rooted.now.ligands.now }
    requires room { HasRoom rooted.now.arena.now.bound tables.old }
    ensures found { IfOk result (FoundAs (kept_of rooted.now.setting.now rooted.now.root rooted.now.ligands.now)
        rooted.now.arena.now work.new tables.new) }
    ensures ranking { IfOk result (λ found. RankedAs rooted.now.setting.now rooted.now.arena.now.bound rooted.now.root
        rooted.now.ligands.now (standing_of branches.new) (ranking_in found)) }
    ensures work { work.new.bound ≡ work.old.bound }
    ensures room { HasRoom rooted.now.arena.now.bound tables.new }
{
    if work.apply_rules_1b_2(rooted.arena, rooted.setting.rules()) {
        let Ok(()) = store_decisions(work, branches, &mut tables.aside.noted) else {
            return Err(AllocError);
        };
        Ok(CachedResult::Final(Ranking::Known))
    } else {
        let Ok(()) = set_aside(rooted, work, tables) else {
            return Err(AllocError);
        };
        let Ok(()) = rank_by_all_rules(alloc, rooted, work, tables, branches) else {
            return Err(AllocError);
        };
        Ok(CachedResult::Open)
    }
}
