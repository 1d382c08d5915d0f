// A digraph grown until its ligands are settled.
ghost use Rattle.std.specs.Prelude.{◌≡◌, ◌<◌, ◌≤◌, ◌+◌, length};
ghost use Rattle.cip_arena.specs.Growth.{Holds};
ghost use Rattle.cip_constitution.specs.FollowedOut.{AreFollowedOut};
ghost use Rattle.cip_constitution.specs.Noting.{Notes};
ghost use Rattle.cip_constitution.specs.Settling.{setting_of, SettledAs, cost_of};

use crate::context::RootContext;
use crate::work::Work;
use cip_arena::{Arena, Grown};
use cip_digraph::{FlaggedUnits, Graph, Positions};
use cip_mol::Ligand;
use cip_rank::{Rules, Steps};
use std::sync::ledger::Ledger;

/// How the ligands of a root were settled.
#[derive(Clone, Copy, Debug, PartialEq, Eq)]
pub enum Settled {
    /// Every two differ by Rule 1a within the last sphere: it gives their order by all rules.
    Ordered,
    /// Two have ended, tie by Rules 1a, 1b and 2 and hold no atom of a unit: they tie by all rules.
    Tied,
    /// Neither, and the digraph is whole.
    Whole,
    /// None within the bound.
    Over,
}

/// Grows a digraph that was just started until a sphere settles the ligands of its root, or until the next sphere
/// would pass the bound. It takes a step for each node made, and no memory.
pub fn settle<L: Ledger>(
    arena: &mut Arena,
    work: &mut Work,
    graph: &Graph,
    positions: &Positions,
    units: &FlaggedUnits<'_>,
    ligands: &[Ligand],
    rules: Rules,
    steps: &mut Steps<L>,
) -> Settled
    requires holds { Holds graph.now positions.now arena.old }
    requires started { arena.old.sphere ≡ 0 }
    requires fits { length arena.old.nodes ≤ arena.old.bound }
    requires root { arena.old.root < length graph.now.vertices }
    requires room { arena.old.bound ≤ work.old.bound }
    ensures settled { SettledAs (setting_of rules graph.now positions.now units.now ligands.now) arena.new result }
    ensures holds { Holds graph.now positions.now arena.new }
    ensures root { arena.new.root ≡ arena.old.root }
    ensures bound { arena.new.bound ≡ arena.old.bound }
    ensures fits { length arena.new.nodes ≤ arena.new.bound }
    ensures cost { steps.new + length arena.old.nodes ≡ steps.old + length arena.new.nodes }
    // 1 for the root and the steps taken: at most the cost
    ensures lazy { steps.new + 1 ≤ steps.old + cost_of (setting_of rules graph.now positions.now units.now
        ligands.now) arena.new.root }
    ensures work { work.new.bound ≡ work.old.bound }
    // what Rule 1a decides between the ligands that were asked about
    ensures noted { result ≡ Settled.Ordered → Notes graph.now positions.now arena.new.root arena.new.bound
        arena.new.sphere work.new.pairs work.new.noted }
    ensures pairs { work.new.pairs ≡ work.old.pairs }
    // what the rules after Rule 1a go on from
    ensures whole { result ≡ Settled.Whole → 0 < arena.new.sphere → AreFollowedOut graph.now positions.now arena.new
        work.new }
{
    let _vertices = graph.vertices();
    let setting = RootContext {
        graph,
        positions,
        units,
        ligands,
        rules,
    };
    loop {
        match arena.grow(graph, positions, steps) {
            Grown::Grown => {}
            Grown::Whole => return Settled::Whole,
            Grown::Over => return Settled::Over,
        }
        work.follow(arena);
        if work.all_differ(arena, &setting) {
            return Settled::Ordered;
        }
        if work.some_alike(arena, &setting) {
            return Settled::Tied;
        }
    }
}
