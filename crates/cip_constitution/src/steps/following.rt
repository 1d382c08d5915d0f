// The branches of a root's children, followed with its digraph.
ghost use Rattle.std.specs.Prelude.{◌≡◌, ◌<◌, ◌≤◌, ◌+◌, ◌-◌, length};
ghost use Rattle.std.specs.List.{range_with_len};
ghost use Rattle.cip_constitution.specs.Settling.{RootContext};
ghost use Rattle.cip_constitution.specs.Trials.{IsGrown, FollowsTo};

use cip_arena::Arena;
use cip_branches::{Branches, ViewedTree};
use cip_digraph::Nodes;
use cip_partition::ReservedVec;
use cip_rules::ByAtom;

// Numbers the nodes after the root.
fn fill_tops(tops: &mut ReservedVec<u32>, past: u32)
    requires some { 0 < past }
    requires room { past ≤ tops.old.room }
    ensures { tops.new ≡ record tops.old { items = range_with_len 1 (past - 1) } }
{
    tops.clear();
    for node in 1..past {
        tops.push(node);
    }
}

/// Begins with the branches of the root's children, where there are no nodes beyond these.
pub(crate) fn begin_branches(arena: &Arena, tops: &mut ReservedVec<u32>, branches: &mut Branches)
    requires nodes { 1 < length arena.now.nodes }
    requires tops_room { arena.now.bound ≤ tops.old.room }
    requires room { arena.now.bound ≤ branches.old.layers.place_tree.room + 1 }
    ensures followed { (setting : RootContext) → IsGrown setting arena.now → arena.now.sphere ≡ 1
        → FollowsTo setting arena.now arena.now.sphere branches.new }
    ensures tops_room { tops.new.room ≡ tops.old.room }
    ensures room { branches.new.layers.place_tree.room ≡ branches.old.layers.place_tree.room }
{
    let past = arena.len();
    fill_tops(tops, past);
    branches.begin(tops.as_slice(), &ByAtom { nodes: arena });
}

/// Follows the branches that are still unresolved to the sphere that was grown.
pub(crate) fn follow_branches(arena: &Arena, branches: &mut Branches)
    requires further { 1 < arena.now.sphere }
    requires room { arena.now.bound ≤ branches.old.layers.place_tree.room + 1 }
    requires followed { (setting : RootContext) × IsGrown setting arena.now
        × FollowsTo setting arena.now (arena.now.sphere - 1) branches.old }
    ensures followed { (setting : RootContext) → IsGrown setting arena.now
        → FollowsTo setting arena.now (arena.now.sphere - 1) branches.old
        → FollowsTo setting arena.now arena.now.sphere branches.new }
    ensures room { branches.new.layers.place_tree.room ≡ branches.old.layers.place_tree.room }
{
    let around = ViewedTree {
        table: arena.table(),
        way: &[],
    };
    branches.follow(&around, &ByAtom { nodes: arena });
}
