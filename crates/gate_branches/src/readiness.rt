// What a call on branches asks for and no call before it says: room, and that each place shows a node of the tree.
ghost use Rattle.std.specs.Prelude.{◌≡◌, ◌<◌, ◌≤◌, ◌+◌, ◌-◌, ℕ, true, length, slice_index};
ghost use Rattle.std.specs.List.{AllByRecursion};
ghost use Rattle.cip_branches.specs.Deciding.{AreFollowed};
ghost use Rattle.cip_branches.specs.ViewedTree.{kids_around};
ghost use Rattle.cip_branches.specs.Walking.{kids_left};
ghost use Rattle.cip_partition.specs.Keys.{AreKeyed};
ghost use Rattle.cip_digraph.specs.Asking.{AreWithin};
ghost use Rattle.gate_branches.specs.Digraphs.{EndInside};

use crate::digraphs::SmallDigraph;
use cip_branches::Branches;
use cip_digraph::BranchPair;

// Whether all of these are numbers of nodes.
fn are_nodes(nodes: &[u32], count: u32) -> bool
    ensures { result ≡ true → (k : ℕ) → k < length nodes.now → slice_index nodes.now k < count }
{
    nodes.iter().all(|node| *node < count)
}

/// Whether branches may begin at these nodes.
pub fn may_begin(branches: &Branches, digraph: &SmallDigraph<'_>, tops: &[u32]) -> bool
    ensures some { result ≡ true → 0 < branches.now.layers.place_tree.room }
    ensures room { result ≡ true → length tops.now ≤ branches.now.layers.place_tree.room }
    ensures nodes { result ≡ true
        → (k : ℕ) → k < length tops.now → slice_index tops.now k < length digraph.now.parents }
{
    let room = branches.room();
    room > 0 && tops.len() <= room as usize && are_nodes(tops, digraph.len())
}

/// Whether each place shows a node of the tree.
pub fn are_keyed(branches: &Branches, digraph: &SmallDigraph<'_>) -> bool
    ensures { result ≡ true → AreKeyed (length digraph.now.parents) branches.now.layers.place_tree }
{
    let count = digraph.len();
    for place in 0..branches.len() {
        if branches.node(place) >= count {
            return false;
        }
    }
    true
}

// Whether there is room for one sphere more, even if each node of the last one had all nodes as children, and a parent.
fn has_room(branches: &Branches, digraph: &SmallDigraph<'_>) -> bool
    requires followed { AreFollowed branches.now }
    ensures places { result ≡ true → length branches.now.layers.place_tree.place_parents
        + kids_left (kids_around digraph.now.parents digraph.now.way) branches.now.layers.place_tree.nodes
        branches.now.first (length branches.now.layers.place_tree.place_parents - branches.now.first)
        ≤ branches.now.layers.place_tree.room }
    ensures spheres { result ≡ true → branches.now.last + 2 ≤ branches.now.layers.place_tree.room }
{
    let room = branches.room();
    let places = branches.len();
    let open = places.saturating_sub(branches.first());
    let kids = open.saturating_mul(digraph.len());
    let most = places.saturating_add(open).saturating_add(kids);
    most < room && branches.last() + 2 <= room
}

/// Whether branches may be followed by one sphere more.
pub fn may_follow(branches: &Branches, digraph: &SmallDigraph<'_>) -> bool
    requires followed { AreFollowed branches.now }
    ensures nodes { result ≡ true → AreKeyed (length digraph.now.parents) branches.now.layers.place_tree }
    ensures places { result ≡ true → length branches.now.layers.place_tree.place_parents
        + kids_left (kids_around digraph.now.parents digraph.now.way) branches.now.layers.place_tree.nodes
        branches.now.first (length branches.now.layers.place_tree.place_parents - branches.now.first)
        ≤ branches.now.layers.place_tree.room }
    ensures spheres { result ≡ true → branches.now.last + 2 ≤ branches.now.layers.place_tree.room }
{
    has_room(branches, digraph) && are_keyed(branches, digraph)
}

/// Whether the last sphere has no place, and is the outermost one of the digraph.
pub fn have_ended(branches: &Branches, digraph: &SmallDigraph<'_>) -> bool
    requires followed { AreFollowed branches.now }
    ensures { result ≡ true → EndInside digraph.now branches.now }
{
    branches.first() == branches.len() && branches.last() == digraph.height
}

/// Whether a rule may be taken over the branches, to decide between these pairs.
pub fn may_decide(branches: &Branches, digraph: &SmallDigraph<'_>, pairs: &[BranchPair]) -> bool
    requires followed { AreFollowed branches.now }
    ensures ended { result ≡ true → EndInside digraph.now branches.now }
    ensures nodes { result ≡ true → AreKeyed (length digraph.now.parents) branches.now.layers.place_tree }
    ensures within { result ≡ true → AllByRecursion (AreWithin (length branches.now.unresolved)) pairs.now }
{
    have_ended(branches, digraph)
        && are_keyed(branches, digraph)
        && are_within(branches.branch_count(), pairs)
}

// Whether pairs are of these many branches.
fn are_within(count: u32, pairs: &[BranchPair]) -> bool
    ensures { result ≡ true → AllByRecursion (AreWithin count) pairs.now }
{
    pairs
        .iter()
        .all(|pair| pair.first < count && pair.second < count)
}
