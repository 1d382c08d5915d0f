// Branches that end with the last sphere and hold no atom of a unit.
ghost use Rattle.std.specs.Prelude.{◌≡◌, ◌<◌, ◌≤◌, ◌==◌, ◌&&◌, ℕ, true, false, length, vec_capacity};
ghost use Rattle.std.specs.Prelude.{flat_map, slice_index_or};
ghost use Rattle.cip_digraph.specs.digraph.Digraph.{is_real as is_kind_real};
ghost use Rattle.cip_digraph.specs.rings.Alternating.{is_in};
ghost use Rattle.cip_digraph.specs.units.Ends.{atoms_of};
ghost use Rattle.cip_digraph.specs.digraph.NodeList.{told_at, parents_of};
ghost use Rattle.cip_arena.specs.Growth.{Holds};
ghost use Rattle.cip_constitution.specs.Closing.{is_under};
ghost use Rattle.cip_constitution.specs.Trials.{node_data, is_open_in};

use crate::context::RootContext;
use cip_arena::Arena;
use cip_digraph::{FlaggedUnits, NodeKind, Nodes};
use cip_rank::Table;

// Whether a node is a real one whose atom belongs to a unit.
fn is_atom_of_unit(arena: &Arena, units: &FlaggedUnits<'_>, node: u32) -> bool
    requires { node < length arena.now.nodes }
    ensures { result ≡ (is_kind_real (told_at arena.now.nodes node).kind
        && is_in (told_at arena.now.nodes node).vertex (flat_map (λ unit. atoms_of unit.site) units.now)) }
{
    match (arena.kind(node), arena.vertex(node)) {
        (NodeKind::Real, Some(vertex)) => units.has(vertex),
        _ => false,
    }
}

// Whether a node of a branch keeps it open: an atom of a unit, or a node of the last sphere that has children.
fn is_open(arena: &Arena, setting: &RootContext<'_, '_>, node: u32, is_below: bool) -> bool
    requires holds { Holds setting.now.graph.now setting.now.positions.now arena.now }
    requires within { node < length arena.now.nodes }
    ensures { result ≡ (is_below && is_open_in (node_data setting.now) arena.now node) }
{
    is_below
        && (is_atom_of_unit(arena, setting.units, node)
            || (node >= arena.first() && arena.child_count(setting.graph, node) > 0))
}

// Whether a node is `top` or below it, by the flag of its parent.
fn is_under_by(table: &Table, under: &[bool], top: u32, node: u32) -> bool
    requires within { node < length table.now.parents }
    requires under { (k : ℕ) → k < node → slice_index_or under.now k false ≡ is_under table.now.parents top k }
    requires len { length under.now ≡ node }
    ensures { result ≡ is_under table.now.parents top node }
{
    let _count = table.len();
    match table.parent(node) {
        None => node == top,
        Some(parent) => node == top || under[parent as usize],
    }
}

/// Whether the branch of a node has no node beyond the last sphere and no atom of a unit.
pub(crate) fn is_closed(
    arena: &Arena,
    setting: &RootContext<'_, '_>,
    under: &mut Vec<bool>,
    top: u32,
) -> bool
    requires holds { Holds setting.now.graph.now setting.now.positions.now arena.now }
    requires room { length arena.now.nodes ≤ vec_capacity under.old }
    ensures closed { result ≡ true → (node : ℕ) → node < length arena.now.nodes
        → is_under (parents_of arena.now.nodes) top node ≡ true
        → is_open_in (node_data setting.now) arena.now node ≡ false }
    ensures opened { result ≡ false
        → (node : ℕ) × ((node < length arena.now.nodes) × ((is_under (parents_of arena.now.nodes) top node ≡ true)
        × (is_open_in (node_data setting.now) arena.now node ≡ true))) }
    ensures room { vec_capacity under.old ≤ vec_capacity under.new }
{
    under.clear();
    for node in 0..arena.len() {
        let is_below = is_under_by(arena.table(), under.as_slice(), top, node);
        under.push_reserved(is_below);
        if is_open(arena, setting, node, is_below) {
            return false;
        }
    }
    true
}
