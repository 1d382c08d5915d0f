// Two digraphs, node by node.
ghost use Rattle.std.specs.Prelude.{◌<◌, length};

use cip_digraph::Nodes;
use cip_rank::{Rules, Table};

/// The first node at which two digraphs differ, or that only one of them has.
pub fn first_other<N: Nodes, M: Nodes>(one: &N, other: &M) -> Option<u32> {
    let count = one.table().len();
    let others = other.table().len();
    for node in 0..count.min(others) {
        if !is_alike(one, other, node) {
            return Some(node);
        }
    }
    if count == others {
        None
    } else {
        Some(count.min(others))
    }
}

fn is_alike<N: Nodes, M: Nodes>(one: &N, other: &M, node: u32) -> bool
    requires one { node < length (N.nodes one.now) }
    requires other { node < length (M.nodes other.now) }
{
    hangs_alike(one.table(), other.table(), node)
        && one.kind(node) == other.kind(node)
        && one.vertex(node) == other.vertex(node)
        && one.counterpart(node) == other.counterpart(node)
        && has_same_keys(one, other, node)
}

fn hangs_alike(one: &Table, other: &Table, node: u32) -> bool
    requires one { node < length one.now.parents }
    requires other { node < length other.now.parents }
{
    one.parent(node) == other.parent(node)
        && one.sphere(node) == other.sphere(node)
        && one.children(node) == other.children(node)
}

fn has_same_keys<N: Nodes, M: Nodes>(one: &N, other: &M, node: u32) -> bool
    requires one { node < length (N.nodes one.now) }
    requires other { node < length (M.nodes other.now) }
{
    let printed = Rules::Wording2013;
    let corrected = Rules::Wording2018;
    one.atom_key(node) == other.atom_key(node)
        && one.distance_key(node, printed) == other.distance_key(node, printed)
        && one.distance_key(node, corrected) == other.distance_key(node, corrected)
        && one.mass_key(node) == other.mass_key(node)
}
