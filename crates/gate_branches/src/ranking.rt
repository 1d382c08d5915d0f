// Branches of trees seen from any of their nodes.
ghost use Rattle.std.specs.Prelude.{◌≡◌, ◌<◌, ◌≤◌, ℕ, length, IfOk};
ghost use Rattle.cip_branches.specs.Deciding.{AreFollowed};
ghost use Rattle.cip_rank.specs.View.{on_way};
ghost use Rattle.cip_partition.specs.Keys.{AreKeyed};
ghost use Rattle.cip_partition.specs.Parting.{has_flag};

use crate::digraph_rows::{DigraphRequest, push_digraph};
use crate::pairs::push_readings;
use crate::trees::{Case, Keys, ROOM, neighbours, table_of, way_to};
use cip_branches::{Branches, ViewedTree};
use cip_rank::Table;
use gate_tables::Text;
use std::alloc::{AllocError, Global};

/// What is asked of the branches of a tree.
#[derive(Clone, Copy)]
pub enum Request<'a> {
    /// What the calls say that know places alone.
    Branches(BranchRequest<'a>),
    /// What the calls say whose contracts speak of nodes.
    Digraph(DigraphRequest<'a>),
}

/// What is asked of branches.
#[derive(Clone, Copy)]
pub enum BranchRequest<'a> {
    /// How they rank by the first rule.
    Numbers,
    /// How they rank by the next rule too.
    LaterNumbers,
    /// Which nodes were walked, and which branches are wanted still.
    Walked,
    /// What both readings of these descriptors decide between the first two.
    Readings(&'a [u8]),
}

/// Prints the branches of a tree, followed n spheres by the first rule.
pub fn output(alloc: Global, out: &mut Text, case: &Case<'_>, depth: u32, request: Request<'_>) {
    let table = table_of(alloc, case.parents);
    match &table {
        Ok(Some(table)) => told_in(alloc, out, table, case, depth, request),
        Ok(None) => out.push_str("no tree"),
        Err(_) => out.miss(),
    }
    // proof: dropped by a call, here and below, which is quicker to prove than the end of scope
    drop(table);
}

fn told_in(
    alloc: Global,
    out: &mut Text,
    table: &Table,
    case: &Case<'_>,
    depth: u32,
    request: Request<'_>,
) {
    let count = table.len();
    if case.from >= count || count > ROOM || case.keys.len() != count as usize {
        return out.push_str("out of range");
    }
    let Ok(way) = way_to(alloc, table, case.from) else {
        return out.miss();
    };
    let around = ViewedTree { table, way: &way };
    match request {
        Request::Branches(request) => told_around(alloc, out, &around, case, depth, request),
        Request::Digraph(request) => push_digraph(alloc, out, &around, case, depth, request),
    }
}

fn told_around(
    alloc: Global,
    out: &mut Text,
    around: &ViewedTree<'_>,
    case: &Case<'_>,
    depth: u32,
    request: BranchRequest<'_>,
)
    requires inside { case.now.from < length around.now.table.now.parents }
    requires fits { length around.now.table.now.parents ≤ ROOM }
    requires way { (x : ℕ) → x < length around.now.table.now.parents → has_flag around.now.way.now x
        ≡ on_way around.now.table.now.parents case.now.from x }
    requires keyed { length case.now.keys.now ≡ length around.now.table.now.parents }
{
    let mut branches = follow(alloc, around, case.from, &Keys { list: case.keys }, depth);
    match &mut branches {
        Ok(branches) => push_asked(alloc, out, branches, case, request),
        Err(_) => out.miss(),
    }
    drop(branches);
}

// Begins with a branch below each node next to the one that the tree is seen from, and follows them n spheres.
fn follow(
    alloc: Global,
    around: &ViewedTree<'_>,
    from: u32,
    keys: &Keys<'_>,
    depth: u32,
) -> Result<Branches, AllocError>
    requires inside { from < length around.now.table.now.parents }
    requires fits { length around.now.table.now.parents ≤ ROOM }
    requires way { (x : ℕ) → x < length around.now.table.now.parents → has_flag around.now.way.now x
        ≡ on_way around.now.table.now.parents from x }
    requires keyed { length around.now.table.now.parents ≤ length keys.now.list.now }
    ensures followed { IfOk result (λ branches. AreFollowed branches) }
    ensures nodes { IfOk result (λ branches. AreKeyed (length around.now.table.now.parents) branches.layers.place_tree) }
{
    let _count = around.table.len();
    let tops = neighbours(alloc, around.table, from)?;
    let mut branches = Branches::reserve(alloc, ROOM)?;
    branches.begin(&tops, keys);
    for _ in 0..depth {
        if branches.last() + 2 > ROOM {
            return Ok(branches);
        }
        branches.follow(around, keys);
    }
    Ok(branches)
}

fn push_asked(
    alloc: Global,
    out: &mut Text,
    branches: &mut Branches,
    case: &Case<'_>,
    request: BranchRequest<'_>,
)
    requires followed { AreFollowed branches.old }
    requires keyed { AreKeyed (length case.now.keys.now) branches.old.layers.place_tree }
{
    match request {
        BranchRequest::Numbers => push_ranks(out, branches),
        BranchRequest::LaterNumbers => push_later_ranks(out, branches, case),
        BranchRequest::Walked => push_walked(out, branches),
        BranchRequest::Readings(letters) => push_readings(alloc, out, branches, case, letters),
    }
}

fn push_later_ranks(out: &mut Text, branches: &mut Branches, case: &Case<'_>)
    requires followed { AreFollowed branches.old }
    requires keyed { AreKeyed (length case.now.keys.now) branches.old.layers.place_tree }
{
    if case.later.len() != case.keys.len() {
        return out.push_str("no later keys");
    }
    go_on(branches, &Keys { list: case.later });
    push_ranks(out, branches)
}

// Takes the next rule over all spheres.
fn go_on(branches: &mut Branches, keys: &Keys<'_>)
    requires followed { AreFollowed branches.old }
    requires keyed { AreKeyed (length keys.now.list.now) branches.old.layers.place_tree }
{
    branches.next_rule(keys);
    let last = branches.last();
    for far in 0..last {
        branches.extend_rule(keys, far);
    }
}

/// Of each branch how many it precedes.
pub fn push_ranks(out: &mut Text, branches: &Branches) {
    for branch in 0..branches.branch_count() {
        let below = count_below(branches, branches.number(branch));
        write!(out, "{below}");
    }
}

fn count_below(branches: &Branches, number: u32) -> u32 {
    let mut count = 0u32;
    for branch in 0..branches.branch_count() {
        if branches.number(branch) < number {
            count = count.saturating_add(1);
        }
    }
    count
}

// The nodes that were walked, and whether branches are wanted still, with their numbers.
fn push_walked(out: &mut Text, branches: &Branches) {
    for place in 0..branches.len() {
        out.push_number(i64::from(branches.node(place)));
    }
    if branches.any_unresolved() {
        out.push_str(", unresolved");
    }
    push_wanted(out, branches)
}

fn push_wanted(out: &mut Text, branches: &Branches) {
    for branch in 0..branches.branch_count() {
        if branches.is_unresolved(branch) {
            out.push_number(i64::from(branch));
        }
    }
}
