// Small trees that rows write, and the nodes that they are seen from.
ghost use Rattle.std.specs.Prelude.{◌≡◌, ◌<◌, ◌≤◌, ◌++◌, ℕ, [], pos, length, map, true, IfOk};
ghost use Rattle.cip_rank.specs.Tree.{children_of, last_parent};
ghost use Rattle.cip_rank.specs.View.{on_way, parent_list};
ghost use Rattle.cip_partition.specs.Parting.{has_flag};

use cip_rank::path_flags::{flag_path, resize_flags};
use cip_rank::{Keyed, Table};
use gate_tables::Text;
use std::alloc::{AllocError, Global};
use std::cmp::Ordering;

/// No tree here has more nodes.
pub const ROOM: u32 = 20;

/// Each tree here has fewer spheres after the first one, whichever node it is seen from.
pub const DEEPEST: u32 = 7;

/// A key of each node, by number: a digit, or a letter after all digits.
#[derive(Drop)]
pub struct Keys<'a> {
    pub list: &'a [u8],
}

impl Keyed for Keys<'_> {
    ghost nodes = { λ keys. length keys.list.now };

    ghost key = { λ keys. map pos keys.list.now };

    fn compare(&self, a: u32, b: u32) -> Ordering {
        self.list[a as usize].cmp(&self.list[b as usize])
    }
}

/// The parents of the nodes, a digit each, of which the root's own is 0, the keys of a rule, the node that the tree is
/// seen from, and the keys of the next rule.
#[derive(Clone, Copy)]
pub struct Case<'a> {
    pub parents: &'a [u8],
    pub keys: &'a [u8],
    pub from: u32,
    pub later: &'a [u8],
}

/// The tree of these parents; none where they aren't those of a tree.
pub fn table_of(alloc: Global, parents: &[u8]) -> Result<Option<Table>, AllocError> {
    let mut table = Table::reserve(alloc, ROOM)?;
    if push_all(&mut table, parents) {
        return Ok(Some(table));
    }
    Ok(None)
}

fn push_all(table: &mut Table, parents: &[u8]) -> bool
    requires bound { table.old.bound ≡ ROOM }
    requires none { table.old.parents ≡ [] }
{
    let mut last = 0;
    for digit in parents {
        let parent = digit_in(*digit).unwrap_or(ROOM);
        if !push(table, last, parent) {
            return false;
        }
        last = parent;
    }
    true
}

// Adds a node if it may be there.
#[tactic(auto, using(cip_rank::proofs::lemmas::Pushed::last_pushed))]
fn push(table: &mut Table, last: u32, parent: u32) -> bool
    requires bound { table.old.bound ≡ ROOM }
    requires last { last_parent table.old.parents ≡ last }
    ensures bound { table.new.bound ≡ ROOM }
    ensures last { result ≡ true → last_parent table.new.parents ≡ parent }
{
    let count = table.len();
    if count == ROOM || parent < last || parent > count.saturating_sub(1) {
        return false;
    }
    table.push(if count == 0 { None } else { Some(parent) });
    true
}

fn children(alloc: Global, table: &Table, node: u32) -> Result<Vec<u32>, AllocError>
    requires { node < length table.now.parents }
    ensures { IfOk result (λ nodes. nodes.items ≡ children_of table.now.parents node) }
{
    let (first, past) = table.children(node);
    let mut nodes = Vec::new(alloc);
    for child in first..past {
        nodes.push(child)?;
    }
    Ok(nodes)
}

/// The nodes next to one: its children, and then its parent.
pub fn neighbours(alloc: Global, table: &Table, node: u32) -> Result<Vec<u32>, AllocError>
    requires { node < length table.now.parents }
    ensures { IfOk result (λ nodes. nodes.items ≡ children_of table.now.parents node
        ++ parent_list table.now.parents node) }
{
    let mut nodes = children(alloc, table, node)?;
    if let Some(parent) = table.parent(node) {
        nodes.push(parent)?;
    }
    Ok(nodes)
}

/// Flags of the nodes on the way from the root to one.
pub fn way_to(alloc: Global, table: &Table, node: u32) -> Result<Vec<bool>, AllocError>
    requires { node < length table.now.parents }
    ensures { IfOk result (λ way. (x : ℕ) → x < length table.now.parents → has_flag way.items x
        ≡ on_way table.now.parents node x) }
{
    let count = table.len();
    let mut way = Vec::with_capacity(alloc, count as usize)?;
    resize_flags(&mut way, count);
    flag_path(table, node, &mut way);
    Ok(way)
}

/// The digit of a byte, 0 to 9 and then a to z.
pub fn digit_in(byte: u8) -> Option<u32> {
    char::from(byte).to_digit(36)
}

/// Of each node its parent, its sphere and its children, a bar after each node; how many nodes are left when all are
/// taken away.
pub fn nodes_told(alloc: Global, out: &mut Text, parents: &[u8]) {
    let mut table = table_of(alloc, parents);
    match &mut table {
        Ok(Some(table)) => push_nodes(out, table),
        Ok(None) => out.push_str("no tree"),
        Err(_) => out.miss(),
    }
    // proof: dropped by a call, which is quicker to prove than the end of scope
    drop(table);
}

fn push_nodes(out: &mut Text, table: &mut Table) {
    for node in 0..table.len() {
        push_node(out, table, node);
    }
    table.clear();
    write!(out, "{}", table.len());
}

fn push_node(out: &mut Text, table: &Table, node: u32)
    requires { node < length table.now.parents }
{
    let sphere = table.sphere(node);
    match table.parent(node) {
        Some(parent) => write!(out, "{parent} {sphere}"),
        None => write!(out, "root {sphere}"),
    }
    let (first, past) = table.children(node);
    if first < past {
        write!(out, " {first} to below {past}");
    }
    out.push_str("|");
}
