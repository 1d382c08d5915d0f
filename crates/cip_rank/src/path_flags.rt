// Flags on the way from a node to the root.
ghost use Rattle.std.specs.Prelude.{◌≡◌, ℕ, ◌<◌, ◌≤◌, false, length, slice_index, vec_capacity};
ghost use Rattle.std.specs.List.{slice_index_or};
ghost use Rattle.cip_rank.specs.View.{on_way};

use crate::table::Table;

/// Flags for n nodes, those that are new not set.
pub fn resize_flags(flags: &mut Vec<bool>, count: u32)
    requires off { (x : ℕ) → slice_index_or flags.old.items x false ≡ false }
    requires room { count ≤ vec_capacity flags.old }
    ensures off { (x : ℕ) → slice_index_or flags.new.items x false ≡ false }
    ensures len { count ≤ length flags.new.items }
    ensures room { vec_capacity flags.old ≤ vec_capacity flags.new }
{
    while flags.len() < count as usize {
        flags.push_reserved(false);
    }
}

/// Flags the nodes on the way from a node to the root, where none is flagged.
pub fn flag_path(table: &Table, from: u32, flags: &mut Vec<bool>)
    requires node { from < length table.now.parents }
    requires len { length table.now.parents ≤ length flags.old.items }
    requires off { (x : ℕ) → slice_index_or flags.old.items x false ≡ false }
    ensures flags { (x : ℕ) → x < length table.now.parents → slice_index_or flags.new.items x false
        ≡ on_way table.now.parents from x }
    ensures others { (x : ℕ) → length table.now.parents ≤ x → slice_index_or flags.new.items x false ≡ false }
    ensures len { length flags.new.items ≡ length flags.old.items }
    ensures room { vec_capacity flags.new ≡ vec_capacity flags.old }
{
    let _count = table.len();
    let mut node = from;
    while node > 0 {
        flags[node as usize] = true;
        node = parent_of(table, node);
    }
    flags[0] = true;
}

/// Clears these flags again.
pub fn clear_path(table: &Table, from: u32, flags: &mut Vec<bool>)
    requires node { from < length table.now.parents }
    requires len { length table.now.parents ≤ length flags.old.items }
    requires way { (x : ℕ) → x < length table.now.parents → slice_index_or flags.old.items x false
        ≡ on_way table.now.parents from x }
    requires others { (x : ℕ) → length table.now.parents ≤ x → slice_index_or flags.old.items x false ≡ false }
    ensures off { (x : ℕ) → slice_index_or flags.new.items x false ≡ false }
    ensures len { length flags.new.items ≡ length flags.old.items }
    ensures room { vec_capacity flags.new ≡ vec_capacity flags.old }
{
    let _count = table.len();
    let mut node = from;
    while node > 0 {
        flags[node as usize] = false;
        node = parent_of(table, node);
    }
    flags[0] = false;
}

/// The parent of a node that isn't the root.
pub fn parent_of(table: &Table, node: u32) -> u32
    requires node { node < length table.now.parents }
    requires some { 0 < node }
    ensures parent { result ≡ slice_index table.now.parents node }
    ensures earlier { result < node }
{
    let _count = table.len();
    match table.parent(node) {
        Some(parent) => parent,
        None => 0,
    }
}
