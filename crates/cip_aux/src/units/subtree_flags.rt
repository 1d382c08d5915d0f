// Flags of nodes, set for all below those that have one.
ghost use Rattle.std.specs.Prelude.{◌≡◌, ◌<◌, ◌⊎◌, ℕ, true, if◌then◌else◌, length, slice_index, slice_set};
ghost use Rattle.cip_aux.specs.DescriptorsInside.{AreWanted, flag_at};

use cip_rank::Table;
use cip_rank::path_flags::parent_of;

// Sets a flag, where it is requested.
fn set_if(is_wanted: bool, flags: &mut [bool], node: u32)
    requires { node < length flags.old }
    ensures { flags.new ≡ (if is_wanted then slice_set flags.old node true else flags.old) }
{
    if is_wanted {
        flags[node as usize] = true;
    }
}

// Whether the parent of a node has a flag.
fn is_below_flagged(table: &Table, flags: &[bool], node: u32) -> bool
    requires node { node < length table.now.parents }
    requires len { length flags.now ≡ length table.now.parents }
    ensures below { 0 < node → result ≡ flag_at flags.now (slice_index table.now.parents node) }
    ensures root { result ≡ true → 0 < node }
{
    let _count = table.len();
    node > 0 && flags[parent_of(table, node) as usize]
}

/// Flags all nodes below those that have a flag.
pub fn flag_subtrees(table: &Table, flags: &mut [bool])
    requires len { length flags.old ≡ length table.now.parents }
    ensures below { AreWanted table.now.parents flags.new }
    ensures kept { (node : ℕ) → flag_at flags.old node ≡ true → flag_at flags.new node ≡ true }
    ensures only { (node : ℕ) → flag_at flags.new node ≡ true → (flag_at flags.old node ≡ true)
        ⊎ ((0 < node) × (flag_at flags.new (slice_index table.now.parents node) ≡ true)) }
    ensures len { length flags.new ≡ length flags.old }
{
    for node in 0..table.len() {
        set_if(is_below_flagged(table, flags, node), flags, node);
    }
}
