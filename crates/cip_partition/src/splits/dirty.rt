// Classes that are to be looked at again.
ghost use Rattle.std.specs.Prelude.{◌≡◌, ◌≢◌, ◌<◌, ◌≤◌, ℕ, true, false, if◌then◌else◌, length, slice_index, slice_set};
ghost use Rattle.cip_partition.specs.Parting.{has_flag, is_class_start};
ghost use Rattle.cip_partition.specs.Rows.{IsRow};
ghost use Rattle.cip_partition.specs.Stirring.{number_above, IsAbove, StirsAbove};

use crate::partition::Partition;
use crate::places::place_tree::PlaceTree;

/// Sets a flag, where it is wanted.
pub fn set_flag_if(is_wanted: bool, flags: &mut [bool], number: u32)
    requires { number < length flags.old }
    ensures { flags.new ≡ (if is_wanted then slice_set flags.old number true else flags.old) }
{
    if is_wanted {
        flags[number as usize] = true;
    }
}

// Sets the flag of the class above a place, if the place has another number than before and that class has two places
// and more. Says whether it did.
fn stir_place(
    family: &PlaceTree,
    order: &Partition,
    before: &[u32],
    place: u32,
    from: u32,
    flags: &mut [bool],
) -> bool
    requires place { place < length order.now.numbers }
    requires family { length family.now.place_parents ≡ length order.now.numbers }
    requires before { length before.now ≡ length order.now.numbers }
    requires parent { slice_index family.now.place_parents place < length order.now.numbers }
    requires above { slice_index order.now.numbers (slice_index family.now.place_parents place) < from }
    requires within { from ≤ length order.now.rows }
    requires flags { from ≤ length flags.old }
    ensures none { result ≡ false → is_class_start order.now.rows order.now.numbers
        (slice_index order.now.numbers (slice_index family.now.place_parents place)) from ≡ true
        → slice_index order.now.numbers place ≡ slice_index before.now place }
    ensures differs { result ≡ true → slice_index order.now.numbers place ≢ slice_index before.now place }
    ensures shared { result ≡ true → is_class_start order.now.rows order.now.numbers
        (slice_index order.now.numbers (slice_index family.now.place_parents place)) from ≡ true }
    ensures set { flags.new ≡ (if result then slice_set flags.old (slice_index order.now.numbers
        (slice_index family.now.place_parents place)) true else flags.old) }
{
    if order.number(place) == before[place as usize] {
        false
    } else {
        let above = order.number(family.parent(place));
        let is_class_start = order.is_class_start(above, from);
        set_flag_if(is_class_start, flags, above);
        is_class_start
    }
}

/// Sets the flag of each class of two places and more of which a member's child is in these rows and has another
/// number than before. Says whether there is any.
pub fn flag_dirty_parents(
    family: &PlaceTree,
    order: &Partition,
    before: &[u32],
    from: u32,
    to: u32,
    flags: &mut [bool],
) -> bool
    requires ordered { from ≤ to }
    requires within { to ≤ length order.now.rows }
    requires family { length family.now.place_parents ≡ length order.now.numbers }
    requires before { length before.now ≡ length order.now.numbers }
    requires parents { (k : ℕ) → from ≤ k → k < to → IsRow order.now.rows 0 (length order.now.rows)
        (slice_index family.now.place_parents (slice_index order.now.rows k)) }
    requires above { (k : ℕ) → from ≤ k → k < to → number_above family.now.place_parents order.now.rows order.now.numbers k
        < from }
    requires flags { from ≤ length flags.old }
    ensures dirty { StirsAbove family.now.place_parents order.now.rows before.now order.now.numbers from to flags.old flags.new }
    ensures none { result ≡ false → flags.new ≡ flags.old }
    ensures some { result ≡ true → (number : ℕ) × IsAbove family.now.place_parents order.now.rows before.now order.now.numbers from
        to number }
{
    let rows = order.rows();
    let mut any = false;
    for row in from..to {
        let is_stirred = stir_place(family, order, before, rows[row as usize], from, flags);
        any |= is_stirred;
    }
    any
}

/// Clears the flags of some rows.
pub fn clear_flags(flags: &mut [bool], from: u32, to: u32)
    requires ordered { from ≤ to }
    requires within { to ≤ length flags.old }
    ensures cleared { (row : ℕ) → from ≤ row → row < to → has_flag flags.new row ≡ false }
    ensures before { (row : ℕ) → row < from → has_flag flags.new row ≡ has_flag flags.old row }
    ensures behind { (row : ℕ) → to ≤ row → has_flag flags.new row ≡ has_flag flags.old row }
    ensures fewer { (row : ℕ) → has_flag flags.new row ≡ true → has_flag flags.old row ≡ true }
{
    for row in from..to {
        flags[row as usize] = false;
    }
}
