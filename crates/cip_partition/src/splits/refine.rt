// One sphere refined by the numbers of the next one.
ghost use Rattle.std.specs.Prelude.{◌≡◌, ◌≤◌, false, length};
ghost use Rattle.cip_partition.specs.Kids.{kids_of, by_kids, AreCalm, KnowTheirKids};
ghost use Rattle.cip_partition.specs.Parting.{FlagHeads, KeepsSphere, has_flag};
ghost use Rattle.cip_partition.specs.Rows.{IsRow, AreClassed, OrdersPlaces};

use crate::child_sets::{ByChildSets, write_child_sets};
use crate::partition::Partition;
use crate::places::place_tree::PlaceTree;
use crate::splits::split::split_classes;

/// Refines a sphere whose classes are clean but for those with a flag.
pub fn refine_sphere(
    family: &PlaceTree,
    order: &mut Partition,
    from: u32,
    to: u32,
    flags: &[bool],
    sets: &mut [u32],
)
    requires ordered { from ≤ to }
    requires within { to ≤ length order.old.rows }
    requires flags { to ≤ length flags.now }
    requires family { length family.now.place_parents ≡ length order.old.numbers }
    requires known { KnowTheirKids (kids_of family.now) family.now.place_parents order.old.rows from to }
    requires sets { length sets.old ≡ length order.old.numbers }
    requires classed { AreClassed order.old.rows order.old.numbers from to }
    requires heads { FlagHeads order.old.rows order.old.numbers from to flags.now }
    requires calm { AreCalm (kids_of family.now) (IsRow order.old.rows from to)
        (λ number. has_flag flags.now number ≡ false) order.old.numbers }
    ensures ordered { OrdersPlaces (IsRow order.old.rows from to) (by_kids (kids_of family.now) order.old.numbers)
        order.new.numbers }
    ensures kept { KeepsSphere from to order.old.rows order.new.rows order.old.numbers order.new.numbers }
    ensures room { order.new.room ≡ order.old.room }
{
    write_child_sets(family, order, from, to, flags, sets);
    let by = ByChildSets { family, sets };
    split_classes(&by, order, from, to, flags);
}
