// The classes of one sphere.
ghost use Rattle.std.specs.Prelude.{◌≡◌, ◌≤◌, length};
ghost use Rattle.cip_partition.specs.Parting.{FlagHeads, PartsSphere};
ghost use Rattle.cip_partition.specs.Rows.{AreClassed};

use crate::partition::Partition;
use cip_rank::sorting::NodeOrder;

/// Parts each class of a sphere that has a flag.
pub fn split_classes<S: NodeOrder>(
    by: &S,
    order: &mut Partition,
    from: u32,
    to: u32,
    flags: &[bool],
)
    requires ordered { from ≤ to }
    requires within { to ≤ length order.old.rows }
    requires flags { to ≤ length flags.now }
    requires nodes { S.nodes by.now ≡ length order.old.numbers }
    requires classed { AreClassed order.old.rows order.old.numbers from to }
    requires heads { FlagHeads order.old.rows order.old.numbers from to flags.now }
    ensures parted { PartsSphere (S.order by.now) from to to flags.now order.old.rows order.new.rows order.old.numbers
        order.new.numbers }
    ensures room { order.new.room ≡ order.old.room }
{
    let mut row = from;
    while row < to {
        if flags[row as usize] {
            let past = order.class_end(row, to);
            order.split_class(by, row, past);
            row = past;
        } else {
            row += 1;
        }
    }
}
