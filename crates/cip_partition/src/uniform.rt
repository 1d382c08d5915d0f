// Spheres in which places that tie compare alike: parting their classes leaves them as they are.
ghost use Rattle.std.specs.Prelude.{◌≡◌, ◌<◌, ◌≤◌, ◌↔◌, true, length};
ghost use Rattle.std.specs.declared.cmp.Ordering.TheVariants.{Equal};
ghost use Rattle.cip_partition.specs.Parting.{TieAlike};
ghost use Rattle.cip_partition.specs.Rows.{AreClassed};

use crate::partition::Partition;
use cip_rank::sorting::NodeOrder;
use std::cmp::Ordering;

/// Whether the places of each class in the rows of a sphere compare alike.
pub fn is_uniform<S: NodeOrder>(by: &S, order: &Partition, from: u32, to: u32) -> bool
    requires ordered { from ≤ to }
    requires within { to ≤ length order.now.rows }
    requires nodes { S.nodes by.now ≡ length order.now.numbers }
    requires classed { AreClassed order.now.rows order.now.numbers from to }
    ensures { result ≡ true ↔ TieAlike (S.order by.now) order.now.rows order.now.numbers from to }
{
    for row in from..to {
        let place = order.place(row);
        let first = order.number(place);
        if first != row && by.compare_nodes(order.place(first), place) != Ordering::Equal {
            return false;
        }
    }
    true
}
