// One sphere split by keys.
ghost use Rattle.std.specs.Prelude.{◌≡◌, ◌≤◌, ◌↔◌, true, length};
ghost use Rattle.std.specs.Ordering.{int_cmp, then_cmp, on};
ghost use Rattle.cip_rank.specs.Ranking.{by_number};
ghost use Rattle.cip_partition.specs.Parting.{FlagClasses, KeepsSphere, TieAlike};
ghost use Rattle.cip_partition.specs.Keys.{AreKeyed, key_of};
ghost use Rattle.cip_partition.specs.Rows.{IsRow, AreClassed, OrdersPlaces};
ghost use Rattle.cip_partition.specs.Stirring.{NoFlags};

use crate::growth::spheres::Spheres;
use cip_partition::{ByKeys, Partition, clear_flags, is_uniform, set_flag_if, split_classes};
use cip_rank::Keyed;

// Sets the flag of each class of two places and more.
fn flag_classes(order: &Partition, from: u32, to: u32, flags: &mut [bool])
    requires ordered { from ≤ to }
    requires within { to ≤ length order.now.rows }
    requires flags { to ≤ length flags.old }
    requires none { NoFlags flags.old }
    ensures { FlagClasses order.now.rows order.now.numbers from to to flags.new }
{
    for row in from..to {
        let is_unresolved = order.is_class_start(row, to);
        set_flag_if(is_unresolved, flags, row);
    }
}

impl Spheres {
    /// Whether the places that tie in the rows `from` to `to` of a sphere have the same keys.
    pub(crate) fn stands_by<K: Keyed>(&self, keys: &K, from: u32, to: u32) -> bool
        requires ordered { from ≤ to }
        requires within { to ≤ length self.now.ranked.rows }
        requires classed { AreClassed self.now.ranked.rows self.now.ranked.numbers from to }
        requires keyed { AreKeyed (K.nodes keys.now) self.now.place_tree }
        ensures { result ≡ true ↔ TieAlike (on (key_of (K.key keys.now) self.now.place_tree) int_cmp) self.now.ranked.rows
            self.now.ranked.numbers from to }
    {
        let family = &self.family;
        let by = ByKeys { family, keys };
        is_uniform(&by, &self.order, from, to)
    }

    /// Splits the classes of the sphere in the rows `from` to `to` by keys.
    pub(crate) fn split_sphere<K: Keyed>(&mut self, keys: &K, from: u32, to: u32)
        requires ordered { from ≤ to }
        requires within { to ≤ length self.old.ranked.rows }
        requires classed { AreClassed self.old.ranked.rows self.old.ranked.numbers from to }
        requires keyed { AreKeyed (K.nodes keys.now) self.old.place_tree }
        ensures split { OrdersPlaces (IsRow self.old.ranked.rows from to) (then_cmp (by_number self.old.ranked.numbers)
            (on (key_of (K.key keys.now) self.old.place_tree) int_cmp)) self.new.ranked.numbers }
        ensures kept { KeepsSphere from to self.old.ranked.rows self.new.ranked.rows self.old.ranked.numbers
            self.new.ranked.numbers }
        ensures others { self.new ≡ record self.old { ranked = self.new.ranked } }
        ensures room { self.new.ranked.room ≡ self.old.ranked.room }
    {
        let flags = &mut self.flags;
        flag_classes(&self.order, from, to, &mut flags.items);
        let family = &self.family;
        let by = ByKeys { family, keys };
        split_classes(&by, &mut self.order, from, to, &flags.items);
        clear_flags(&mut flags.items, from, to);
    }
}
