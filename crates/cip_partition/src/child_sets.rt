// The order of places by the sets of their children.
ghost use Rattle.std.specs.Prelude.{◌≡◌, ◌<◌, ◌≤◌, ℕ, length, map, slice_index};
ghost use Rattle.std.specs.Ordering.{nat_cmp, on};
ghost use Rattle.std.specs.Cmp.Lexicographic.{slice_cmp};
ghost use Rattle.cip_partition.specs.Kids.{kids_of, HoldKidSets, KnowTheirKids};
ghost use Rattle.cip_partition.specs.Rows.{number_in};

use crate::partition::Partition;
use crate::places::place_tree::PlaceTree;
use cip_rank::child_sets::{compare_sets, write_sorted};
use cip_rank::sorting::NodeOrder;
use std::cmp::Ordering;

/// By sets that were written at the places of children.
#[derive(Drop)]
pub struct ByChildSets<'a> {
    pub family: &'a PlaceTree,
    pub sets: &'a [u32],
    ghost len: { length sets.now ≡ length family.now.place_parents },
}

impl ByChildSets<'_> {
    // The numbers of a place's children, highest first.
    fn set(&self, place: u32) -> &[u32]
        requires { place < length self.now.family.now.place_parents }
        ensures { result.now ≡ map (slice_index self.now.sets.now) (kids_of self.now.family.now place) }
    {
        let (first, past) = self.family.children(place);
        &self.sets[first as usize..past as usize]
    }
}

impl NodeOrder for ByChildSets<'_> {
    ghost use Rattle.std.proofs.lemmas.Cmp.{on_total, nat_cmp_total, lists_total};

    ghost nodes = { λ by. length by.family.now.place_parents };

    ghost order = { λ by. on (λ place. map (slice_index by.sets.now) (kids_of by.family.now place))
        (slice_cmp nat_cmp) };

    fn count(&self) -> u32 {
        self.family.len()
    }

    // Compares two places by the numbers of their children.
    fn compare_nodes(&self, a: u32, b: u32) -> Ordering {
        compare_sets(self.set(a), self.set(b))
    }

    ghost total = { λ by. on_total (λ place. map (slice_index by.sets.now) (kids_of by.family.now place))
        (lists_total nat_cmp_total) };
}

/// Writes the sets of the places in some rows whose class has a flag.
pub fn write_child_sets(
    family: &PlaceTree,
    order: &Partition,
    from: u32,
    to: u32,
    flags: &[bool],
    sets: &mut [u32],
)
    requires within { to ≤ length order.now.rows }
    requires flags { (k : ℕ) → from ≤ k → k < to → number_in order.now.rows order.now.numbers k < length flags.now }
    requires family { length family.now.place_parents ≡ length order.now.numbers }
    requires known { KnowTheirKids (kids_of family.now) family.now.place_parents order.now.rows from to }
    requires sets { length sets.old ≡ length order.now.numbers }
    ensures { HoldKidSets (kids_of family.now) order.now.rows order.now.numbers from to flags.now sets.new }
{
    for row in from..to {
        let place = order.place(row);
        if flags[order.number(place) as usize] {
            let (first, past) = family.children(place);
            write_sorted(order.numbers(), sets, first as usize, past as usize);
        }
    }
}
