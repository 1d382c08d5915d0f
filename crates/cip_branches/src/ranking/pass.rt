// A rule taken one sphere further.
ghost use Rattle.std.specs.Prelude.{◌≡◌, ◌<◌, ◌≤◌, ◌+◌, ℕ, suc, length, slice_index};
ghost use Rattle.cip_partition.specs.Kids.{kids_of};
ghost use Rattle.cip_branches.specs.Passing.{AreNotedBut, AreSteadyButNew, Passes};
ghost use Rattle.cip_partition.specs.Keys.{AreKeyed, key_of};
ghost use Rattle.cip_branches.specs.Turning.{in_sphere, AreSpheres, IsInnermost, SamePlaces, Stands};

use crate::growth::spheres::Spheres;
use cip_partition::Partition;
use cip_rank::Keyed;

// Notes the numbers of the places in these rows as those of before. Those of all other places are noted.
fn note_places(order: &Partition, from: u32, to: u32, before: &mut [u32])
    requires within { to ≤ length order.now.rows }
    requires len { length before.old ≡ length order.now.numbers }
    requires noted { AreNotedBut order.now.rows from to before.old order.now.numbers }
    ensures { before.new ≡ order.now.numbers }
{
    for row in from..to {
        let place = order.place(row);
        before[place as usize] = order.number(place);
    }
}

impl Spheres {
    /// Notes the numbers of the places in these rows as those of before. Those of all other places are noted.
    pub(crate) fn note_rows(&mut self, from: u32, to: u32)
        requires within { to ≤ length self.old.ranked.rows }
        requires noted { AreNotedBut self.old.ranked.rows from to self.old.before self.old.ranked.numbers }
        ensures { self.new ≡ record self.old { before = self.old.ranked.numbers } }
    {
        let noted = &mut self.before;
        note_places(&self.order, from, to, &mut noted.items);
    }

    /// Takes a rule one sphere further, to the one after `far`: splits its classes by keys, and refines the spheres
    /// further in. Says which one is the innermost of these that was looked at.
    pub fn pass<K: Keyed>(&mut self, keys: &K, far: u32, last: u32) -> u32
        requires far { far < last }
        requires last { last + 2 ≡ length self.old.starts }
        requires keyed { AreKeyed (K.nodes keys.now) self.old.place_tree }
        requires spheres { AreSpheres (kids_of self.old.place_tree) self.old.place_tree.place_parents self.old.ranked.rows self.old.starts last
            self.old.ranked.numbers }
        requires noted { AreNotedBut self.old.ranked.rows (slice_index self.old.starts (suc far))
            (slice_index self.old.starts (suc (suc far))) self.old.before self.old.ranked.numbers }
        requires steady { AreSteadyButNew (kids_of self.old.place_tree) (in_sphere self.old.ranked.rows self.old.starts) far
            self.old.place_tree.room self.old.before }
        ensures passed { Passes (kids_of self.old.place_tree) (in_sphere self.old.ranked.rows self.old.starts) far
            (key_of (K.key keys.now) self.old.place_tree) self.old.ranked.numbers self.new.ranked.numbers }
        ensures spheres { AreSpheres (kids_of self.old.place_tree) self.old.place_tree.place_parents self.new.ranked.rows self.old.starts last
            self.new.ranked.numbers }
        ensures places { SamePlaces self.old.ranked.rows self.new.ranked.rows self.old.starts }
        ensures before { self.new.before ≡ self.new.ranked.numbers }
        ensures inner { IsInnermost self.old.place_tree.place_parents self.old.ranked.rows self.old.starts result far self.old.before
            self.old.ranked.numbers self.new.ranked.numbers }
        ensures tops { 0 < result → Stands self.old.ranked.rows self.old.starts 0 self.old.ranked.numbers
            self.new.ranked.numbers }
        ensures others { self.new ≡ record self.old { ranked = self.new.ranked; before = self.new.before } }
        ensures room { self.new.ranked.room ≡ self.old.ranked.room }
    {
        let from = self.first_row(far + 1);
        let to = self.first_row(far + 2);
        self.split_sphere(keys, from, to);
        let inner = self.refine_inwards(far, last);
        let first = self.first_row(inner);
        self.note_rows(first, to);
        inner
    }
}
