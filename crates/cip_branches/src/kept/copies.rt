// Branches doubled, for a rule that reads each of them twice.
ghost use Rattle.std.specs.Prelude.{◌≡◌, ◌<◌, ◌≤◌, ◌+◌, ◌^◌, ℕ, length, slice_index};
ghost use Rattle.cip_branches.specs.Deciding.{AreFollowed};
ghost use Rattle.cip_branches.specs.Twins.{twin_starts, twins_of, MayDouble};
ghost use Rattle.cip_partition.specs.PlaceTree.{IsFamily};
ghost use Rattle.cip_partition.specs.Twins.{twin_kin, twin_ranked};

use crate::branches::Branches;
use crate::growth::spheres::Spheres;

impl Spheres {
    // The places of others and their copies, in n spheres and one without places.
    fn write_copies(&mut self, from: &Spheres, kept: u32)
        requires room { length from.now.place_tree.place_parents + length from.now.place_tree.place_parents ≤ self.old.place_tree.room }
        requires some { 0 < length from.now.place_tree.place_parents }
        requires few { kept ≤ length from.now.place_tree.place_parents }
        requires kept { kept < length from.now.starts }
        ensures place_tree { self.new.place_tree ≡ twin_kin self.old.place_tree.room from.now.place_tree }
        ensures ranked { self.new.ranked ≡ twin_ranked self.old.place_tree.room (length from.now.place_tree.place_parents) from.now.ranked }
        ensures starts { self.new.starts ≡ twin_starts (length from.now.place_tree.place_parents) (kept + 1)
            (length from.now.ranked.rows) from.now.starts }
        ensures before { self.new.before ≡ self.new.ranked.numbers }
        ensures family { IsFamily from.now.place_tree }
        ensures rows_len { length from.now.ranked.rows ≤ length from.now.place_tree.place_parents }
        ensures numbers_len { length from.now.ranked.numbers ≡ length from.now.place_tree.place_parents }
        ensures below { (k : ℕ) → k < length from.now.ranked.rows → slice_index from.now.ranked.rows k
            < length from.now.place_tree.place_parents }
    {
        let count = from.len();
        self.family.write_copies(&from.family);
        self.order.write_copies(&from.order);
        self.before.copy(self.order.numbers());
        self.flags.fill(count + count, false);
        self.sets.fill(count + count, 0);
        let rows = from.order.row_count();
        let starts = &from.starts.as_slice()[..kept as usize + 1];
        self.starts.write_starts(count, starts, rows);
    }
}

impl Branches {
    /// Holds other branches and their copies: after all places the copy of each of them, and n branches after a
    /// branch its copy. Each place is its own node. A place and its copy have the same number.
    pub fn fill_copies(&mut self, from: &Branches)
        requires followed { AreFollowed from.now }
        requires some { 0 < length from.now.layers.place_tree.place_parents }
        requires room { length from.now.layers.place_tree.place_parents + length from.now.layers.place_tree.place_parents ≤ self.old.layers.place_tree.room }
        ensures twins { self.new ≡ twins_of self.old.layers.place_tree.room from.now }
        ensures followed { AreFollowed self.new }
        ensures may { MayDouble from.now }
        ensures few { length from.now.layers.place_tree.place_parents + length from.now.layers.place_tree.place_parents < 2 ^ 32 }
    {
        let count = from.len();
        let kept = count.min(from.last() + 1);
        self.spheres.write_copies(&from.spheres, kept);
        self.unresolved
            .write_unresolved(count, from.unresolved.as_slice());
        let branches = self.unresolved.len();
        self.next_unresolved.fill(branches, false);
        self.first = count + count;
        self.last = kept;
    }
}
