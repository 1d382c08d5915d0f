// A later rule, over the present places.
ghost use Rattle.std.specs.Prelude.{◌≡◌, ◌<◌, ◌+◌, ◌^◌, ◌↔◌, ℕ, true, false, length};
ghost use Rattle.cip_branches.specs.Deciding.{AreFollowed, FlagsOpen};
ghost use Rattle.cip_branches.specs.Following.{AreRanked};
ghost use Rattle.cip_partition.specs.Keys.{AreKeyed};
ghost use Rattle.cip_branches.specs.Taking.{SplitsFirst, Deepens};
ghost use Rattle.cip_branches.specs.Turning.{AreStirred, Stands};

use crate::branches::Branches;
use crate::growth::spheres::Spheres;
use cip_rank::Keyed;

impl Spheres {
    // Splits the classes of the first sphere by keys.
    fn split_first<K: Keyed>(&mut self, keys: &K)
        requires ranked { (last : ℕ) × AreRanked self.old last }
        requires keyed { AreKeyed (K.nodes keys.now) self.old.place_tree }
        ensures split { SplitsFirst self.old (K.key keys.now) self.new }
        ensures ranked { (last : ℕ) → AreRanked self.old last → AreRanked self.new last }
    {
        let from = self.first_row(0);
        let to = self.first_row(1);
        self.split_sphere(keys, from, to);
        self.note_rows(from, to);
    }

    // Takes a rule to the sphere after `far`. Says whether that reached the first one. Where places that tie have the
    // same keys, as most do in later rules, all spheres are unchanged.
    fn extend_rule<K: Keyed>(&mut self, keys: &K, far: u32, last: u32) -> bool
        requires ranked { AreRanked self.old last }
        requires far { far < last }
        requires keyed { AreKeyed (K.nodes keys.now) self.old.place_tree }
        ensures deeper { Deepens self.old far (K.key keys.now) self.new }
        ensures ranked { AreRanked self.new last }
        ensures reached { result ≡ true ↔ AreStirred self.old.place_tree.place_parents self.old.ranked.rows self.old.starts 0 far
            self.old.ranked.numbers self.old.ranked.numbers self.new.ranked.numbers }
        ensures tops { result ≡ false → Stands self.old.ranked.rows self.old.starts 0 self.old.ranked.numbers
            self.new.ranked.numbers }
    {
        let from = self.first_row(far + 1);
        let to = self.first_row(far + 2);
        if self.stands_by(keys, from, to) {
            false
        } else {
            self.pass(keys, far, last) == 0
        }
    }
}

impl Branches {
    /// Goes on with the next rule, from the present numbers: splits the first sphere by its keys, and drops the
    /// branches that are distinguished now.
    pub fn next_rule<K: Keyed>(&mut self, keys: &K)
        requires followed { AreFollowed self.old }
        requires keyed { AreKeyed (K.nodes keys.now) self.old.layers.place_tree }
        ensures split { SplitsFirst self.old.layers (K.key keys.now) self.new.layers }
        ensures followed { AreFollowed self.new }
        ensures chosen { FlagsOpen self.new.layers.ranked.numbers self.old.unresolved self.new.unresolved }
        ensures others { self.new ≡ record self.old { layers = self.new.layers; unresolved = self.new.unresolved } }
    {
        self.spheres.split_first(keys);
        self.drop_distinct();
    }

    /// Takes a rule that was taken as far as a sphere to the one after, and drops the branches that are
    /// distinguished now.
    pub fn extend_rule<K: Keyed>(&mut self, keys: &K, far: u32)
        requires followed { AreFollowed self.old }
        requires far { far < self.old.last }
        requires keyed { AreKeyed (K.nodes keys.now) self.old.layers.place_tree }
        ensures deeper { Deepens self.old.layers far (K.key keys.now) self.new.layers }
        ensures followed { AreFollowed self.new }
        ensures chosen { FlagsOpen self.new.layers.ranked.numbers self.old.unresolved self.new.unresolved }
        ensures others { self.new ≡ record self.old { layers = self.new.layers; unresolved = self.new.unresolved } }
    {
        if self.spheres.extend_rule(keys, far, self.last) {
            self.drop_distinct();
        }
    }

    /// The last sphere that was followed.
    pub fn last(&self) -> u32
        requires followed { AreFollowed self.now }
        ensures last { result ≡ self.now.last }
        ensures few { result + 2 < 2 ^ 32 }
    {
        let _count = self.spheres.starts.len();
        self.last
    }
}
