// Branches begun, and a rule taken with each sphere that is walked.
ghost use Rattle.std.specs.Prelude.{◌≡◌, ◌<◌, ◌≤◌, ◌+◌, ◌^◌, suc, ℕ, Bool, List, length, slice_index};
ghost use Rattle.cip_branches.specs.ViewedTree.{kids_around};
ghost use Rattle.cip_branches.specs.Following.{AreRanked, Begins, Follows};
ghost use Rattle.cip_branches.specs.SphereColumns.{begun_with, cleared};
ghost use Rattle.cip_partition.specs.Keys.{AreKeyed};
ghost use Rattle.cip_branches.specs.Walking.{LastPlaces, MayWalk};

use crate::growth::spheres::Spheres;
use crate::view::ViewedTree;
use cip_rank::Keyed;

impl Spheres {
    // Drops all places, and keeps the memory.
    fn clear(&mut self)
        ensures cleared { self.new ≡ cleared self.old }
        ensures few { self.old.place_tree.room + 1 < 2 ^ 32 }
    {
        self.family.clear();
        self.order.clear();
        self.starts.clear();
        self.before.clear();
        self.flags.clear();
        self.sets.clear();
    }

    // Begins anew with a first sphere, which has the node at the top of each branch. All of them tie.
    fn start(&mut self, tops: &[u32])
        requires room { length tops.now ≤ self.old.place_tree.room }
        requires some { 0 < self.old.place_tree.room }
        ensures { self.new ≡ begun_with tops.now self.old }
    {
        self.clear();
        self.end_sphere();
        for (branch, node) in tops.iter().enumerate() {
            self.push_place(*node, branch as u32, 0, 0);
        }
        self.end_sphere();
    }

    /// Begins anew with a first sphere, which has the node at the top of each branch, and ranks it by keys.
    pub fn begin<K: Keyed>(&mut self, tops: &[u32], keys: &K)
        requires room { length tops.now ≤ self.old.place_tree.room }
        requires some { 0 < self.old.place_tree.room }
        requires keyed { (k : ℕ) → k < length tops.now → slice_index tops.now k < K.nodes keys.now }
        ensures begun { Begins tops.now (K.key keys.now) self.new }
        ensures room { self.new.place_tree.room ≡ self.old.place_tree.room }
        ensures ranked { AreRanked self.new 0 }
        ensures places { (unresolved : List Bool) → LastPlaces self.new unresolved 0 0 }
    {
        self.start(tops);
        let count = self.order.row_count();
        self.split_sphere(keys, 0, count);
        self.note_rows(0, count);
    }

    /// Follows a tree by one sphere: walks on below unresolved branches, whose last places are those from `first` on,
    /// and takes a rule as far by keys.
    pub fn follow<K: Keyed>(
        &mut self,
        around: &ViewedTree<'_>,
        keys: &K,
        unresolved: &[bool],
        first: u32,
        last: u32,
    )
        requires ranked { AreRanked self.old last }
        requires walk { MayWalk (length around.now.table.now.parents) (kids_around around.now.table.now.parents
            around.now.way.now) unresolved.now first last self.old }
        requires keyed { length around.now.table.now.parents ≤ K.nodes keys.now }
        requires nodes { AreKeyed (K.nodes keys.now) self.old.place_tree }
        ensures followed { Follows self.old first last (length around.now.table.now.parents)
            (kids_around around.now.table.now.parents around.now.way.now) unresolved.now (K.key keys.now) self.new }
        ensures ranked { AreRanked self.new (suc last) }
        ensures places { (others : List Bool) → LastPlaces self.new others (length self.old.place_tree.place_parents) (suc last) }
    {
        self.grow_sphere(around, unresolved, first);
        self.pass(keys, last, last + 1);
    }
}
