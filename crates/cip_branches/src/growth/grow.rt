// The next sphere, walked below the places of the last one.
ghost use Rattle.std.specs.Prelude.{◌≡◌, ◌<◌, ◌≤◌, ◌+◌, ◌^◌, suc, ℕ, Bool, true, false, List, length, slice_index};
ghost use Rattle.cip_branches.specs.ViewedTree.{kids_around};
ghost use Rattle.cip_partition.specs.Kids.{kids_of};
ghost use Rattle.cip_branches.specs.SphereColumns.{with_new_place, with_kids, with_sphere};
ghost use Rattle.cip_partition.specs.Parting.{has_flag};
ghost use Rattle.cip_branches.specs.Turning.{AreSpheres};
ghost use Rattle.cip_branches.specs.Walking.{IsWalked, LastPlaces, MayWalk};

use crate::growth::spheres::Spheres;
use crate::view::ViewedTree;

impl Spheres {
    /// How many places there are.
    pub fn len(&self) -> u32
        ensures count { result ≡ length self.now.place_tree.place_parents }
        ensures fits { length self.now.place_tree.place_parents ≤ self.now.place_tree.room }
        ensures few { self.now.place_tree.room + 1 < 2 ^ 32 }
    {
        self.family.len()
    }

    // Adds a place at the end, in a row of its own.
    pub(crate) fn push_place(&mut self, node: u32, branch: u32, parent_place: u32, number: u32)
        requires { length self.old.place_tree.place_parents < self.old.place_tree.room }
        ensures { self.new ≡ with_new_place node branch parent_place number self.old }
    {
        let none = self.before.room();
        self.family.push(node, branch, parent_place);
        self.order.push(number);
        self.before.push(none);
        self.flags.push(false);
        self.sets.push(0);
    }

    // Adds the neighbours that lead away from the node at a place, where the branch of the place is unresolved.
    fn walk_place_if(
        &mut self,
        around: &ViewedTree<'_>,
        unresolved: &[bool],
        place: u32,
        number: u32,
    )
        requires place { place < length self.old.place_tree.place_parents }
        requires node { slice_index self.old.place_tree.nodes place < length around.now.table.now.parents }
        requires room { length self.old.place_tree.place_parents + length (kids_around around.now.table.now.parents around.now.way.now
            (slice_index self.old.place_tree.nodes place)) ≤ self.old.place_tree.room }
        ensures walked { has_flag unresolved.now (slice_index self.old.place_tree.branches place) ≡ true
            → self.new ≡ with_kids (kids_around around.now.table.now.parents around.now.way.now
            (slice_index self.old.place_tree.nodes place)) place number self.old }
        ensures skipped { has_flag unresolved.now (slice_index self.old.place_tree.branches place) ≡ false
            → self.new ≡ self.old }
    {
        let branch = self.family.branch(place);
        if flag_at(unresolved, branch) {
            let node = self.family.node(place);
            let first = self.family.len();
            self.push_neighbours(around, node, branch, place, number);
            let count = self.family.len() - first;
            self.family.set_children(place, first, count);
        }
    }

    // Ends a sphere after all rows.
    pub(crate) fn end_sphere(&mut self)
        requires { length self.old.starts ≤ self.old.place_tree.room }
        ensures { self.new ≡ with_sphere self.old }
    {
        let row = self.order.row_count();
        self.starts.push(row);
    }

    /// Adds the next sphere: the neighbours that lead away from the nodes at the places from `first` on, which are
    /// those of the last sphere, where their branches are unresolved. All new places tie.
    pub fn grow_sphere(&mut self, around: &ViewedTree<'_>, unresolved: &[bool], first: u32)
        requires { (last : ℕ) × MayWalk (length around.now.table.now.parents) (kids_around
            around.now.table.now.parents around.now.way.now) unresolved.now first last self.old }
        ensures walked { IsWalked self.old first (length around.now.table.now.parents)
            (kids_around around.now.table.now.parents around.now.way.now) unresolved.now self.new }
        ensures spheres { (last : ℕ) → length self.old.starts ≡ last + 2 → AreSpheres (kids_of self.new.place_tree)
            self.new.place_tree.place_parents self.new.ranked.rows self.new.starts (suc last) self.new.ranked.numbers }
        ensures places { (last : ℕ) → length self.old.starts ≡ last + 2 → (others : List Bool)
            → LastPlaces self.new others (length self.old.place_tree.place_parents) (suc last) }
        ensures few { self.old.place_tree.room + 1 < 2 ^ 32 }
    {
        let _count = around.table.len();
        let number = self.order.row_count();
        let past = self.family.len();
        for place in first..past {
            self.walk_place_if(around, unresolved, place, number);
        }
        self.end_sphere();
    }
}

/// Whether a flag is set.
pub fn flag_at(flags: &[bool], number: u32) -> bool
    ensures { result ≡ has_flag flags.now number }
{
    (number as usize) < flags.len() && flags[number as usize]
}
