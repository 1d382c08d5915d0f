// How many places branches have.
ghost use Rattle.std.specs.Prelude.{◌≡◌, ◌<◌, ◌≤◌, ℕ, length, slice_index};
ghost use Rattle.cip_branches.specs.Deciding.{AreFollowed};
ghost use Rattle.cip_branches.specs.Turning.{in_sphere};
ghost use Rattle.cip_branches.specs.Twins.{MayDouble};
ghost use Rattle.cip_partition.specs.PlaceTree.{IsFamily};

use crate::branches::Branches;
use crate::growth::spheres::Spheres;

impl Spheres {
    // How many places there are; those in rows are among them.
    fn count(&self) -> u32
        ensures count { result ≡ length self.now.place_tree.place_parents }
        ensures below { (k : ℕ) → k < length self.now.ranked.rows → slice_index self.now.ranked.rows k < result }
        ensures family { IsFamily self.now.place_tree }
        ensures rows_len { length self.now.ranked.rows ≤ length self.now.place_tree.place_parents }
        ensures numbers_len { length self.now.ranked.numbers ≡ length self.now.place_tree.place_parents }
    {
        let _rows = self.order.row_count();
        self.family.len()
    }
}

impl Branches {
    /// How many places there are; those of all spheres are among them. Branches can be doubled.
    pub fn count(&self) -> u32
        requires followed { AreFollowed self.now }
        ensures count { result ≡ length self.now.layers.place_tree.place_parents }
        ensures below { (t place : ℕ) → in_sphere self.now.layers.ranked.rows self.now.layers.starts t place
            → place < result }
        ensures may { MayDouble self.now }
    {
        self.spheres.count()
    }
}
