// Branches set aside, for pairs that are asked about once more.
ghost use Rattle.std.specs.Prelude.{◌≡◌, ◌≤◌, length};
ghost use Rattle.cip_branches.specs.Saving.{restored, saved_of};
ghost use Rattle.cip_constitution.specs.Aside.{Fits};

use crate::work::Work;
use cip_branches::Checkpoint;
use cip_digraph::BranchPair;

impl Work {
    /// Sets the branches aside as they are.
    pub fn save(&self, saved: &mut Checkpoint)
        requires { length self.now.branched.layers.place_tree.place_parents ≤ saved.old.room }
        ensures saved { saved.new ≡ saved_of saved.old.room self.now.branched }
        ensures count { length self.now.branched.layers.ranked.numbers ≡ length self.now.branched.layers.place_tree.place_parents }
    {
        self.branches.save(saved);
    }

    /// Lets the branches be as they were when they were set aside, and what was noted of the pairs then. No memory is
    /// taken.
    pub fn restore(&mut self, saved: &Checkpoint, noted: &[BranchPair])
        requires fits { Fits saved.now self.old.branched }
        requires len { length noted.now ≡ length self.old.noted }
        ensures { self.new ≡ record self.old { branched = restored saved.now self.old.branched; noted = noted.now } }
    {
        self.branches.restore(saved);
        self.noted.as_mut_slice().copy_from_slice(noted);
    }
}
