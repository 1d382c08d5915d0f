// Branches that are distinct from all others.
ghost use Rattle.std.specs.Prelude.{◌≡◌, ◌<◌, ◌≤◌, true, false, length};
ghost use Rattle.cip_branches.specs.Closing.{TiesWith, IsOpen, FlagOpen};
ghost use Rattle.cip_branches.specs.Ruled.{WantsFewer};

use crate::growth::grow::flag_at;
use crate::growth::spheres::Spheres;

impl Spheres {
    // Whether the top of another unresolved branch has the same number.
    fn ties_with(&self, unresolved: &[bool], branch: u32, other: u32) -> bool
        requires branch { branch < length self.now.place_tree.place_parents }
        requires other { other < length unresolved.now }
        requires tops { length unresolved.now ≤ length self.now.place_tree.place_parents }
        ensures node_data { result ≡ true → TiesWith self.now.ranked.numbers unresolved.now branch other }
        ensures none { result ≡ false → TiesWith self.now.ranked.numbers unresolved.now branch other → ⊥ }
    {
        unresolved[other as usize]
            && other != branch
            && self.order.number(other) == self.order.number(branch)
    }

    // How many branches there are, each of which has its top.
    fn branch_count(&self, unresolved: &[bool]) -> u32
        requires { length unresolved.now ≤ length self.now.place_tree.place_parents }
        ensures { result ≡ length unresolved.now }
    {
        let places = self.family.len();
        places.min(unresolved.len() as u32)
    }

    // Whether a branch is unresolved, and ties with another one.
    fn is_open(&self, unresolved: &[bool], branch: u32) -> bool
        requires branch { branch < length self.now.place_tree.place_parents }
        requires tops { length unresolved.now ≤ length self.now.place_tree.place_parents }
        ensures node_data { result ≡ true → IsOpen self.now.ranked.numbers unresolved.now branch }
        ensures none { result ≡ false → IsOpen self.now.ranked.numbers unresolved.now branch → ⊥ }
    {
        if !flag_at(unresolved, branch) {
            return false;
        }
        // from both ends, where branches were doubled
        let count = self.branch_count(unresolved);
        for other in 0..count {
            if self.ties_with(unresolved, branch, other)
                || self.ties_with(unresolved, branch, count - 1 - other)
            {
                return true;
            }
        }
        false
    }

    /// Flags the branches that are unresolved further: those of which another unresolved one has the same order so far.
    pub fn flag_unresolved(&self, unresolved: &[bool], flags: &mut [bool])
        requires tops { length unresolved.now ≤ length self.now.place_tree.place_parents }
        requires len { length flags.old ≡ length unresolved.now }
        ensures flagged { FlagOpen self.now.ranked.numbers unresolved.now (length unresolved.now) flags.new }
        ensures fewer { WantsFewer unresolved.now flags.new }
    {
        for branch in 0..self.branch_count(unresolved) {
            flags[branch as usize] = self.is_open(unresolved, branch);
        }
    }
}
