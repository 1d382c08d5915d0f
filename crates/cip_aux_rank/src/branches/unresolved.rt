// The branches that are unresolved: where they lead, and how many places are in them.
ghost use Rattle.std.specs.Prelude.{◌≡◌, ◌<◌, ◌^◌, ℕ, true, false, length, slice_index};
ghost use Rattle.cip_partition.specs.Parting.{has_flag};
ghost use Rattle.cip_aux_rank.specs.LigandBranches.{LeadsElsewhere};

use cip_branches::Branches;

/// Whether the tops of all branches that are unresolved are after a node.
pub fn are_children(branches: &Branches, tops: &[u32], node: u32) -> bool
    requires few { length tops.now < 2 ^ 32 }
    ensures behind { result ≡ true → (branch : ℕ) → branch < length tops.now
        → has_flag branches.now.unresolved branch ≡ true → node < slice_index tops.now branch }
    ensures elsewhere { result ≡ false → LeadsElsewhere branches.now.unresolved tops.now node }
{
    for branch in 0..tops.len() as u32 {
        if tops[branch as usize] <= node && branches.is_unresolved(branch) {
            return false;
        }
    }
    true
}

/// How many places are in branches that are unresolved.
pub fn unresolved_place_count(branches: &Branches) -> u32 {
    let mut count = 0_u32;
    for place in 0..branches.len() {
        if branches.is_unresolved(branches.branch(place)) {
            count = count.saturating_add(1);
        }
    }
    count
}
