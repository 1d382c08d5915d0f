// Whether any descriptor counts for a rule, in branches that are unresolved.
ghost use Rattle.std.specs.Prelude.{◌≡◌, ◌≢◌, ◌<◌, true, false, length, pos, slice_index};
ghost use Rattle.cip_branches.specs.Deciding.{AreFollowed};
ghost use Rattle.cip_partition.specs.Parting.{has_flag};
ghost use Rattle.cip_partition.specs.Keys.{AreKeyed};
ghost use Rattle.cip_rules.specs.Counting.{AreUncounted, IsSomeCounted, key_of_descriptor_at};

use crate::descriptor_rules::descriptor_keys::descriptor_value;
use crate::descriptor_rules::descriptor_map::DescriptorMap;
use cip_branches::Branches;
use cip_mol::Rule;

// Whether the node at a place counts, and its branch is unresolved.
fn is_counted<M: DescriptorMap>(
    branches: &Branches,
    descriptors: &M,
    rule: Rule,
    place: u32,
) -> bool
    requires place { place < length branches.now.layers.place_tree.place_parents }
    requires keyed { AreKeyed (length (M.descriptors descriptors.now)) branches.now.layers.place_tree }
    ensures none { result ≡ false
        → has_flag branches.now.unresolved (slice_index branches.now.layers.place_tree.branches place) ≡ true
        → key_of_descriptor_at (M.descriptors descriptors.now) true rule branches.now place ≡ pos 0 }
    ensures unresolved { result ≡ true
        → has_flag branches.now.unresolved (slice_index branches.now.layers.place_tree.branches place) ≡ true }
    ensures counts { result ≡ true → key_of_descriptor_at (M.descriptors descriptors.now) true rule branches.now place ≢ pos 0 }
{
    descriptor_value(rule, true, descriptors.descriptor(branches.node(place))) != 0
        && branches.is_unresolved(branches.branch(place))
}

/// Whether the node at some place of a branch that is unresolved counts for a rule. Where none does, all keys are
/// alike, and the rule parts nothing.
pub fn any_descriptor_counts<M: DescriptorMap>(
    branches: &Branches,
    descriptors: &M,
    rule: Rule,
) -> bool
    requires followed { AreFollowed branches.now }
    requires keyed { AreKeyed (length (M.descriptors descriptors.now)) branches.now.layers.place_tree }
    ensures none { result ≡ false → AreUncounted (M.descriptors descriptors.now) true rule branches.now }
    ensures some { result ≡ true → IsSomeCounted (M.descriptors descriptors.now) true rule branches.now }
{
    let count = branches.count();
    for place in 0..count {
        if is_counted(branches, descriptors, rule, place) {
            return true;
        }
    }
    false
}
