// Whether any descriptor is in branches that are unresolved.
ghost use Rattle.std.specs.Prelude.{◌≡◌, ◌<◌, true, false, length};
ghost use Rattle.cip_branches.specs.Deciding.{AreFollowed};
ghost use Rattle.cip_partition.specs.Keys.{AreKeyed};
ghost use Rattle.cip_rules.specs.DescriptorMap.{HaveNoDescriptors, HasSomeDescriptor};

use crate::descriptor_rules::descriptor_map::DescriptorMap;
use cip_branches::Branches;

/// Whether no descriptor is at any place of a branch that is unresolved.
pub fn has_no_descriptors<M: DescriptorMap>(branches: &Branches, descriptors: &M) -> bool
    requires followed { AreFollowed branches.now }
    requires keyed { AreKeyed (length (M.descriptors descriptors.now)) branches.now.layers.place_tree }
    ensures none { result ≡ true → HaveNoDescriptors (M.descriptors descriptors.now) branches.now }
    ensures some { result ≡ false → HasSomeDescriptor (M.descriptors descriptors.now) branches.now }
{
    let count = branches.count();
    for place in 0..count {
        if branches.is_unresolved(branches.branch(place))
            && descriptors.descriptor(branches.node(place)).is_some()
        {
            return false;
        }
    }
    true
}
