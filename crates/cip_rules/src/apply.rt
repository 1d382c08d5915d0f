// One rule taken over branches, from the present numbers.
ghost use Rattle.std.specs.Prelude.{◌≡◌, ◌≤◌};
ghost use Rattle.std.specs.List.{list_all};
ghost use Rattle.cip_branches.specs.Deciding.{AreFollowed};
ghost use Rattle.cip_partition.specs.Keys.{AreKeyed};
ghost use Rattle.cip_digraph.specs.Asking.{is_decided};
ghost use Rattle.cip_rules.specs.Taking.{TakesRule, WantsNoMore};

use crate::recording::record_decisions;
use cip_branches::Branches;
use cip_digraph::{BranchPair, all_decided};
use cip_mol::Rule;
use cip_rank::Keyed;

/// Takes the next rule over branches depth by depth, until all pairs that are asked about are decided or the last sphere
/// is reached; and says whether all are decided. What is decided stays. No memory is taken.
pub fn apply_rule<K: Keyed>(
    branches: &mut Branches,
    keys: &K,
    rule: Rule,
    pairs: &mut [BranchPair],
) -> bool
    requires followed { AreFollowed branches.old }
    requires keyed { AreKeyed (K.nodes keys.now) branches.old.layers.place_tree }
    ensures taken { TakesRule branches.old (K.key keys.now) rule pairs.old branches.new pairs.new }
    ensures followed { AreFollowed branches.new }
    ensures all { result ≡ list_all is_decided pairs.new }
    ensures place_tree { branches.new.layers.place_tree ≡ branches.old.layers.place_tree }
    ensures unresolved { WantsNoMore branches.old branches.new }
{
    branches.next_rule(keys);
    record_decisions(branches, rule, 0, pairs);
    let last = branches.last();
    for far in 0..last {
        if all_decided(pairs) {
            return true;
        }
        branches.extend_rule(keys, far);
        record_decisions(branches, rule, far + 1, pairs);
    }
    all_decided(pairs)
}
