// Rule 5, taken both ways from the same numbers.
ghost use Rattle.std.specs.Prelude.{◌≡◌, ◌≤◌, length};
ghost use Rattle.cip_mol.specs.declared.labels.outcome.Rule.TheVariants.{R5};
ghost use Rattle.cip_branches.specs.Deciding.{AreFollowed};
ghost use Rattle.cip_partition.specs.Keys.{AreKeyed};
ghost use Rattle.cip_rules.specs.Taking.{TakesOnce, TakesRule};

use crate::apply::apply_rule;
use cip_branches::{Branches, Checkpoint};
use cip_digraph::BranchPair;
use cip_mol::Rule;
use cip_rank::Keyed;

/// Takes Rule 5 over branches by keys, and again by turned keys from the same numbers, which are set aside for it. Puts
/// into `turned` what is then decided between the same branches. No memory is taken.
pub fn apply_rule_5_both_ways<K: Keyed, T: Keyed>(
    branches: &mut Branches,
    saved: &mut Checkpoint,
    keys: &K,
    turned_keys: &T,
    pairs: &mut [BranchPair],
    turned: &mut [BranchPair],
)
    requires followed { AreFollowed branches.old }
    requires keyed { AreKeyed (K.nodes keys.now) branches.old.layers.place_tree }
    requires turned_keyed { AreKeyed (T.nodes turned_keys.now) branches.old.layers.place_tree }
    requires room { length branches.old.layers.place_tree.place_parents ≤ saved.old.room }
    requires len { length turned.old ≡ length pairs.old }
    ensures decided { TakesOnce branches.old (K.key keys.now) R5 pairs.old pairs.new }
    ensures turned { TakesRule branches.old (T.key turned_keys.now) R5 pairs.old branches.new turned.new }
    ensures followed { AreFollowed branches.new }
    ensures place_tree { branches.new.layers.place_tree ≡ branches.old.layers.place_tree }
    ensures room { saved.new.room ≡ saved.old.room }
{
    branches.save(saved);
    turned.copy_from_slice(pairs);
    apply_rule(branches, keys, Rule::R5, pairs);
    branches.restore(saved);
    apply_rule(branches, turned_keys, Rule::R5, turned);
}
