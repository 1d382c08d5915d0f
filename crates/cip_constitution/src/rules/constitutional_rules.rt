// Rules 1b and 2 over the present branches, as far as the last sphere.
ghost use Rattle.std.specs.Prelude.{◌≡◌, ◌≤◌, ◌<◌, length};
ghost use Rattle.cip_branches.specs.Deciding.{AreFollowed};
ghost use Rattle.cip_partition.specs.Keys.{AreKeyed};
ghost use Rattle.cip_branches.specs.Saving.{saved_of};
ghost use Rattle.cip_constitution.specs.Alike.{TakesWhole, TakesBoth};
ghost use Rattle.cip_mol.specs.declared.labels.outcome.Rule.{Rule as AnyRule};

use cip_arena::Arena;
use cip_branches::{Branches, Checkpoint};
use cip_rank::{Keyed, Rules};
use cip_rules::{ByDistance, ByMass};

// Takes a rule over branches by keys. No memory is taken.
fn take_whole<K: Keyed>(branches: &mut Branches, keys: &K)
    requires followed { AreFollowed branches.old }
    requires keyed { AreKeyed (K.nodes keys.now) branches.old.layers.place_tree }
    ensures whole { (rule : AnyRule) → TakesWhole branches.old (K.key keys.now) rule branches.new }
    ensures followed { AreFollowed branches.new }
    ensures place_tree { branches.new.layers.place_tree ≡ branches.old.layers.place_tree }
{
    branches.next_rule(keys);
    let last = branches.last();
    for far in 0..last {
        branches.extend_rule(keys, far);
    }
}

/// Takes Rules 1b and 2, and sets aside how the branches were.
pub fn apply_both(branches: &mut Branches, saved: &mut Checkpoint, arena: &Arena, rules: Rules)
    requires followed { AreFollowed branches.old }
    requires keyed { AreKeyed (length arena.now.nodes) branches.old.layers.place_tree }
    requires room { length branches.old.layers.place_tree.place_parents ≤ saved.old.room }
    ensures taken { TakesBoth branches.old rules arena.now.nodes branches.new }
    ensures saved { saved.new ≡ saved_of saved.old.room branches.old }
    ensures count { length branches.old.layers.ranked.numbers ≡ length branches.old.layers.place_tree.place_parents }
{
    branches.save(saved);
    take_whole(
        branches,
        &ByDistance {
            nodes: arena,
            rules,
        },
    );
    take_whole(branches, &ByMass { nodes: arena });
}
