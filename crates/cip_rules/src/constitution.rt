// Rules 1b and 2 in turn, after Rule 1a.
ghost use Rattle.std.specs.Prelude.{◌≡◌, ◌∷◌, [], ℕ, true, List};
ghost use Rattle.std.specs.List.{list_all, AllByRecursion};
ghost use Rattle.cip_mol.specs.declared.labels.outcome.Rule.TheVariants.{R1a};
ghost use Rattle.cip_digraph.specs.digraph.Digraph.{Node};
ghost use Rattle.cip_digraph.specs.rules.Orders.{Seen, rule_1a};
ghost use Rattle.cip_branches.specs.Deciding.{AreFollowed};
ghost use Rattle.cip_partition.specs.Keys.{AreKeyed};
ghost use Rattle.cip_branches.specs.Standing.{AreKeysOf};
ghost use Rattle.cip_digraph.specs.declared.decisions.branch_pair.BranchPair.{BranchPair as AnyAsked};
ghost use Rattle.cip_digraph.specs.Asking.{AreWithin, is_decided};
ghost use Rattle.cip_rules.specs.Deciding.{AreDecidedBy, AreOfConstitution};
ghost use Rattle.cip_rules.specs.Taking.{WantsNoMore};

use crate::apply::apply_rule;
use cip_branches::Branches;
use cip_digraph::BranchPair;
use cip_mol::Rule;
use cip_rank::Keyed;

/// Takes Rules 1b and 2 in turn over branches that are ordered by Rule 1a, by these keys, each only as far as a pair is
/// undecided; and says whether all pairs are decided. What is decided stays. No memory is taken.
pub fn decide_constitution<D: Keyed, M: Keyed>(
    branches: &mut Branches,
    distances: &D,
    masses: &M,
    pairs: &mut [BranchPair],
) -> bool
    requires followed { AreFollowed branches.old }
    requires distances_keyed { AreKeyed (D.nodes distances.now) branches.old.layers.place_tree }
    requires masses_keyed { AreKeyed (M.nodes masses.now) branches.old.layers.place_tree }
    ensures decided { (seen : Seen Node) (named node : ℕ → Node) (count : ℕ) (begin : List AnyAsked)
        → AllByRecursion (AreWithin count) begin
        → AreDecidedBy seen true named node count begin (R1a ∷ []) (rule_1a seen seen.height) branches.old pairs.old
        → AreKeysOf named seen.distance (D.key distances.now) branches.old
        → AreKeysOf named seen.mass (M.key masses.now) branches.old
        → AreOfConstitution seen named node count begin branches.new pairs.new }
    ensures followed { AreFollowed branches.new }
    ensures all { result ≡ list_all is_decided pairs.new }
    ensures place_tree { branches.new.layers.place_tree ≡ branches.old.layers.place_tree }
    ensures unresolved { WantsNoMore branches.old branches.new }
{
    apply_rule(branches, distances, Rule::R1b, pairs)
        || apply_rule(branches, masses, Rule::R2, pairs)
}
