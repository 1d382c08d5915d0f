// What a rule decides between branches of nodes of any kind.
ghost use Rattle.std.specs.Prelude.{◌≡◌, ◌≤◌, ◌+◌, ◌^◌, ℕ, false, length, map, true};
ghost use Rattle.std.specs.Cmp.{IsTotalOrder};
ghost use Rattle.std.specs.List.{AllByRecursion};
ghost use Rattle.cip_mol.specs.declared.labels.outcome.Rule.TheVariants.{R4b};
ghost use Rattle.cip_digraph.specs.rules.Orders.{Seen, rule_4a};
ghost use Rattle.cip_rank.specs.Comparison.{comparison};
ghost use Rattle.cip_partition.specs.Keys.{AreKeyed};
ghost use Rattle.cip_branches.specs.Deciding.{AreFollowed};
ghost use Rattle.cip_branches.specs.Standing.{node_in, AreKeysOf, StandsBy, WantedIn};
ghost use Rattle.cip_branches.specs.Views.{IsEnded};
ghost use Rattle.cip_digraph.specs.Asking.{AreWithin, with_found};
ghost use Rattle.cip_rules.specs.DescriptorMap.{AreDescriptorsOf};
ghost use Rattle.cip_rules.specs.Orders.{decided_by, found_below};

use crate::apply::apply_rule;
use crate::descriptor_rules::descriptor_map::DescriptorMap;
use crate::rule_4b::{Rule4bWorkspace, take_both};
use cip_branches::{Branches, NodeKeys};
use cip_digraph::BranchPair;
use cip_mol::Rule;

/// Takes a later rule over branches that are ordered by the order before it and have ended. What is noted of two of
/// them is the first depth at which they differ by the rule.
pub fn apply_rule_to_nodes<K: NodeKeys>(
    branches: &mut Branches,
    keys: &K,
    rule: Rule,
    pairs: &mut [BranchPair],
) -> bool
    requires followed { AreFollowed branches.old }
    requires keyed { AreKeyed (K.nodes keys.now) branches.old.layers.place_tree }
    requires total { IsTotalOrder (K.earlier keys.now) }
    requires same { AreKeysOf (K.named keys.now) (K.node_key keys.now) (K.key keys.now) branches.old }
    requires stands { StandsBy (K.children keys.now) (K.named keys.now) (K.earlier keys.now) branches.old }
    requires ended { IsEnded (K.children keys.now) (node_in (K.named keys.now) branches.old) (WantedIn branches.old)
        branches.old.last }
    requires within { AllByRecursion (AreWithin (length branches.old.unresolved)) pairs.old }
    ensures found { pairs.new ≡ map (with_found (found_below rule (comparison (K.children keys.now)
        (K.earlier keys.now) (K.node_key keys.now)) (node_in (K.named keys.now) branches.old)
        (branches.old.last + 1))) pairs.old }
    ensures stands { result ≡ false → StandsBy (K.children keys.now) (K.named keys.now) (comparison
        (K.children keys.now) (K.earlier keys.now) (K.node_key keys.now) branches.old.last) branches.new }
    ensures followed { AreFollowed branches.new }
{
    apply_rule(branches, keys, rule, pairs)
}

/// Descriptors by number, of nodes of any kind: which node a number names, and the digraph in which it is seen.
pub trait NodeDescriptors: DescriptorMap {
    /// What is in the digraph.
    ghost Node: { Type 0 };

    ghost seen: { Self → Seen Node };

    /// The node of a number.
    ghost named: { Self → ℕ → Node };
}

/// What Rule 4b decides between branches that are ordered by Rule 4a and have ended.
pub fn apply_rule_4b_to_nodes<M: NodeDescriptors>(
    branches: &Branches,
    readings: &mut Rule4bWorkspace,
    descriptors: &M,
    pairs: &mut [BranchPair],
)
    requires followed { AreFollowed branches.now }
    requires keyed { AreKeyed (length (M.descriptors descriptors.now)) branches.now.layers.place_tree }
    requires room { length branches.now.layers.place_tree.place_parents ≤ readings.old.bound }
    requires same { AreDescriptorsOf (M.named descriptors.now) (M.seen descriptors.now).descriptor (M.descriptors descriptors.now) branches.now }
    requires stands { StandsBy (M.seen descriptors.now).children (M.named descriptors.now)
        (rule_4a (M.seen descriptors.now) (M.seen descriptors.now).height) branches.now }
    requires ended { IsEnded (M.seen descriptors.now).children (node_in (M.named descriptors.now) branches.now)
        (WantedIn branches.now) branches.now.last }
    requires tall { branches.now.last ≤ (M.seen descriptors.now).height }
    requires within { AllByRecursion (AreWithin (length branches.now.unresolved)) pairs.old }
    ensures found { pairs.new ≡ map (with_found (decided_by (M.seen descriptors.now) true R4b
        (node_in (M.named descriptors.now) branches.now))) pairs.old }
    ensures bound { readings.new.bound ≡ readings.old.bound }
{
    take_both(branches, readings, descriptors, pairs);
}
