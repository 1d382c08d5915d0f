// Rules 3 to 5 in turn, after Rule 2.
ghost use Rattle.std.specs.Prelude.{◌≡◌, ◌≤◌, ℕ, true, false, length, map, List};
ghost use Rattle.std.specs.List.{list_all, AllByRecursion};
ghost use Rattle.cip_mol.specs.declared.labels.outcome.Rule.TheVariants.{R3, R4b, R4c, R5};
ghost use Rattle.cip_digraph.specs.digraph.Digraph.{Node};
ghost use Rattle.cip_digraph.specs.rules.Decisions.{order};
ghost use Rattle.cip_digraph.specs.rules.Orders.{Seen, rule_2};
ghost use Rattle.cip_branches.specs.Deciding.{AreFollowed};
ghost use Rattle.cip_partition.specs.Keys.{AreKeyed};
ghost use Rattle.cip_digraph.specs.declared.decisions.branch_pair.BranchPair.{BranchPair as AnyAsked};
ghost use Rattle.cip_digraph.specs.Asking.{AreWithin, is_decided, with_found};
ghost use Rattle.cip_rules.specs.Configuring.{DecidesOn};
ghost use Rattle.cip_rules.specs.Counting.{AppliesDescriptorRule, AppliesDescriptorRuleOnce};
ghost use Rattle.cip_rules.specs.Deciding.{AreDecidedBy};
ghost use Rattle.cip_rules.specs.DescriptorMap.{AreDescriptorsOf};
ghost use Rattle.cip_rules.specs.Orders.{rules_before};
ghost use Rattle.cip_rules.specs.Taking.{AreSame, WantsNoMore};

use crate::apply::apply_rule;
use crate::descriptor_rules::any_descriptor::any_descriptor_counts;
use crate::descriptor_rules::descriptor_keys::DescriptorKeys;
use crate::descriptor_rules::descriptor_map::DescriptorMap;
use crate::descriptor_rules::no_descriptors::has_no_descriptors;
use crate::recording::record_decisions;
use crate::rule_4b::{Rule4bWorkspace, apply_rule_4b};
use crate::rule_5::apply_rule_5_both_ways;
use cip_branches::Branches;
use cip_digraph::{BranchPair, all_decided};
use cip_mol::Rule;

// One of the rules that look at descriptors, which isn't Rule 4b. Where none counts, numbers and branches are
// unchanged.
fn apply_descriptor_rule<M: DescriptorMap>(
    branches: &mut Branches,
    descriptors: &M,
    rule: Rule,
    pairs: &mut [BranchPair],
) -> bool
    requires followed { AreFollowed branches.old }
    requires keyed { AreKeyed (length (M.descriptors descriptors.now)) branches.old.layers.place_tree }
    ensures taken { AppliesDescriptorRule (M.descriptors descriptors.now) true rule branches.old pairs.old branches.new pairs.new }
    ensures followed { AreFollowed branches.new }
    ensures all { result ≡ list_all is_decided pairs.new }
    ensures place_tree { branches.new.layers.place_tree ≡ branches.old.layers.place_tree }
    ensures unresolved { WantsNoMore branches.old branches.new }
{
    if any_descriptor_counts(branches, descriptors, rule) {
        let keys = DescriptorKeys {
            rule,
            r_first: true,
            descriptors,
        };
        apply_rule(branches, &keys, rule, pairs)
    } else {
        record_decisions(branches, rule, 0, pairs);
        all_decided(pairs)
    }
}

// Rules 3 and 4a.
fn decide_before_readings<M: DescriptorMap>(
    branches: &mut Branches,
    descriptors: &M,
    pairs: &mut [BranchPair],
) -> bool
    requires followed { AreFollowed branches.old }
    requires keyed { AreKeyed (length (M.descriptors descriptors.now)) branches.old.layers.place_tree }
    ensures decided { DecidesOn (M.descriptors descriptors.now) R3 R4b branches.old pairs.old branches.new pairs.new }
    ensures followed { AreFollowed branches.new }
    ensures all { result ≡ list_all is_decided pairs.new }
    ensures place_tree { branches.new.layers.place_tree ≡ branches.old.layers.place_tree }
    ensures same { AreSame branches.old branches.new }
    ensures unresolved { WantsNoMore branches.old branches.new }
{
    apply_descriptor_rule(branches, descriptors, Rule::R3, pairs)
        || apply_descriptor_rule(branches, descriptors, Rule::R4a, pairs)
}

// All rules before the last one: 3 and 4a, 4b and 4c.
fn decide_before_last<M: DescriptorMap>(
    branches: &mut Branches,
    readings: &mut Rule4bWorkspace,
    descriptors: &M,
    pairs: &mut [BranchPair],
) -> bool
    requires followed { AreFollowed branches.old }
    requires keyed { AreKeyed (length (M.descriptors descriptors.now)) branches.old.layers.place_tree }
    requires room { length branches.old.layers.place_tree.place_parents ≤ readings.old.bound }
    ensures decided { DecidesOn (M.descriptors descriptors.now) R3 R5 branches.old pairs.old branches.new pairs.new }
    ensures followed { AreFollowed branches.new }
    ensures all { result ≡ list_all is_decided pairs.new }
    ensures place_tree { branches.new.layers.place_tree ≡ branches.old.layers.place_tree }
    ensures same { AreSame branches.old branches.new }
    ensures unresolved { WantsNoMore branches.old branches.new }
    ensures bound { readings.new.bound ≡ readings.old.bound }
{
    if decide_before_readings(branches, descriptors, pairs) {
        true
    } else {
        apply_rule_4b(branches, readings, descriptors, pairs);
        all_decided(pairs) || apply_descriptor_rule(branches, descriptors, Rule::R4c, pairs)
    }
}

// Rule 5, both ways.
fn decide_last<M: DescriptorMap>(
    branches: &mut Branches,
    readings: &mut Rule4bWorkspace,
    descriptors: &M,
    pairs: &mut [BranchPair],
    turned: &mut [BranchPair],
)
    requires followed { AreFollowed branches.old }
    requires keyed { AreKeyed (length (M.descriptors descriptors.now)) branches.old.layers.place_tree }
    requires room { length branches.old.layers.place_tree.place_parents ≤ readings.old.bound }
    requires len { length turned.old ≡ length pairs.old }
    ensures decided { AppliesDescriptorRuleOnce (M.descriptors descriptors.now) true R5 branches.old pairs.old pairs.new }
    ensures turned { AppliesDescriptorRuleOnce (M.descriptors descriptors.now) false R5 branches.old pairs.old turned.new }
    ensures place_tree { branches.new.layers.place_tree ≡ branches.old.layers.place_tree }
    ensures same { AreSame branches.old branches.new }
    ensures bound { readings.new.bound ≡ readings.old.bound }
{
    if any_descriptor_counts(branches, descriptors, Rule::R5) {
        let keys = DescriptorKeys {
            rule: Rule::R5,
            r_first: true,
            descriptors,
        };
        let turned_keys = DescriptorKeys {
            rule: Rule::R5,
            r_first: false,
            descriptors,
        };
        apply_rule_5_both_ways(
            branches,
            &mut readings.saved,
            &keys,
            &turned_keys,
            pairs,
            turned,
        );
    } else {
        record_decisions(branches, Rule::R5, 0, pairs);
        turned.copy_from_slice(pairs);
    }
}

/// Takes Rules 3 to 5 in turn over branches that are ordered by Rule 2, by the descriptors of their nodes, each only as
/// far as a pair is undecided. Kind R has precedence in Rule 5; what is decided between the same branches where kind S
/// has it comes into `turned`. If there is no descriptor they decide nothing. What is decided stays. No memory is
/// taken.
pub fn decide_configuration<M: DescriptorMap>(
    branches: &mut Branches,
    readings: &mut Rule4bWorkspace,
    descriptors: &M,
    pairs: &mut [BranchPair],
    turned: &mut [BranchPair],
)
    requires followed { AreFollowed branches.old }
    requires keyed { AreKeyed (length (M.descriptors descriptors.now)) branches.old.layers.place_tree }
    requires room { length branches.old.layers.place_tree.place_parents ≤ readings.old.bound }
    requires len { length turned.old ≡ length pairs.old }
    ensures decided { (seen : Seen Node) (named node : ℕ → Node) (count : ℕ) (begin : List AnyAsked)
        → AllByRecursion (AreWithin count) begin
        → AreDecidedBy seen true named node count begin (rules_before R3) (rule_2 seen seen.height) branches.old
        pairs.old
        → AreDescriptorsOf named seen.descriptor (M.descriptors descriptors.now) branches.old
        → (pairs.new ≡ map (with_found (λ a b. order seen true (node a) (node b))) begin)
        × (turned.new ≡ map (with_found (λ a b. order seen false (node a) (node b))) begin) }
    ensures place_tree { branches.new.layers.place_tree ≡ branches.old.layers.place_tree }
    ensures same { AreSame branches.old branches.new }
    ensures bound { readings.new.bound ≡ readings.old.bound }
{
    if has_no_descriptors(branches, descriptors) {
        turned.copy_from_slice(pairs);
    } else if decide_before_last(branches, readings, descriptors, pairs) {
        turned.copy_from_slice(pairs);
    } else {
        decide_last(branches, readings, descriptors, pairs, turned);
    }
}
