// Branches ranked by the calls whose contracts speak of nodes.
ghost use Rattle.std.specs.Prelude.{◌≡◌, ◌<◌, true, length};
ghost use Rattle.cip_mol.specs.declared.labels.outcome.Rule.TheVariants.{R1b, R3, R4b};
ghost use Rattle.cip_rules.specs.Orders.{is_keyed, order_by};
ghost use Rattle.cip_branches.specs.Deciding.{AreFollowed};
ghost use Rattle.cip_branches.specs.Standing.{StandsBy};
ghost use Rattle.gate_branches.specs.Digraphs.{AreRankedFirst, AreRankedBefore, itself, seen_of};

use crate::digraphs::{RuleKeys, SmallDigraph};
use crate::readiness::{are_keyed, have_ended, may_begin, may_decide, may_follow};
use crate::trees::ROOM;
use cip_branches::Branches;
use cip_digraph::BranchPair;
use cip_mol::Rule;
use cip_rules::{Rule4bWorkspace, apply_rule_4b_to_nodes, apply_rule_to_nodes, record_decisions};

/// Begins with a branch below each of these nodes, by Rule 1a, and says whether that could be done.
pub fn begin(branches: &mut Branches, digraph: &SmallDigraph<'_>, tops: &[u32]) -> bool
    ensures { result ≡ true → AreRankedFirst digraph.now branches.new }
{
    if !may_begin(branches, digraph, tops) {
        return false;
    }
    let keys = RuleKeys {
        digraph,
        rule: Rule::R1a,
    };
    branches.begin_by(tops, &keys);
    true
}

/// Follows branches n spheres by Rule 1a, or as far as there is room, and notes what it decides between pairs.
pub fn follow(
    branches: &mut Branches,
    digraph: &SmallDigraph<'_>,
    depth: u32,
    pairs: &mut [BranchPair],
)
    requires { AreRankedFirst digraph.now branches.old }
    ensures { AreRankedFirst digraph.now branches.new }
{
    let keys = RuleKeys {
        digraph,
        rule: Rule::R1a,
    };
    record_decisions(branches, Rule::R1a, 0, pairs);
    for _ in 0..depth {
        if !may_follow(branches, digraph) {
            return;
        }
        branches.follow_by(digraph.around, &keys);
        record_decisions(branches, Rule::R1a, branches.last(), pairs);
    }
}

/// Whether branches are ordered by Rule 1a as deep as the digraph is.
pub fn are_ranked(branches: &Branches, digraph: &SmallDigraph<'_>) -> bool
    requires { AreRankedFirst digraph.now branches.now }
    ensures { result ≡ true → AreRankedBefore digraph.now R1b branches.now }
{
    have_ended(branches, digraph)
}

/// Takes Rule 1b over branches, one sphere after another.
pub fn take_by_spheres(branches: &mut Branches, digraph: &SmallDigraph<'_>)
    requires { AreRankedBefore digraph.now R1b branches.old }
{
    let keys = RuleKeys {
        digraph,
        rule: Rule::R1b,
    };
    if !are_keyed(branches, digraph) {
        return;
    }
    branches.next_rule_by(&keys);
    let last = branches.last();
    for far in 0..last {
        if !are_keyed(branches, digraph) {
            return;
        }
        branches.deepen_by(&keys, far);
    }
}

// Takes a rule over branches, to decide between pairs, and says whether one of them is undecided still.
fn take_rule(
    branches: &mut Branches,
    digraph: &SmallDigraph<'_>,
    rule: Rule,
    pairs: &mut [BranchPair],
) -> bool
    requires keyed { is_keyed rule ≡ true }
    requires ranked { AreRankedBefore digraph.now rule branches.old }
    ensures followed { AreFollowed branches.new }
    ensures stands { result ≡ true → StandsBy (seen_of digraph.now).children itself (order_by (seen_of digraph.now)
        true rule digraph.now.height) branches.new }
{
    if !may_decide(branches, digraph, pairs) {
        return false;
    }
    let keys = RuleKeys { digraph, rule };
    !apply_rule_to_nodes(branches, &keys, rule, pairs)
}

// Takes Rules 1b and 2.
fn take_constitution(
    branches: &mut Branches,
    digraph: &SmallDigraph<'_>,
    pairs: &mut [BranchPair],
) -> bool
    requires { AreRankedBefore digraph.now R1b branches.old }
    ensures { result ≡ true → AreRankedBefore digraph.now R3 branches.new }
{
    take_rule(branches, digraph, Rule::R1b, pairs) && take_rule(branches, digraph, Rule::R2, pairs)
}

// Takes Rules 3 and 4a.
fn take_descriptors(
    branches: &mut Branches,
    digraph: &SmallDigraph<'_>,
    pairs: &mut [BranchPair],
) -> bool
    requires { AreRankedBefore digraph.now R3 branches.old }
    ensures { result ≡ true → AreRankedBefore digraph.now R4b branches.new }
{
    take_rule(branches, digraph, Rule::R3, pairs) && take_rule(branches, digraph, Rule::R4a, pairs)
}

// Takes Rule 4b.
fn take_reference(
    branches: &Branches,
    readings: &mut Rule4bWorkspace,
    digraph: &SmallDigraph<'_>,
    pairs: &mut [BranchPair],
)
    requires ranked { AreRankedBefore digraph.now R4b branches.now }
    requires descriptors { length digraph.now.descriptors ≡ length digraph.now.parents }
    requires room { readings.old.bound ≡ ROOM }
{
    if branches.len() <= ROOM && may_decide(branches, digraph, pairs) {
        apply_rule_4b_to_nodes(branches, readings, digraph, pairs);
    }
}

/// Takes Rules 1b to 4b in turn over branches, as long as a pair is undecided.
pub fn take_in_turn(
    branches: &mut Branches,
    readings: &mut Rule4bWorkspace,
    digraph: &SmallDigraph<'_>,
    pairs: &mut [BranchPair],
)
    requires ranked { AreRankedBefore digraph.now R1b branches.old }
    requires descriptors { length digraph.now.descriptors ≡ length digraph.now.parents }
    requires room { readings.old.bound ≡ ROOM }
{
    if take_constitution(branches, digraph, pairs) {
        if take_descriptors(branches, digraph, pairs) {
            take_reference(branches, readings, digraph, pairs);
        }
    }
}
