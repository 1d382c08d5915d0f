// What is decided between two branches at the root, in either way.
ghost use Rattle.std.specs.Prelude.{◌≡◌, ◌<◌, ◌≤◌, ◌^◌, IfSome, length};
ghost use Rattle.cip_digraph.specs.Asking.{AreWithin};
ghost use Rattle.cip_tree.specs.Branches.{node_count};

use cip_arena::Arena;
use cip_aux::WholeDigraph;
use cip_aux_rank::LigandBranches;
use cip_digraph::{BranchPair, Decision, Nodes};
use cip_mol::Rule;
use cip_rank::Rules;
use cip_tree::{PlainTree, plain_order};
use std::alloc::{AllocError, Global};

// Two neighbours of the node that is looked from, by their branches.
#[tactic(auto, using(crate::proofs::lemmas::Within::branch_within))]
fn asked_between(nearer: &LigandBranches, one: u32, other: u32) -> Option<BranchPair>
    ensures { IfSome result (AreWithin (length nearer.now.tops)) }
{
    let first = nearer.branch(one)?;
    let second = nearer.branch(other)?;
    Some(BranchPair {
        first,
        second,
        decision: None,
    })
}

/// What a whole digraph decides by Rules 1a, 1b and 2 between two children of its root, by their places among all.
#[tactic(auto, using(cip_aux_rank::proofs::lemmas::AskedTops::asked_tops_are, crate::proofs::lemmas::Within::one_within))]
pub fn decide_whole(
    whole: &WholeDigraph<'_, Arena>,
    nearer: &mut LigandBranches,
    first: u32,
    second: u32,
) -> Option<Decision>
    requires some { 0 < length whole.now.node_data }
    requires room { length whole.now.node_data ≤ nearer.old.bound }
    ensures bound { nearer.new.bound ≡ nearer.old.bound }
{
    let (start, _) = whole.nodes().table().children(0);
    let one = start.saturating_add(first);
    let other = start.saturating_add(second);
    nearer.begin(whole, 0, &[Some(one), Some(other)]);
    let Some(pair) = asked_between(nearer, one, other) else {
        return None;
    };
    let mut requested = [pair];
    nearer.apply_constitutional_rules(whole, 0, &mut requested);
    requested[0].decision
}

/// What is decided in boxes between two branches by their places among all; none beyond them.
pub fn decide_plain(
    alloc: Global,
    tree: &PlainTree,
    rules: Rules,
    first: u32,
    second: u32,
) -> Result<Option<Decision>, AllocError>
    requires { node_count tree.now < 2 ^ 32 }
{
    let branches = tree.children().len();
    if first as usize >= branches || second as usize >= branches {
        return Ok(None);
    }
    plain_order(alloc, tree, rules, first, second)
}

/// A decision between two as it is from the other one.
pub fn reversed(decision: Option<Decision>) -> Option<Decision> {
    let decision = decision?;
    Some(Decision {
        side: decision.side.reverse(),
        rule: decision.rule,
        sphere: decision.sphere,
    })
}

/// Whether it is the same rule that decides in the same sphere in the same way.
pub fn is_same(one: Option<Decision>, other: Option<Decision>) -> bool {
    match (one, other) {
        (None, None) => true,
        (Some(one), Some(other)) => {
            one.side == other.side
                && one.sphere == other.sphere
                && is_same_rule(one.rule, other.rule)
        }
        _ => false,
    }
}

fn is_same_rule(one: Rule, other: Rule) -> bool {
    matches!(
        (one, other),
        (Rule::R1a, Rule::R1a) | (Rule::R1b, Rule::R1b) | (Rule::R2, Rule::R2)
    )
}
