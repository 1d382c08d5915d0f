// The order of two ligands by constitution.
ghost use Rattle.std.specs.Prelude.{◌≡◌, ◌<◌, ◌+◌, ◌^◌, IfOk, length};
ghost use Rattle.cip_rank.specs.Comparison.{comparison};
ghost use Rattle.cip_digraph.specs.rules.Decisions.{first_difference};
ghost use Rattle.cip_tree.specs.Branches.{children as branches_below, height};
ghost use Rattle.cip_tree.specs.BranchKeys.{key_of};
ghost use Rattle.cip_tree.specs.BoxedOrder.{decided_by, plain_decision};

use crate::comparing::{AllTie, BranchOrder, ByKey, Key};
use crate::tree::PlainTree;
use cip_digraph::Decision;
use cip_mol::Rule;
use cip_rank::Rules;
use std::alloc::{AllocError, Global};
use std::cmp::Ordering;

/// How two children of the root compare by Rules 1a, 1b and 2, by their places among its children; none where they tie.
/// Each sphere of a decision fits 32 bits.
pub fn plain_order(
    alloc: Global,
    tree: &PlainTree,
    rules: Rules,
    a: u32,
    b: u32,
) -> Result<Option<Decision>, AllocError>
    requires first { a < length (branches_below tree.now) }
    requires second { b < length (branches_below tree.now) }
    requires shallow { height tree.now + 1 < 2 ^ 32 }
    ensures { IfOk result (λ decision. decision ≡ plain_decision rules tree.now a b) }
{
    let height = tree.height();
    let one = &tree.children()[a as usize];
    let other = &tree.children()[b as usize];
    let rule_1a = ByKey {
        earlier: AllTie,
        key: Key::Atomic,
        height,
    };
    if let Some(decision) = first_decision(alloc, &rule_1a, Rule::R1a, one, other)? {
        return Ok(Some(decision));
    }
    let rule_1b = ByKey {
        earlier: rule_1a,
        key: Key::Distance(rules),
        height,
    };
    if let Some(decision) = first_decision(alloc, &rule_1b, Rule::R1b, one, other)? {
        return Ok(Some(decision));
    }
    let rule_2 = ByKey {
        earlier: rule_1b,
        key: Key::Mass,
        height,
    };
    first_decision(alloc, &rule_2, Rule::R2, one, other)
}

// What a rule decides, by the nearest sphere in which it finds a difference.
fn first_decision<E: BranchOrder>(
    alloc: Global,
    order: &ByKey<E>,
    rule: Rule,
    one: &PlainTree,
    other: &PlainTree,
) -> Result<Option<Decision>, AllocError>
    requires { order.now.height + 1 < 2 ^ 32 }
    ensures { IfOk result (λ decision. decision ≡ decided_by rule (first_difference (λ depth. comparison branches_below
        (E.order order.now.earlier) (key_of order.now.key) depth one.now other.now) 0 (order.now.height + 1))) }
{
    for depth in 0..order.height + 1 {
        match order.at(alloc, depth, one, other)? {
            Ordering::Equal => {}
            side => {
                return Ok(Some(Decision {
                    side,
                    rule,
                    sphere: depth + 1,
                }));
            }
        }
    }
    Ok(None)
}
