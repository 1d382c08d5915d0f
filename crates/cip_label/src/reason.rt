// What was needed for a rank order.
ghost use Rattle.std.specs.Prelude.{◌≡◌, Some};
ghost use Rattle.std.specs.declared.cmp.Ordering.TheVariants.{Equal};
ghost use Rattle.cip_digraph.specs.units.Ranked.{last_reason, later_reason, turn_of};
ghost use Rattle.cip_label.specs.Labelling.{as_reason};
ghost use Rattle.cip_label.specs.Pairwise.{decided_along, decided_at};

use crate::decisions::decided_at;
use cip_digraph::Decision;
use cip_mol::{Places, Rule};

/// The last rule that was needed, and the greatest sphere in which it was.
#[derive(Clone, Copy)]
pub struct Reason {
    pub rule: Rule,
    pub sphere: u32,
}

/// What was needed for the places of n ligands in rank order, by what is decided between each two.
pub fn reason_along(decided: &[Option<Decision>], count: u32, places: &Places) -> Reason
    ensures { as_reason result ≡ last_reason (decided_along (decided_at count decided.now) places.now) }
{
    let mut reason = Reason {
        rule: Rule::R1a,
        sphere: 0,
    };
    for next in 1..places.len() {
        let above = *places.get(next - 1);
        let decision = decided_at(decided, count, above, *places.get(next));
        reason = with_decision(reason, decision);
    }
    reason
}

// The later of a reason and that of a decision.
fn with_decision(reason: Reason, decision: Option<Decision>) -> Reason
    ensures { as_reason result ≡ later_reason (as_reason reason) decision }
{
    match decision {
        Some(decision) => later_reason(reason, decision.rule, decision.sphere),
        None => reason,
    }
}

/// Of two reasons that by the later rule, and by the same rule the one further out.
pub fn later_reason(reason: Reason, rule: Rule, sphere: u32) -> Reason
    ensures { as_reason result ≡ later_reason (as_reason reason)
        (Some (record { side = Equal; rule = rule; sphere = sphere })) }
{
    let old = turn_of(reason.rule);
    let new = turn_of(rule);
    if old < new || (old == new && reason.sphere < sphere) {
        Reason { rule, sphere }
    } else {
        reason
    }
}

// The number of a rule in their order.
fn turn_of(rule: Rule) -> u8
    ensures { result ≡ turn_of rule }
{
    match rule {
        Rule::R1a => 0,
        Rule::R1b => 1,
        Rule::R2 => 2,
        Rule::R3 => 3,
        Rule::R4a => 4,
        Rule::R4b => 5,
        Rule::R4c => 6,
        Rule::R5 => 7,
    }
}
