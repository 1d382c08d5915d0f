// How the ligands of a root compare.
ghost use Rattle.std.specs.Prelude.{◌≡◌};
ghost use Rattle.cip_label.specs.Pairwise.{between};
ghost use Rattle.cip_label.specs.BranchComparison.{reversed};

use crate::root_ranker::RootRanker;
use cip_digraph::Decision;
use cip_mol::{Ligand, Rule};
use std::cmp::Ordering;

/// How two ligands compare; none where they tie. A lone pair is below every branch.
pub fn compare_branches<D: RootRanker>(
    digraphs: &D,
    one: Ligand,
    other: Ligand,
    r_first: bool,
) -> Option<Decision>
    ensures { result ≡ between (D.standing digraphs.now) r_first one other }
{
    match (one, other) {
        (Ligand::LonePair, Ligand::LonePair) => None,
        (Ligand::LonePair, Ligand::Vertex(_)) => Some(against_lone_pair(Ordering::Less)),
        (Ligand::Vertex(_), Ligand::LonePair) => Some(against_lone_pair(Ordering::Greater)),
        (Ligand::Vertex(a), Ligand::Vertex(b)) => digraphs.compare_branches(a, b, r_first),
    }
}

/// A decision between two as it is from the other one.
pub fn reversed(decision: Option<Decision>) -> Option<Decision>
    ensures { result ≡ reversed decision }
{
    match decision {
        Some(decision) => Some(Decision {
            side: decision.side.reverse(),
            rule: decision.rule,
            sphere: decision.sphere,
        }),
        None => None,
    }
}

// The decision between a ligand and a lone pair: by Rule 1a, in sphere 1.
fn against_lone_pair(side: Ordering) -> Decision
    ensures { result ≡ record { side = side; rule = Rule.R1a; sphere = 1 } }
{
    Decision {
        side,
        rule: Rule::R1a,
        sphere: 1,
    }
}
