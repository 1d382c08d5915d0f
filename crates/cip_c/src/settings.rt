// What labels rest on.
ghost use Rattle.std.specs.Prelude.{◌≡◌, ◌≤◌, IfOk};
ghost use Rattle.cip_c.specs.Making.{settings_of};

use crate::status_codes::{BOUND_OUTSIDE, WORDING_UNKNOWN};
use cip_rank::Rules;

/// The largest bound on the nodes of a digraph.
pub(crate) const MOST_NODES: u32 = 1_000_000;

/// The bound on the nodes of a digraph, and the wording of Rule 1b.
#[derive(Clone, Copy)]
pub(crate) struct Settings {
    pub(crate) nodes: u32,
    pub(crate) rules: Rules,
}

/// The settings with this bound and the wording of this year.
pub(crate) fn settings_of(nodes: u32, year: u32) -> Result<Settings, i64>
    ensures settings { result ≡ settings_of nodes year }
    ensures some { IfOk result (λ settings. 1 ≤ settings.nodes) }
    ensures bounded { IfOk result (λ settings. settings.nodes ≤ 1000000) }
{
    if nodes == 0 || nodes > MOST_NODES {
        return Err(BOUND_OUTSIDE);
    }
    match year {
        2013 => Ok(Settings {
            nodes,
            rules: Rules::Wording2013,
        }),
        2018 => Ok(Settings {
            nodes,
            rules: Rules::Wording2018,
        }),
        _ => Err(WORDING_UNKNOWN),
    }
}
