// Pairs of branches that are asked about, and what is decided between them.
ghost use Rattle.std.specs.Prelude.{◌≡◌};
ghost use Rattle.std.specs.List.{list_all};
ghost use Rattle.cip_digraph.specs.Asking.{is_decided};

use crate::decisions::decision::Decision;

/// Two branches, and what is decided between them.
#[derive(Clone, Copy, Default)]
pub struct BranchPair {
    pub first: u32,
    pub second: u32,
    pub decision: Option<Decision>,
}

/// Whether all pairs are decided.
pub fn all_decided(pairs: &[BranchPair]) -> bool
    ensures { result ≡ list_all is_decided pairs.now }
{
    for one in pairs {
        if one.decision.is_none() {
            return false;
        }
    }
    true
}
