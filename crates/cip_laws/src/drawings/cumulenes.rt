// Chains of double bonds.
ghost use Rattle.cip_laws.specs.CumuleneLaws.{ChainsAreListed};

/// Each chain of at least three cumulated double bonds, none of them in a ring, with such ends is listed once as a
/// cumulene, and nothing else is.
pub fn chains_are_listed()
    ensures { ChainsAreListed }
{}
