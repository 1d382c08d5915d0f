// How the ranks of a unit's ligands turn its sense.
ghost use Rattle.std.specs.Prelude.{◌≡◌};
ghost use Rattle.cip_digraph.specs.units.Descriptors.{is_odd};
ghost use Rattle.cip_digraph.specs.TurnsOf.{together};

/// Whether a sense is turned, with R and with S first in the last rule.
#[derive(Clone, Copy)]
pub struct Parity {
    pub natural: bool,
    pub turned: bool,
}

/// Those of both ends together.
pub fn combine(one: Parity, other: Parity) -> Parity
    ensures { result ≡ together one other }
{
    Parity {
        natural: one.natural != other.natural,
        turned: one.turned != other.turned,
    }
}

/// Whether a number is odd.
#[tactic(auto, using(crate::proofs::lemmas::Odd::odd_is))]
pub fn is_odd(number: usize) -> bool
    ensures { result ≡ is_odd number }
{
    number % 2 == 1
}
