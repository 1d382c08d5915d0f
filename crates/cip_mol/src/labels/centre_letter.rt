// The letters that can be asked of a centre.
ghost use Rattle.std.specs.Prelude.{◌≡◌};
ghost use Rattle.cip_mol.specs.CentreLetters.{asks_small, descriptor_of};

use crate::labels::descriptor::Descriptor;

/// A descriptor of a centre: `SmallR` is written r. IUPAC 2013, P-91.
#[derive(Clone, Copy, PartialEq, Eq)]
pub enum CentreLetter {
    R,
    S,
    SmallR,
    SmallS,
}

impl CentreLetter {
    /// The same among the descriptors of all kinds of units.
    pub fn descriptor(self) -> Descriptor
        ensures { result ≡ descriptor_of self }
    {
        match self {
            CentreLetter::R => Descriptor::R,
            CentreLetter::S => Descriptor::S,
            CentreLetter::SmallR => Descriptor::SmallR,
            CentreLetter::SmallS => Descriptor::SmallS,
        }
    }

    /// Whether it is r or s: the mirror image of such a centre has the same letter.
    pub fn is_small(self) -> bool
        ensures { result ≡ asks_small self }
    {
        matches!(self, CentreLetter::SmallR | CentreLetter::SmallS)
    }
}
