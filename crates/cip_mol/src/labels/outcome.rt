// What is found of a stereogenic unit.
ghost use Rattle.std.specs.Prelude.{◌≡◌};
ghost use Rattle.cip_mol.specs.Letters.{rule_text};

use crate::labels::descriptor::Descriptor;
use crate::lists::places::Places;
use crate::site::Cause;
use std::fmt;

/// The rules of ranking. IUPAC 2013, P-92.
#[derive(Clone, Copy)]
pub enum Rule {
    R1a,
    R1b,
    R2,
    R3,
    R4a,
    R4b,
    R4c,
    R5,
}

impl Rule {
    /// How it is written.
    pub fn text(self) -> &'static str
        ensures { result.now ≡ rule_text self }
    {
        match self {
            Rule::R1a => "1a",
            Rule::R1b => "1b",
            Rule::R2 => "2",
            Rule::R3 => "3",
            Rule::R4a => "4a",
            Rule::R4b => "4b",
            Rule::R4c => "4c",
            Rule::R5 => "5",
        }
    }
}

impl fmt::Display for Rule {
    ghost use Rattle.std.specs.Prelude.{Some};
    ghost use Rattle.cip_mol.specs.Letters.{rule_text};

    ghost output = { λ rule. Some (rule_text rule) };

    fn fmt<W: fmt::Write>(&self, f: &mut fmt::Formatter<W>) -> fmt::Result {
        f.write_str(self.text())
    }
}

/// A label: the descriptor, the last rule that was needed, the greatest sphere in which it decided, and the places of
/// the ligands, highest first, those of the first end before those of the second.
#[derive(Drop)]
pub struct Label {
    pub letter: Descriptor,
    pub rule: Rule,
    pub sphere: u32,
    pub order: Places,
}

/// What is found of a unit: its label, that two ligands tie, that a digraph is larger than the bound, or that the
/// drawing shows no sense.
#[derive(Drop)]
pub enum Outcome {
    Label(Label),
    Tie,
    Over,
    NoGeometry(Cause),
}
