// Undefined units with how their ligands compare.
ghost use Rattle.std.specs.Prelude.{◌≡◌};

use cip_mol::{Places, ReadFault, Rule, Site};
use cip_print::UnitName;
use std::marker::Model;

/// How the ligands of a unit compare.
#[derive(Drop)]
pub enum State {
    /// They all differ: by the last rule that was needed, in its sphere; the ligands by their places, highest first.
    Open {
        rule: Rule,
        sphere: u32,
        order: Places,
    },
    /// Two tie, and drawing another undefined unit might distinguish them.
    Dependent,
    /// Two tie.
    Tie,
    /// A digraph is larger than the bound.
    Over,
}

/// A unit of which a drawing shows no sense, by its name. Ligands from the number `drawn` on are implicit hydrogens.
#[derive(Drop)]
pub struct UndefinedUnit {
    pub name: UnitName,
    pub site: Site,
    pub drawn: u32,
    pub state: State,
}

/// Undefined units in their order: centres, then bonds, then axes. Contracts see the list of them.
#[derive(Drop)]
pub struct UndefinedUnits {
    units: Vec<UndefinedUnit>,
}

impl Model for UndefinedUnits {
    ghost use Rattle.std.specs.Prelude.{List};
    ghost use Rattle.cip_undefined.specs.declared.unit.UndefinedUnit.{UndefinedUnit as AnyUnit};

    ghost Value = { List AnyUnit };

    ghost view = { λ units. units.units.items };
}

impl UndefinedUnits {
    pub(crate) fn of(units: Vec<UndefinedUnit>) -> UndefinedUnits
        ensures { result ≡ units.items }
    {
        UndefinedUnits { units }
    }

    /// The units, lent.
    pub fn as_slice(&self) -> &[UndefinedUnit]
        ensures { result.now ≡ self.now }
    {
        &self.units
    }
}

/// The answer to a record: its undefined units, or why it is refused.
#[derive(Drop)]
pub enum UndefinedAnswer {
    Listed(UndefinedUnits),
    Refused(ReadFault),
}
