// What is found of a record.

use crate::unit_name::UnitName;
use cip_mol::{Outcome, ReadFault, Site};
use cip_text::List32;

/// A stereogenic unit of a record by its name, with what is found of it. Ligands from the number `drawn` on are
/// implicit hydrogens.
#[derive(Drop)]
pub struct UnitAnswer {
    pub name: UnitName,
    pub site: Site,
    pub drawn: u32,
    pub outcome: Outcome,
}

/// Units in their order: centres, then bonds, then axes.
pub type UnitAnswers = List32<UnitAnswer>;

/// The answer to a record: its units, or why it is refused.
#[derive(Drop)]
pub enum Answer {
    Labelled(UnitAnswers),
    Refused(ReadFault),
}
