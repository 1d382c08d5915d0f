//! A molfile in either version, and its structure.
//!
//! `read_molecule` chooses the reader by the version of the record. `Structure` is a molecule with its graph,
//! double-bond positions and units: `read` makes it of a record's lines, `of` of a molecule, and `release` drops it.
//! Uses the two readers, `cip_hydro`, `cip_mancude` and `cip_unit`.
#![tactic(auto)]

mod parse;
mod structure;

pub use parse::read_molecule;
pub use structure::Structure;
