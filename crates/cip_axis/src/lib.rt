//! Further stereogenic units: cumulenes of three double bonds or more, and biaryl axes.
//!
//! `further` lists the `FurtherUnits` of a molecule, each with what the drawing shows of it. `label_further` labels one
//! as the double bond or the axis that it is like (`to_site`). `specs/` has the conditions, which are a choice of this
//! project where IUPAC leaves one. Uses the labeller of `cip_label` and the rings of `cip_ring` and `cip_mancude`.
#![tactic(auto)]

mod axis_context;
mod biaryls;
mod chains;
mod count_three;
mod cumulenes;
mod further_units;
mod hindrance;
mod label;
mod site;
mod units;

pub use further_units::further;
pub use label::label_further;
pub use site::{FurtherSite, FurtherUnit, to_site};
pub use units::FurtherUnits;
