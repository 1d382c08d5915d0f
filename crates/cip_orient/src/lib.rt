//! What a drawing shows of a stereogenic unit: its sense, or the cause for none.
//!
//! `orient` reads the sense of a site from coordinates in space, or from wedges and directions in the plane; a wedge
//! counts at its narrow end. `orient_ends` does the same by the ends of a site. Both look at the bonds of the unit's
//! atoms alone and don't allocate. Uses `cip_mol` for molecules and `cip_num` for signs.
#![tactic(auto)]

mod axis;
mod bond;
mod centre;
mod coordinates;
mod drawn_ligands;
mod flat_axis;
mod flat_centre;
mod marks;
mod pairs;
mod site;

pub use drawn_ligands::drawn_atoms;
pub use marks::is_crossed;
pub use site::{orient, orient_ends};
