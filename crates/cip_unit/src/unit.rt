// A unit with what the drawing shows of it.
ghost use Rattle.std.specs.Prelude.{◌≡◌, ◌++◌, ◌∷◌, [], OnOk, length};
ghost use Rattle.cip_mol.specs.Sites.{IsSite};
ghost use Rattle.cip_unit.specs.Sites.{units_at};

use cip_digraph::Units;
use cip_mol::{Molecule, Site, Unit};
use cip_orient::orient_ends;
use std::alloc::AllocError;

/// Adds the unit of a site.
pub fn push_unit(molecule: &Molecule, site: Site, units: &mut Units) -> Result<(), AllocError>
    requires { IsSite (length molecule.now.atoms) site }
    ensures { OnOk result (units.new ≡ units.old ++ units_at molecule.now (site ∷ [])) }
{
    let geometry = orient_ends(molecule, &site.ends());
    units.push(Unit { site, geometry })
}
