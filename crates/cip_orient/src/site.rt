// What a drawing shows of a stereogenic unit.
ghost use Rattle.std.specs.Prelude.{◌≡◌, length};
ghost use Rattle.cip_mol.specs.Ends.{as_site};
ghost use Rattle.cip_mol.specs.Geometry.{geometry_of};
ghost use Rattle.cip_mol.specs.declared.ends.Ends.TheVariants.{Two};
ghost use Rattle.cip_mol.specs.Sites.{IsSite};

use crate::axis::show_axis;
use crate::bond::show_bond;
use crate::centre::show_centre;
use cip_mol::{Ends, Geometry, Molecule, Shape, Site, TwoEnds};
use std::alloc::Global;

/// The sense of a unit, or the first cause that holds why the drawing shows none. CTfile Formats, the meaning of marks.
/// It takes no memory, also not of this allocator, and looks at the bonds of the unit's atoms alone.
pub fn orient(_alloc: Global, molecule: &Molecule, site: &Site) -> Geometry
    requires { IsSite (length molecule.now.atoms) site.now }
    ensures { result ≡ geometry_of molecule.now site.now }
{
    orient_ends(molecule, &site.ends())
}

/// The same of a unit by its ends.
pub fn orient_ends(molecule: &Molecule, ends: &Ends<'_>) -> Geometry
    requires { IsSite (length molecule.now.atoms) (as_site ends.now) }
    ensures { result ≡ geometry_of molecule.now (as_site ends.now) }
{
    match ends {
        Ends::One(end) => show_centre(molecule, end),
        Ends::Two(shape, two) => show_two(molecule, *shape, two),
    }
}

fn show_two(molecule: &Molecule, shape: Shape, ends: &TwoEnds<'_>) -> Geometry
    requires { IsSite (length molecule.now.atoms) (as_site (Two shape ends.now)) }
    ensures { result ≡ geometry_of molecule.now (as_site (Two shape ends.now)) }
{
    match shape {
        Shape::Flat => show_bond(molecule, ends),
        Shape::Crossed => show_axis(molecule, ends),
    }
}
