// Atoms of alternating rings.
ghost use Rattle.cip_laws.specs.AlternatingLaw.{DelocalisedAtomsLieInRings};

/// The double bond of an atom can be at several places exactly where the atom lies in an alternating ring.
pub fn delocalised_atoms_lie_in_rings()
    ensures { DelocalisedAtomsLieInRings }
{}
