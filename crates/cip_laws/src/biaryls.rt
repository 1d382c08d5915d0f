// Ends of biaryl axes.
ghost use Rattle.cip_laws.specs.BiarylLaws.{DelocalisedAtomsAreEnds};

/// A drawn atom whose double bond has another position, beside a single bond in no ring, is an end of a biaryl axis: that
/// it has three bonds, one of them multiple, and two neighbours beside the other end follows.
pub fn delocalised_atoms_are_ends()
    ensures { DelocalisedAtomsAreEnds }
{}
