// Laws of further units.
ghost use Rattle.cip_axis.specs.FurtherOutcomes.{FurtherUnitsAreFit};
ghost use Rattle.cip_axis.specs.WorkedFurther.{AreFound};

/// At each end the further units of a sound graph have two ligands, different ones, each a neighbour.
pub fn further_units_are_fit()
    ensures { FurtherUnitsAreFit }
{}

/// A cumulene and a biaryl axis with what their drawings show, also where a double bond of the chain or the axis itself
/// is marked.
pub fn worked_further_is_found()
    ensures { AreFound }
{}
