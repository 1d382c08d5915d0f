// Laws of units.
ghost use Rattle.cip_label.specs.Fitting.{UnitsAreFit};

/// At each end the units of a sound graph have at least two ligands, in all at most four; they are different ones, each
/// a neighbour or a lone pair.
pub fn units_are_fit()
    ensures { UnitsAreFit }
{}
