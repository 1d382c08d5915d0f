// Worked molecules.
ghost use Rattle.cip_laws.specs.WorkedFurtherLabels.{AreLabelled};
ghost use Rattle.cip_laws.specs.WorkedLabels.{HaveLabels};

/// A cumulene, also in another numbering, and a biaryl axis, also in the mirror, have the expected labels.
pub fn worked_further_is_labelled()
    ensures { AreLabelled }
{}

/// From their bytes to their value lines, worked records have the expected labels.
pub fn worked_records_have_labels()
    ensures { HaveLabels }
{}
