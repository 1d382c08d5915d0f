// Laws of the value lines.
ghost use Rattle.cip_print.specs.Laws.{ValuesAreFit};

/// Each value line of an answer may be in an item: it isn't blank, is one line, and ends neither a record nor a
/// molecule.
#[tactic(auto, using(crate::proofs::lemmas::item_values::Fit::values_are_fit))]
pub fn values_are_fit()
    ensures { ValuesAreFit }
{}
