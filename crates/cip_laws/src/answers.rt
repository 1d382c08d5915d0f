// Laws of answers.
ghost use Rattle.cip_answer.specs.Laws.{LinesBehindChangeNothing};
ghost use Rattle.cip_answer.specs.Worked.{AreAnswered};

/// Where a record isn't refused for a line that is missing, lines after it don't change its answer.
#[tactic(auto, using(crate::proofs::lemmas::answered::LinesBehind::lines_behind))]
pub fn lines_behind_change_nothing()
    ensures { LinesBehindChangeNothing }
{}

/// Bromochlorofluoromethane, its mirror image and records like them have the worked answers.
pub fn worked_records_are_answered()
    ensures { AreAnswered }
{}
