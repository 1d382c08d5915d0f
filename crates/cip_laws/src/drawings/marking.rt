// What is read of a record in which a centre is to have a letter, and laws of marks.
ghost use Rattle.cip_set.specs.SetLabels.{SetRecordsAreRead};
ghost use Rattle.cip_edit.specs.WorkedMarks.{AreAnswered};
ghost use Rattle.cip_edit.specs.MarkLaw.{CentresAreUnits, CentresStandAlone, EligibleMarksShowSenses, MarksGiveLetters, MarksKeepRanks, SensesTurnLetters};

/// What is written is read as the drawing with the mark, and the answer to it gives the centre the asked letter.
pub fn set_records_are_read()
    ensures { SetRecordsAreRead }
{}

/// A centre is at an atom exactly where its unit is one of the drawing's.
pub fn centres_are_units()
    ensures { CentresAreUnits }
{}

/// What is found of a centre doesn't depend on what is shown of itself, but for its sense.
pub fn centres_stand_alone()
    ensures { CentresStandAlone }
{}

/// With other marks that have their narrow end at a centre a drawing has the same graph, and the centre the same cost,
/// ties, order, rule and sphere.
pub fn marks_keep_ranks()
    ensures { MarksKeepRanks }
{}

/// With the other sense a centre has the other letter of the same kind.
pub fn senses_turn_letters()
    ensures { SensesTurnLetters }
{}

/// An up mark at the first eligible ligand shows a sense, a down mark the other one.
pub fn eligible_marks_show_senses()
    ensures { EligibleMarksShowSenses }
{}

/// With the mark that is answered a centre has the asked letter.
pub fn marks_give_letters()
    ensures { MarksGiveLetters }
{}

/// Thirteen marks that are asked for, worked by hand.
pub fn worked_marks_are_answered()
    ensures { AreAnswered }
{}
