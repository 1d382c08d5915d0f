// What lines are, in plain words.
ghost use Rattle.cip_text.specs.Laws.{LinesJoin, LinesAreEnded, LinesAreCut, ContentsStandAtPlaces};

/// The lines in order, each of them its content with its end after it, are the text.
#[tactic(auto, using(cip_text::proofs::lemmas::Firsts::lines_join, cip_text::proofs::lemmas::Contents::parts))]
pub fn lines_join()
    ensures { LinesJoin }
{}

/// Every line but the last has one LF, at its end; the last one has it there or has none, and isn't empty.
#[tactic(auto, using(cip_text::proofs::lemmas::Ends::lines_ended))]
pub fn lines_are_ended()
    ensures { LinesAreEnded }
{}

/// The lines of a text that is cut after a line end are those of both parts.
#[tactic(auto, using(cip_text::proofs::lemmas::Ends::lines_cut))]
pub fn lines_are_cut()
    ensures { LinesAreCut }
{}

/// Each line's content is at its place.
#[tactic(auto, using(cip_text::proofs::lemmas::Standing::contents_stand))]
pub fn contents_stand_at_places()
    ensures { ContentsStandAtPlaces }
{}
