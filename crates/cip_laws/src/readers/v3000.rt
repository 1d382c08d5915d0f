// What the grammar keeps.
ghost use Rattle.cip_ctfile.specs.Laws.{IsDecidedInOrder};
ghost use Rattle.cip_v3000.specs.Grammar.{molecule_of};
ghost use Rattle.cip_v3000.specs.Laws.{TellsAtFirstPart};
ghost use Rattle.cip_v3000.specs.Soundness.{ReadingsAreSound};
ghost use Rattle.cip_v3000.specs.Worked.{AreRead};

/// The first line with a cause decides: no line before it has one, and what follows it changes nothing. It is reported
/// at the first part of its joined line.
pub fn lines_decide_in_order()
    ensures { IsDecidedInOrder TellsAtFirstPart molecule_of }
{}

/// Bonds that are read have no fault.
#[tactic(auto, using(crate::proofs::lemmas::v3000_lines::Soundness::readings_are_sound))]
pub fn readings_are_sound()
    ensures { ReadingsAreSound }
{}

/// Worked records are read and refused as they were worked by hand.
pub fn worked_records_are_read()
    ensures { AreRead }
{}
