// What the grammar keeps.
ghost use Rattle.std.specs.Prelude.{◌≡◌};
ghost use Rattle.cip_ctfile.specs.Laws.{IsDecidedInOrder};
ghost use Rattle.cip_v2000.specs.Grammar.{molecule_of};
ghost use Rattle.cip_v2000.specs.LastStatements.{AtomsAreSettled};
ghost use Rattle.cip_v2000.specs.Soundness.{ReadingsAreSound};
ghost use Rattle.cip_v2000.specs.Worked.{AreRead};

/// The first line with a cause decides: no line before it has one, and what follows it changes nothing.
pub fn lines_decide_in_order()
    ensures { IsDecidedInOrder (λ lines line decisive. line ≡ decisive) molecule_of }
{}

/// What property lines state last of an atom holds, and they drop what the atom block says of its kind.
pub fn last_statements_hold()
    ensures { AtomsAreSettled }
{}

/// Bonds that are read have no fault.
#[tactic(auto, using(crate::proofs::lemmas::v2000_lines::Soundness::readings_are_sound))]
pub fn readings_are_sound()
    ensures { ReadingsAreSound }
{}

/// Worked records are read and refused as they were worked by hand.
pub fn worked_records_are_read()
    ensures { AreRead }
{}
