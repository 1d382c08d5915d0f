// What is read of records, of the same molecule, and of its mirror image.
ghost use Rattle.cip_laws.specs.Readings.{
  MirroredRecordsAreRead,
  MirroredRecordsMirror,
  TablesAreDrawn,
};
ghost use Rattle.cip_laws.specs.Records.{ReadingsAreSound, RecordsGo, RecordsMirror};

/// The bonds of a molecule that is read have no fault.
pub fn readings_are_sound()
    ensures { ReadingsAreSound }
{}

/// Stereo groups are sought in the molecule that the grammar of V3000 reads, and refused for the causes of that grammar.
#[tactic(auto, using(cip_v3000::proofs::lemmas::Tables::tables_are_drawn))]
pub fn tables_are_drawn()
    ensures { TablesAreDrawn }
{}

/// Two records that are read as the same molecule in two numberings have answers that go along: each unit goes to a
/// unit with the same descriptor, rule and sphere, or with the same reason why it has none.
pub fn records_go()
    ensures { RecordsGo }
{}

/// A record that is read as the mirror image of another one's molecule has the same units in the same order, with the
/// exchanged descriptors.
pub fn records_mirror()
    ensures { RecordsMirror }
{}

/// What is written for a record that is to be mirrored is read as its mirror image.
#[tactic(auto, using(cip_edit::proofs::lemmas::MirrorReads::mirror_reads))]
pub fn mirrored_records_are_read()
    ensures { MirroredRecordsAreRead }
{}

/// What is written for a record that is to be mirrored has the same units in the same order, with the exchanged
/// descriptors.
#[tactic(auto, using(crate::proofs::lemmas::lines::MirroredRecords::mirrored_records_mirror))]
pub fn mirrored_records_mirror()
    ensures { MirroredRecordsMirror }
{}
