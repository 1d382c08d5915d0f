// What records are, in plain words.
ghost use Rattle.cip_frame.specs.Laws.{RecordsJoin};

/// The records in order, with the blank tail after them, are the stream.
#[tactic(auto, using(crate::proofs::lemmas::pieces::Joining::records_join))]
pub fn records_join()
    ensures { RecordsJoin }
{}
