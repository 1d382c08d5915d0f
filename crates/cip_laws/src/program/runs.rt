// Runs, and the text that is due.
ghost use Rattle.cip_laws.specs.runs.Completeness.{RunsComplete};
ghost use Rattle.cip_laws.specs.runs.Dividing.{PartsAddUp};
ghost use Rattle.cip_laws.specs.runs.Laws.{RecordsComeBack, WorkersChangeNothing};
ghost use Rattle.cip_laws.specs.runs.Repeating.{AnnotatingRepeats, ItemsComeOut, RunsRepeat, StreamsRepeat};
ghost use Rattle.cip_laws.specs.runs.Worked.{AreGiven, StreamsAreGiven};

/// The text that a record is annotated with is the record without its label items, with a new one put in.
pub fn records_come_back()
    ensures { RecordsComeBack }
{}

/// The item that a record is annotated with can be taken out again.
pub fn items_come_out()
    ensures { ItemsComeOut }
{}

/// Annotating twice is annotating once, but for records that are refused for a missing line although they have an
/// `M  END` line.
pub fn annotating_repeats()
    ensures { AnnotatingRepeats }
{}

/// The text that is due for an annotated stream is that stream, with the same flags, but for such records.
pub fn streams_repeat()
    ensures { StreamsRepeat }
{}

/// A run over what a run with the same settings wrote writes the same bytes, and has the same status, but for such
/// records.
pub fn runs_repeat()
    ensures { RunsRepeat }
{}

/// A run of which no call fails, and whose source passes no limit, is done, but for want of memory.
pub fn runs_complete()
    ensures { RunsComplete }
{}

/// Two runs that are done, over the same bytes and with settings that differ in workers alone, have the same status and
/// add the same bytes.
pub fn workers_change_nothing()
    ensures { WorkersChangeNothing }
{}

/// Three runs that are done with the same settings, over a stream and over the two parts that it is divided into after
/// a closed record: the first adds what the others add, and its status is the greater of theirs.
pub fn parts_add_up()
    ensures { PartsAddUp }
{}

/// Bromochlorofluoromethane and its mirror image are answered with the worked texts.
pub fn worked_records_are_given()
    ensures { AreGiven }
{}

/// Small streams have the texts, records and limits that were worked by hand.
pub fn worked_streams_are_given()
    ensures { StreamsAreGiven }
{}
