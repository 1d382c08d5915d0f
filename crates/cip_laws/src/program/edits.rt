// What an edit of rows leaves as it was.
ghost use Rattle.cip_edit.specs.EditLaws.{EditsKeepRecords, EditsGrowLittle, TextsAreWritten};

/// Where each line that is edited is a row of a block, before and after, the record has the same lines else, ends with
/// the same terminator line, and has label items only where it had some.
pub fn edits_keep_records()
    ensures { EditsKeepRecords }
{}

/// Where only the first lines are edited, and none of them gets longer by more than 30, the record gets little longer.
pub fn edits_grow_little()
    ensures { EditsGrowLittle }
{}

/// A text that is written is right-aligned in its columns, and every other column is as before.
pub fn texts_are_written()
    ensures { TextsAreWritten }
{}
