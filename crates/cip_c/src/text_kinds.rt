// The texts that are made of a record.

/// Which text is asked for.
#[derive(Clone, Copy)]
pub(crate) enum Text {
    /// The record with its item.
    Annotated,
    /// The value lines of that item alone.
    Values,
    /// What is found of the record of this number.
    Explained(u64),
    /// What is written for its undefined units.
    Undefined,
}
