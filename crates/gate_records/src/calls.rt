// The calls, by their words in the table.

/// A call.
#[derive(Clone, Copy)]
pub enum Call {
    // of a record, whose lines are changed as the row says.
    V2000,
    V3000,
    FirstAtom,
    SecondAtom,
    Labels,
    Undefined,
    // of a record, in which the row has a text put in the place of another one.
    Mirror,
    NotMirrored,
    Marked,
    Set,
    // of a record as it is.
    Groups,
    Axes,
    Group,
    Images,
    Inverted,
    // of an answer that is built.
    Values,
    Explained,
    Tally,
}

const CALLS: &[(&str, Call)] = &[
    ("v2000", Call::V2000),
    ("v3000", Call::V3000),
    ("first atom", Call::FirstAtom),
    ("second atom", Call::SecondAtom),
    ("labels", Call::Labels),
    ("undefined", Call::Undefined),
    ("mirror", Call::Mirror),
    ("not mirrored", Call::NotMirrored),
    ("marked", Call::Marked),
    ("set", Call::Set),
    ("groups", Call::Groups),
    ("axes", Call::Axes),
    ("group", Call::Group),
    ("images", Call::Images),
    ("inverted", Call::Inverted),
    ("values", Call::Values),
    ("explained", Call::Explained),
    ("tally", Call::Tally),
];

/// The call of a word, or of several.
pub fn call_named(name: &str) -> Option<Call> {
    for (word, call) in CALLS {
        if *word == name {
            return Some(*call);
        }
    }
    None
}
