// The calls, by their words in the table.

/// A call.
#[derive(Clone, Copy)]
pub enum Call {
    // of words of a command line.
    Words,
    NoWords,
    Help,
    // of a text that is in the row.
    Field,
    Whole,
    Decimal,
    Lines,
    Line,
    Halves,
    Kind,
    List,
    WithItem,
    WithoutLabels,
    Items,
    // of a drawing, or of atoms, that are in the row.
    Sense,
    Bonds,
    Lattice,
    Renumbered,
    Around,
    Volume,
    SameSide,
    // of elements.
    Element,
    Valences,
    Masses,
}

const CALLS: &[(&str, Call)] = &[
    ("words", Call::Words),
    ("no words", Call::NoWords),
    ("help", Call::Help),
    ("field", Call::Field),
    ("whole", Call::Whole),
    ("decimal", Call::Decimal),
    ("lines", Call::Lines),
    ("line", Call::Line),
    ("halves", Call::Halves),
    ("kind", Call::Kind),
    ("list", Call::List),
    ("with item", Call::WithItem),
    ("without labels", Call::WithoutLabels),
    ("items", Call::Items),
    ("sense", Call::Sense),
    ("bonds", Call::Bonds),
    ("lattice", Call::Lattice),
    ("renumbered", Call::Renumbered),
    ("around", Call::Around),
    ("volume", Call::Volume),
    ("same side", Call::SameSide),
    ("element", Call::Element),
    ("valences", Call::Valences),
    ("masses", Call::Masses),
];

/// The call of a word, or of several.
pub fn call_named(name: &str) -> Option<Call> {
    for (word, call) in CALLS {
        if *word == name {
            return Some(*call);
        }
    }
    None
}
