// The commands, and the options that each of them takes.

/// Which command it is. `tools/options` takes the texts of help, completions and man page from these comments.
#[derive(Clone, Copy)]
pub enum Command {
    /// Writes the file back with a data item CIP_LABELS in each record; an item of this name is replaced.
    Annotate,
    /// Writes each unit with its label, or with the reason why it has none.
    Explain,
    /// Writes made-up records, the same at each call.
    Make,
    /// Labels made-up records, and counts what it finds.
    Trial,
    /// Annotates, and corrects the wedge of one stereocentre.
    Set,
    /// Annotates the mirror images.
    Mirror,
    /// Writes both letters of each stereocentre in an enhanced stereo group.
    Groups,
    /// Writes the labels of cumulenes and biaryl axes, which annotate leaves out.
    Axes,
    /// Writes which options each command takes.
    Help,
}

/// What an option takes: the numbers of a range, one of two numbers, or the letter of a centre.
#[derive(Clone, Copy)]
pub enum Values {
    Between { least: u32, most: u32 },
    Either { one: u32, other: u32 },
    CentreLetter,
}

/// What an option takes: the letter for its value in the help text, its values, and its default. An option without a
/// default has to be given.
#[derive(Clone, Copy)]
pub struct OptionSpec {
    pub letter: u8,
    pub values: Values,
    pub default: Option<u32>,
}

/// The number of the first made record.
pub const START: NamedOption = (
    b"--start",
    OptionSpec {
        letter: b'N',
        values: Values::Between {
            least: 0,
            most: 4_294_967_295,
        },
        default: None,
    },
);

/// How many records are made.
pub const RECORDS: NamedOption = (
    b"--records",
    OptionSpec {
        letter: b'N',
        values: Values::Between {
            least: 1,
            most: 100_000,
        },
        default: None,
    },
);

/// The number of the record to change.
pub const RECORD: NamedOption = (
    b"--record",
    OptionSpec {
        letter: b'N',
        values: Values::Between {
            least: 1,
            most: 1_000_000_000,
        },
        default: None,
    },
);

/// The number of the stereocentre's atom.
pub const ATOM: NamedOption = (
    b"--atom",
    OptionSpec {
        letter: b'N',
        values: Values::Between {
            least: 1,
            most: 1_000_000_000,
        },
        default: None,
    },
);

/// The letter to set.
pub const LETTER: NamedOption = (
    b"--letter",
    OptionSpec {
        letter: b'L',
        values: Values::CentreLetter,
        default: None,
    },
);

/// How many nodes the digraph of a unit may have. A unit that needs more is over. It doesn't bound the time that a
/// record takes.
pub const NODES: NamedOption = (
    b"--nodes",
    OptionSpec {
        letter: b'N',
        values: Values::Between {
            least: 1,
            most: 1_000_000,
        },
        default: Some(100_000),
    },
);

/// How many records are labelled at once. It changes no byte of what is written.
pub const WORKERS: NamedOption = (
    b"--workers",
    OptionSpec {
        letter: b'N',
        values: Values::Between { least: 1, most: 16 },
        default: Some(1),
    },
);

/// The wording of Rule 1b.
pub const WORDING: NamedOption = (
    b"--rule1b",
    OptionSpec {
        letter: b'Y',
        values: Values::Either {
            one: 2013,
            other: 2018,
        },
        default: Some(2018),
    },
);

/// An option by its name.
pub type NamedOption = (&'static [u8], OptionSpec);

/// A command by its name, and its options by theirs.
pub type CommandSpec = (&'static [u8], Command, &'static [NamedOption]);

/// The commands in the order of the help text.
pub const FORMS: [CommandSpec; 9] = [
    (b"annotate", Command::Annotate, &[NODES, WORKERS, WORDING]),
    (b"explain", Command::Explain, &[NODES, WORKERS, WORDING]),
    (b"make", Command::Make, &[START, RECORDS]),
    (
        b"trial",
        Command::Trial,
        &[START, RECORDS, NODES, WORKERS, WORDING],
    ),
    (
        b"set",
        Command::Set,
        &[RECORD, ATOM, LETTER, NODES, WORKERS, WORDING],
    ),
    (b"mirror", Command::Mirror, &[NODES, WORKERS, WORDING]),
    (b"groups", Command::Groups, &[NODES, WORKERS, WORDING]),
    (b"axes", Command::Axes, &[NODES, WORKERS, WORDING]),
    (b"help", Command::Help, &[]),
];
