// Command lines, as the program reads them and as `clap` does.
ghost use Rattle.std.specs.Prelude.{IfSome};
ghost use Rattle.cip_words.specs.Settings.{AreWithin};

use cip_mol::CentreLetter;
use cip_rank::Rules;
use cip_words::{Action, Labelling, Settings, Task, read_words};
use clap::{Arg, ArgAction, ArgMatches, Command};
use std::alloc::{AllocError, Global};
use std::test::Fail;

// What a reader finds: the command, the numbers of its options in the order of NUMBERS, each 0 that it hasn't, and the
// letter, likewise.
type Reading = (&'static str, [u32; 7], u8);

// An option of one value: its name, the least and the greatest number, and the number that it has if it isn't given. It
// has to be given if this is empty.
type Numbered = (&'static str, i64, i64, &'static str);

const START: Numbered = ("start", 0, 4_294_967_295, "");

const RECORDS: Numbered = ("records", 1, 100_000, "");

const RECORD: Numbered = ("record", 1, 1_000_000_000, "");

const ATOM: Numbered = ("atom", 1, 1_000_000_000, "");

const NODES: Numbered = ("nodes", 1, 1_000_000, "100000");

const WORKERS: Numbered = ("workers", 1, 16, "1");

const WORDING: Numbered = ("rule1b", 2013, 2018, "2018");

const NUMBERS: [Numbered; 7] = [START, RECORDS, RECORD, ATOM, NODES, WORKERS, WORDING];

const COMMANDS: [(&str, &[Numbered]); 9] = [
    ("annotate", &[NODES, WORKERS, WORDING]),
    ("explain", &[NODES, WORKERS, WORDING]),
    ("make", &[START, RECORDS]),
    ("trial", &[START, RECORDS, NODES, WORKERS, WORDING]),
    ("set", &[RECORD, ATOM, NODES, WORKERS, WORDING]),
    ("mirror", &[NODES, WORKERS, WORDING]),
    ("groups", &[NODES, WORKERS, WORDING]),
    ("axes", &[NODES, WORKERS, WORDING]),
    ("help", &[]),
];

const YEARS: [&str; 2] = ["2013", "2018"];

const LETTERS: [&str; 4] = ["R", "S", "r", "s"];

// Words that both take. Those that the program alone refuses, as `--nodes=5` or `--nodes 05`, are among the gate's rows.
const TAKEN: [(&str, Reading); 16] = [
    ("annotate", ("annotate", [0, 0, 0, 0, 100_000, 1, 2018], 0)),
    (
        "annotate --nodes 12",
        ("annotate", [0, 0, 0, 0, 12, 1, 2018], 0),
    ),
    (
        "annotate --workers 16 --rule1b 2013",
        ("annotate", [0, 0, 0, 0, 100_000, 16, 2013], 0),
    ),
    (
        "explain --workers 4",
        ("explain", [0, 0, 0, 0, 100_000, 4, 2018], 0),
    ),
    (
        "explain --nodes 1000000",
        ("explain", [0, 0, 0, 0, 1_000_000, 1, 2018], 0),
    ),
    (
        "make --start 7 --records 3",
        ("make", [7, 3, 0, 0, 0, 0, 0], 0),
    ),
    (
        "make --records 100000 --start 4294967295",
        ("make", [4_294_967_295, 100_000, 0, 0, 0, 0, 0], 0),
    ),
    (
        "trial --records 3 --start 7",
        ("trial", [7, 3, 0, 0, 100_000, 1, 2018], 0),
    ),
    (
        "trial --start 0 --records 1 --nodes 5 --workers 2",
        ("trial", [0, 1, 0, 0, 5, 2, 2018], 0),
    ),
    (
        "set --record 4 --atom 7 --letter r",
        ("set", [0, 0, 4, 7, 100_000, 1, 2018], b'r'),
    ),
    (
        "set --letter S --atom 1000000000 --record 1",
        ("set", [0, 0, 1, 1_000_000_000, 100_000, 1, 2018], b'S'),
    ),
    (
        "set --letter R --atom 1 --record 2 --nodes 9 --rule1b 2013",
        ("set", [0, 0, 2, 1, 9, 1, 2013], b'R'),
    ),
    (
        "mirror --workers 2",
        ("mirror", [0, 0, 0, 0, 100_000, 2, 2018], 0),
    ),
    (
        "groups --nodes 12",
        ("groups", [0, 0, 0, 0, 12, 1, 2018], 0),
    ),
    (
        "axes --rule1b 2013",
        ("axes", [0, 0, 0, 0, 100_000, 1, 2013], 0),
    ),
    ("help", ("help", [0, 0, 0, 0, 0, 0, 0], 0)),
];

// Words that both refuse.
const REFUSED: [&str; 33] = [
    "",
    "Annotate",
    "annotat",
    "annotate annotate",
    "annotate --nodes",
    "annotate --nodes 0",
    "annotate --nodes -5",
    "annotate --nodes 5x",
    "annotate --nodes 1000001",
    "annotate --nodes 18446744073709551617",
    "annotate --workers 0",
    "annotate --workers 17",
    "annotate --nodes 5000 --nodes 5000",
    "annotate --start 1",
    "annotate --rule1b 2014",
    "--nodes 5 annotate",
    "explain --records 5",
    "explain 5",
    "make",
    "make --start 1",
    "make --records 0 --start 1",
    "make --records 1 --start 4294967296",
    "trial --start 1",
    "trial --records 100001 --start 1",
    "set --record 1 --atom 1",
    "set --record 0 --atom 1 --letter R",
    "set --record 1 --atom 1 --letter Z",
    "set --record 1 --atom 1 --letter RS",
    "set --record 1 --atom 1 --letter R --letter R",
    "mirror --record 1",
    "groups --letter R",
    "axes --atom 1",
    "help me",
];

fn year(rules: Rules) -> u32 {
    match rules {
        Rules::Wording2013 => 2013,
        Rules::Wording2018 => 2018,
    }
}

fn letter_byte(letter: CentreLetter) -> u8 {
    match letter {
        CentreLetter::R => b'R',
        CentreLetter::S => b'S',
        CentreLetter::SmallR => b'r',
        CentreLetter::SmallS => b's',
    }
}

fn by_program(words: &[String]) -> Option<Reading> {
    match read_words(words) {
        Some(settings) => Some(reading_of(settings)),
        None => None,
    }
}

fn reading_of(settings: Settings) -> Reading
    requires { AreWithin settings }
{
    match settings.action() {
        Action::Read(task, labelling) => reading_of_task(task, labelling),
        Action::Make(series) => ("make", [series.start, series.records, 0, 0, 0, 0, 0], 0),
        Action::Trial(series, labelling) => {
            let [nodes, workers, wording] = labelling_numbers(labelling);
            let numbers = [series.start, series.records, 0, 0, nodes, workers, wording];
            ("trial", numbers, 0)
        }
        Action::Help => ("help", [0; 7], 0),
    }
}

fn reading_of_task(task: Task, labelling: Labelling) -> Reading {
    let [nodes, workers, wording] = labelling_numbers(labelling);
    let plain = [0, 0, 0, 0, nodes, workers, wording];
    match task {
        Task::Annotate => ("annotate", plain, 0),
        Task::Explain => ("explain", plain, 0),
        Task::Mirror => ("mirror", plain, 0),
        Task::Groups => ("groups", plain, 0),
        Task::Axes => ("axes", plain, 0),
        Task::Set {
            number,
            atom,
            letter,
        } => (
            "set",
            [0, 0, number, atom, nodes, workers, wording],
            letter_byte(letter),
        ),
    }
}

fn labelling_numbers(labelling: Labelling) -> [u32; 3] {
    [
        labelling.nodes,
        u32::from(labelling.workers),
        year(labelling.rules),
    ]
}

fn argument<'a>(alloc: Global, option: Numbered) -> Arg<'a> {
    let (name, least, most, otherwise) = option;
    let argument = Arg::new(alloc, name).long(name).action(ArgAction::Set);
    let argument = if name == "rule1b" {
        argument.value_parser(YEARS.as_slice())
    } else {
        argument.value_parser(clap::value_parser!(u32).range(least..=most))
    };
    if otherwise.is_empty() {
        return argument.required(true);
    }
    argument.default_value(otherwise)
}

fn command<'a>(
    alloc: Global,
    name: &'static str,
    options: &[Numbered],
) -> Result<Command<'a>, AllocError> {
    let mut command = Command::new(alloc, name);
    for option in options {
        command = command.arg(argument(alloc, *option))?;
    }
    if name == "set" {
        let letter = Arg::new(alloc, "letter")
            .long("letter")
            .action(ArgAction::Set);
        command = command.arg(letter.value_parser(LETTERS.as_slice()).required(true))?;
    }
    Ok(command)
}

fn program<'a>(alloc: Global) -> Result<Command<'a>, AllocError> {
    let mut program = Command::new(alloc, "cip").disable_help_subcommand(true);
    for (name, options) in &COMMANDS {
        program = program.subcommand(command(alloc, *name, *options)?)?;
    }
    Ok(program)
}

fn numbers(options: &ArgMatches<'_>, taken: &[Numbered]) -> [u32; 7] {
    let mut found = [0; 7];
    for (place, (name, _, _, _)) in NUMBERS.iter().enumerate() {
        if place < found.len()
            && taken.iter().any(|option| option.0 == *name)
            && let Some(word) = options.get_str(name)
        {
            found[place] = word.parse().unwrap_or(0);
        }
    }
    found
}

fn letter(options: &ArgMatches<'_>, command: &str) -> u8 {
    if command != "set" {
        return 0;
    }
    match options.get_str("letter") {
        Some(letter) => letter.as_bytes().first().copied().unwrap_or(0),
        None => 0,
    }
}

fn reading_in(matches: &ArgMatches<'_>) -> Option<Reading> {
    let (name, options) = matches.subcommand()?;
    for (command, taken) in &COMMANDS {
        if *command == name {
            return Some((*command, numbers(options, *taken), letter(options, name)));
        }
    }
    None
}

fn by_clap(alloc: Global, words: &[String]) -> Result<Option<Reading>, AllocError> {
    let program = program(alloc)?;
    match program.try_get_matches_from(words) {
        Ok(matches) => Ok(reading_in(&matches)),
        Err(_) => Ok(None),
    }
}

fn words(alloc: Global, line: &str) -> Result<Vec<String>, AllocError> {
    let mut words = Vec::new(alloc);
    for word in line.split(' ') {
        words.push(String::from_str(alloc, word)?)?;
    }
    Ok(words)
}

// What the program and what `clap` reads in a line.
fn both(alloc: Global, line: &str) -> Result<(Option<Reading>, Option<Reading>), AllocError> {
    let own = words(alloc, line)?;
    let named = words(alloc, format!(in alloc; "cip {line}")?.as_str())?;
    Ok((by_program(&own), by_clap(alloc, &named)?))
}

#[test]
fn words_agree(rt: HostRuntime) -> Result<(), Fail> {
    let alloc = rt.alloc();
    for (line, reading) in &TAKEN {
        let (program, other) = both(alloc, *line)?;
        assert!(rt;
            program == Some(*reading),
            "the program reads another in: {line}"
        );
        assert!(rt; other == Some(*reading), "clap reads another in: {line}");
    }
    for line in &REFUSED {
        let (program, other) = both(alloc, *line)?;
        assert!(rt; program == None, "the program takes: {line}");
        assert!(rt; other == None, "clap takes: {line}");
    }
    Ok(())
}
