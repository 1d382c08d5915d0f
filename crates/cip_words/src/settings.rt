// What the words of a command line ask for.
ghost use Rattle.std.specs.Prelude.{◌≡◌, IfSome, map};
ghost use Rattle.std.specs.Option.{option_map};
ghost use Rattle.cip_words.specs.Forms.{forms};
ghost use Rattle.cip_words.specs.Settings.{form_of, letter_of, rules_of, labelling_of, making_of, trial_of, setting_of};
ghost use Rattle.cip_words.specs.Settings.{action_of, alone, requested, asked_by, labelling_by, settings_of, AreWithin};
ghost use Rattle.cip_words.specs.Ranges.{CanLabel};

use crate::command_table::{
    ATOM, Command, CommandSpec, FORMS, LETTER, NODES, NamedOption, RECORD, RECORDS, START, WORDING,
    WORKERS,
};
use crate::option_values::{are_name_value_pairs, single_value, value_of};
use cip_mol::CentreLetter;
use cip_rank::Rules;
use std::marker::Model;

/// What a command line asks for: the numbers of its options, the bound on the nodes of a digraph among them.
#[derive(Clone, Copy)]
pub enum Settings {
    /// Each record is written with its item.
    Annotate {
        nodes: u32,
        workers: u8,
        rules: Rules,
    },
    /// Of each record its units are written with what is found of them.
    Explain {
        nodes: u32,
        workers: u8,
        rules: Rules,
    },
    /// How many records are made, and from which number.
    Make {
        start: u32,
        records: u32,
    },
    /// The same, labelled, and the outcomes counted.
    Trial {
        start: u32,
        records: u32,
        nodes: u32,
        workers: u8,
        rules: Rules,
    },
    /// The record of this number is written with the mark that gives the centre at an atom its letter. Records and
    /// atoms count from 1.
    Set {
        number: u32,
        atom: u32,
        letter: CentreLetter,
        nodes: u32,
        workers: u8,
        rules: Rules,
    },
    /// Each record is written reflected.
    Mirror {
        nodes: u32,
        workers: u8,
        rules: Rules,
    },
    /// Of each record its enhanced stereo groups are written, with the letters of both members.
    Groups {
        nodes: u32,
        workers: u8,
        rules: Rules,
    },
    /// Of each record its longer cumulenes and biaryl axes are written with what is found of them.
    Axes {
        nodes: u32,
        workers: u8,
        rules: Rules,
    },
    /// The forms of the commands are written.
    Help,
}

/// What a command does.
#[derive(Clone, Copy)]
pub enum Action {
    /// It reads the source, and does this with each record.
    Read(Task, Labelling),
    /// It writes made records.
    Make(Series),
    /// It labels made records, and writes how many units have which outcome.
    Trial(Series, Labelling),
    /// It writes the forms of the commands.
    Help,
}

/// What is done with each record of the source.
#[derive(Clone, Copy)]
pub enum Task {
    /// Its answer is put into it as an item.
    Annotate,
    /// Its answer is written without it.
    Explain,
    /// The record of this number gets the mark that gives the centre at an atom its letter. Each record is annotated.
    Set {
        number: u32,
        atom: u32,
        letter: CentreLetter,
    },
    /// It is reflected, and annotated.
    Mirror,
    /// What is found of its stereo groups is written without it.
    Groups,
    /// What is found of its further units is written without it.
    Axes,
}

/// What all commands that label ask for: how many nodes a digraph may have, from 1 to 1,000,000, how many workers label
/// at once, from 1 to 16, and the wording of Rule 1b.
#[derive(Clone, Copy)]
pub struct Labelling {
    pub nodes: u32,
    pub workers: u8,
    pub rules: Rules,
}

impl Model for Labelling {
    ghost use Rattle.cip_words.specs.Ranges.{CanLabel, Labelling};

    ghost Value = { Labelling };

    ghost view = { λ l. record { nodes = l.nodes; workers = l.workers; rules = l.rules } };

    ghost inverse = { λ l. record { nodes = l.nodes; workers = l.workers; rules = l.rules } };

    ghost invariant = { λ l. CanLabel l.nodes l.workers };
}

/// Records that are made: the number at which their series starts, and how many there are, from 1 to 100,000.
#[derive(Clone, Copy)]
pub struct Series {
    pub start: u32,
    pub records: u32,
}

impl Model for Series {
    ghost use Rattle.cip_words.specs.Ranges.{CanMake, Series};

    ghost Value = { Series };

    ghost view = { λ s. record { start = s.start; records = s.records } };

    ghost inverse = { λ s. record { start = s.start; records = s.records } };

    ghost invariant = { λ s. CanMake s.records };
}

impl Labelling {
    fn new(nodes: u32, workers: u8, rules: Rules) -> Labelling
        requires { CanLabel nodes workers }
        ensures { result ≡ labelling_by nodes workers rules }
    {
        Labelling {
            nodes,
            workers,
            rules,
        }
    }
}

impl Settings {
    /// What the command does.
    pub fn action(self) -> Action
        requires { AreWithin self }
        ensures { result ≡ action_of self }
    {
        match self {
            Settings::Annotate {
                nodes,
                workers,
                rules,
            } => Action::Read(Task::Annotate, Labelling::new(nodes, workers, rules)),
            Settings::Explain {
                nodes,
                workers,
                rules,
            } => Action::Read(Task::Explain, Labelling::new(nodes, workers, rules)),
            Settings::Make { start, records } => Action::Make(Series { start, records }),
            Settings::Trial {
                start,
                records,
                nodes,
                workers,
                rules,
            } => Action::Trial(
                Series { start, records },
                Labelling::new(nodes, workers, rules),
            ),
            Settings::Set {
                number,
                atom,
                letter,
                nodes,
                workers,
                rules,
            } => {
                let task = Task::Set {
                    number,
                    atom,
                    letter,
                };
                Action::Read(task, Labelling::new(nodes, workers, rules))
            }
            Settings::Mirror {
                nodes,
                workers,
                rules,
            } => Action::Read(Task::Mirror, Labelling::new(nodes, workers, rules)),
            Settings::Groups {
                nodes,
                workers,
                rules,
            } => Action::Read(Task::Groups, Labelling::new(nodes, workers, rules)),
            Settings::Axes {
                nodes,
                workers,
                rules,
            } => Action::Read(Task::Axes, Labelling::new(nodes, workers, rules)),
            Settings::Help => Action::Help,
        }
    }
}

/// What these words ask for. None where they are those of no command.
#[tactic(auto, unfolding(crate::specs::Settings::settings_of))]
pub fn read_words(words: &[String]) -> Option<Settings>
    ensures meant { result ≡ settings_of words.now }
    ensures within { IfSome result AreWithin }
{
    let [name, rest @ ..] = words else {
        return None;
    };
    match form_named(name.as_bytes()) {
        Some((_, command, choices)) => asked_by(command, choices, rest),
        None => None,
    }
}

// What a command with these options asks for with these words.
fn asked_by(command: Command, choices: &[NamedOption], words: &[String]) -> Option<Settings>
    ensures meant { result ≡ asked_by command (map (λ choice. (choice.0.now, choice.1)) choices.now) words.now }
    ensures within { IfSome result AreWithin }
{
    if are_name_value_pairs(choices, words) {
        requested(command, words)
    } else {
        None
    }
}

// The command of this name.
fn form_named(name: &[u8]) -> Option<CommandSpec>
    ensures { option_map (λ form. (form.0.now, form.1, map (λ choice. (choice.0.now, choice.1)) form.2.now)) result
        ≡ form_of name.now forms }
{
    form_of(name, &FORMS)
}

fn form_of(name: &[u8], forms: &[CommandSpec]) -> Option<CommandSpec>
    ensures { option_map (λ form. (form.0.now, form.1, map (λ choice. (choice.0.now, choice.1)) form.2.now)) result
        ≡ form_of name.now
        (map (λ form. (form.0.now, form.1, map (λ choice. (choice.0.now, choice.1)) form.2.now)) forms.now) }
{
    for form in forms {
        if name == form.0 {
            return Some(*form);
        }
    }
    None
}

fn requested(command: Command, words: &[String]) -> Option<Settings>
    ensures meant { result ≡ requested command words.now }
    ensures within { IfSome result AreWithin }
{
    match command {
        Command::Make => making(words),
        Command::Trial => trial(words),
        Command::Set => setting(words),
        Command::Help => Some(Settings::Help),
        _ => match read_labelling(words) {
            Some(labelling) => alone(command, labelling),
            None => None,
        },
    }
}

// What a command asks for that has no options but those of labelling. None where it has others.
fn alone(command: Command, labelling: Labelling) -> Option<Settings>
    ensures meant { result ≡ alone command labelling }
    ensures within { IfSome result AreWithin }
{
    let Labelling {
        nodes,
        workers,
        rules,
    } = labelling;
    match command {
        Command::Annotate => Some(Settings::Annotate {
            nodes,
            workers,
            rules,
        }),
        Command::Explain => Some(Settings::Explain {
            nodes,
            workers,
            rules,
        }),
        Command::Mirror => Some(Settings::Mirror {
            nodes,
            workers,
            rules,
        }),
        Command::Groups => Some(Settings::Groups {
            nodes,
            workers,
            rules,
        }),
        Command::Axes => Some(Settings::Axes {
            nodes,
            workers,
            rules,
        }),
        _ => None,
    }
}

fn read_labelling(words: &[String]) -> Option<Labelling>
    ensures { result ≡ labelling_of words.now }
{
    match (
        value_of(&NODES, words),
        value_of(&WORKERS, words),
        rules(words),
    ) {
        (Some(nodes), Some(workers), Some(rules)) => Some(Labelling {
            nodes,
            workers: workers as u8,
            rules,
        }),
        _ => None,
    }
}

fn making(words: &[String]) -> Option<Settings>
    ensures meant { result ≡ making_of words.now }
    ensures within { IfSome result AreWithin }
{
    match (value_of(&START, words), value_of(&RECORDS, words)) {
        (Some(start), Some(records)) => Some(Settings::Make { start, records }),
        _ => None,
    }
}

fn trial(words: &[String]) -> Option<Settings>
    ensures meant { result ≡ trial_of words.now }
    ensures within { IfSome result AreWithin }
{
    let (Some(start), Some(records), Some(labelling)) = (
        value_of(&START, words),
        value_of(&RECORDS, words),
        read_labelling(words),
    ) else {
        return None;
    };
    Some(Settings::Trial {
        start,
        records,
        nodes: labelling.nodes,
        workers: labelling.workers,
        rules: labelling.rules,
    })
}

fn setting(words: &[String]) -> Option<Settings>
    ensures meant { result ≡ setting_of words.now }
    ensures within { IfSome result AreWithin }
{
    let (Some(number), Some(atom), Some(letter), Some(labelling)) = (
        value_of(&RECORD, words),
        value_of(&ATOM, words),
        letter(words),
        read_labelling(words),
    ) else {
        return None;
    };
    Some(Settings::Set {
        number,
        atom,
        letter,
        nodes: labelling.nodes,
        workers: labelling.workers,
        rules: labelling.rules,
    })
}

fn letter(words: &[String]) -> Option<CentreLetter>
    ensures { result ≡ letter_of words.now }
{
    match single_value(LETTER.0, words) {
        Some([b'R']) => Some(CentreLetter::R),
        Some([b'S']) => Some(CentreLetter::S),
        Some([b'r']) => Some(CentreLetter::SmallR),
        Some([b's']) => Some(CentreLetter::SmallS),
        _ => None,
    }
}

fn rules(words: &[String]) -> Option<Rules>
    ensures { result ≡ rules_of words.now }
{
    match value_of(&WORDING, words) {
        Some(2013) => Some(Rules::Wording2013),
        Some(_) => Some(Rules::Wording2018),
        None => None,
    }
}
