// Words of a command line, and what they ask for.
ghost use Rattle.std.specs.Prelude.{IfSome};
ghost use Rattle.cip_words.specs.Settings.{AreWithin};

use crate::output::text::Text;
use crate::rows::row::words;
use cip_mol::CentreLetter;
use cip_rank::Rules;
use cip_words::{Action, Labelling, Series, Settings, Task, help_text, read_words};
use std::alloc::Global;

/// The settings that a line of words asks for.
pub fn requested(alloc: Global, out: &mut Text, line: &str) {
    let Ok(words) = words(alloc, line) else {
        return out.miss();
    };
    push_settings(out, read_words(&words))
}

/// The settings that no words at all ask for.
pub fn asked_by_no_words(out: &mut Text) {
    push_settings(out, read_words(&[]))
}

/// How many lines the help text has, where a terminal of 80 columns shows each on one line.
pub fn help_lines(out: &mut Text) {
    let help = help_text();
    if help.lines().all(|line| line.len() <= 80) {
        let lines = help.lines().count();
        return write!(out, "{lines}");
    }
    out.push_str("a line of more than 80 columns")
}

// What settings ask for as a line: the command, and the values of its options in the order of the help text.
fn push_settings(out: &mut Text, settings: Option<Settings>)
    requires { IfSome settings AreWithin }
{
    match settings {
        Some(settings) => push_action(out, settings.action()),
        None => out.push_str("refused"),
    }
}

fn push_action(out: &mut Text, action: Action) {
    match action {
        Action::Read(task, labelling) => {
            push_task(out, task);
            push_labelling(out, labelling)
        }
        Action::Make(series) => push_series(out, "make", series),
        Action::Trial(series, labelling) => {
            push_series(out, "trial", series);
            push_labelling(out, labelling)
        }
        Action::Help => out.push_str("help"),
    }
}

fn push_task(out: &mut Text, task: Task) {
    match task {
        Task::Annotate => out.push_str("annotate"),
        Task::Explain => out.push_str("explain"),
        Task::Set {
            number,
            atom,
            letter,
        } => push_setting(out, number, atom, letter),
        Task::Mirror => out.push_str("mirror"),
        Task::Groups => out.push_str("groups"),
        Task::Axes => out.push_str("axes"),
    }
}

fn push_setting(out: &mut Text, number: u32, atom: u32, letter: CentreLetter) {
    let letter = spelled(letter);
    write!(out, "set {number} {atom} {letter}")
}

fn push_series(out: &mut Text, command: &str, series: Series) {
    let Series { start, records } = series;
    write!(out, "{command} {start} {records}")
}

fn push_labelling(out: &mut Text, labelling: Labelling) {
    let Labelling {
        nodes,
        workers,
        rules,
    } = labelling;
    let year = year(rules);
    write!(out, " {nodes} {workers} {year}")
}

fn year(rules: Rules) -> u32 {
    match rules {
        Rules::Wording2013 => 2013,
        Rules::Wording2018 => 2018,
    }
}

fn spelled(letter: CentreLetter) -> char {
    match letter {
        CentreLetter::R => 'R',
        CentreLetter::S => 'S',
        CentreLetter::SmallR => 'r',
        CentreLetter::SmallS => 's',
    }
}
