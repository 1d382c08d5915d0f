// The rows of the table.
use cip_run::{LIMITS, Limits};

/// Calls of one kind, each of which fails in a run of its own.
#[derive(Clone, Copy)]
pub enum Calls {
    Pushes,
    Notes,
}

/// A row: what is run, within which limits, in which pieces, and which calls fail, counted from 1 (0: none).
#[derive(Clone, Copy)]
pub struct Case<'a> {
    pub name: &'a str,
    pub file: &'a str,
    pub words: &'a str,
    pub limits: Limits,
    pub pull_piece: u64,
    pub push_piece: u64,
    pub note_piece: u64,
    pub failing_pull: u64,
    pub failing_push: u64,
    pub failing_note: u64,
    pub in_turn: Option<Calls>,
}

/// The case of a line `NAME FILE SETTING=VALUE.. : WORDS..`. None where it has no such form, and for lines that begin
/// with `#`.
pub fn read_case(line: &str) -> Option<Case<'_>> {
    if line.as_bytes().first() == Some(&b'#') {
        return None;
    }
    let (head, words) = line.split_once(':')?;
    let mut fields = head.split_whitespace();
    let mut case = Case {
        name: fields.next()?,
        file: fields.next()?,
        words,
        limits: LIMITS,
        pull_piece: 65_536,
        push_piece: 65_536,
        note_piece: 1,
        failing_pull: 0,
        failing_push: 0,
        failing_note: 0,
        in_turn: None,
    };
    for field in fields {
        let (setting, value) = field.split_once('=')?;
        case = match value {
            "each" => with_each(case, setting)?,
            _ => with_number(case, setting, value.parse().ok()?)?,
        };
    }
    Some(case)
}

fn with_number<'a>(case: Case<'a>, setting: &str, number: u64) -> Option<Case<'a>> {
    let mut case = case;
    match setting {
        "record" => case.limits.record = number,
        "input" => case.limits.input = number,
        "piece" => {
            case.pull_piece = number;
            case.push_piece = number;
        }
        "push-piece" => case.push_piece = number,
        "note-piece" => case.note_piece = number,
        "failing-pull" => case.failing_pull = number,
        "failing-push" => case.failing_push = number,
        "failing-note" => case.failing_note = number,
        _ => return None,
    }
    Some(case)
}

fn with_each<'a>(case: Case<'a>, setting: &str) -> Option<Case<'a>> {
    let mut case = case;
    case.in_turn = match setting {
        "failing-push" => Some(Calls::Pushes),
        "failing-note" => Some(Calls::Notes),
        _ => return None,
    };
    Some(case)
}
