// Records that are changed: a centre that is to have a letter, and the mirrored record.
use cip_mol::{CentreLetter, ReadFault};
use cip_rank::Rules;
use cip_set::{MirrorAnswer, MirrorRefusal, SetAnswer, SetRefusal, mirror_record, set_letter};
use gate_tables::{Row, Text};
use std::alloc::{AllocError, Global};

// More bytes than any of the records has.
const MOST_BYTES: usize = 1_000_000;

const MOST_NODES: u32 = 1_000_000;
// The bond with a mark, and the same with the other mark.
const UP: &str = "  1  4  1  1";

const DOWN: &str = "  1  4  1  6";

/// What a row wants where the mirrored record has it in the right place, with either line end; else what is found.
pub fn mirrored(alloc: Global, out: &mut Text, row: &Row, record: &str) {
    let Ok(given) = record.replace(alloc, row.field(3), row.field(4)) else {
        return out.miss();
    };
    let Ok(expected) = mirror_wanted(alloc, row, record) else {
        return out.miss();
    };
    push_mirrored(alloc, out, row, (given.as_str(), expected.as_str()))
}

fn push_mirrored(alloc: Global, out: &mut Text, row: &Row, records: (&str, &str)) {
    let (given, expected) = records;
    if is_mirrored(alloc, out, given, expected) && is_returned(alloc, out, given, expected) {
        out.clear();
        return out.push_str(row.expected());
    }
}

// Whether a record is mirrored as wanted; what is known of it is written.
fn is_mirrored(alloc: Global, out: &mut Text, given: &str, expected: &str) -> bool {
    out.clear();
    push_mirror(alloc, out, given);
    out.as_str() == expected
}

// The same with the other line ends.
fn is_returned(alloc: Global, out: &mut Text, given: &str, expected: &str) -> bool {
    let Ok(given) = given.replace(alloc, "\n", "\r\n") else {
        out.miss();
        return false;
    };
    let Ok(expected) = expected.replace(alloc, "\n", "\r\n") else {
        out.miss();
        return false;
    };
    is_mirrored(alloc, out, given.as_str(), expected.as_str())
}

// The mirrored record with a text in place of another one, or of its marked bond.
fn mirror_wanted(alloc: Global, row: &Row, record: &str) -> Result<String, AllocError> {
    if row.field(3) == UP {
        return record.replace(alloc, UP, row.expected());
    }
    let down = record.replace(alloc, UP, DOWN)?;
    down.replace(alloc, row.field(3), row.expected())
}

/// Why the record isn't mirrored that has a text in the place of another one.
pub fn not_mirrored(alloc: Global, out: &mut Text, row: &Row, record: &str) {
    let Ok(given) = replaced(alloc, record, row.field(3), row.field(4)) else {
        return out.miss();
    };
    push_mirror(alloc, out, given.as_str())
}

// The record with a text in place of another one, if there is one.
fn replaced(alloc: Global, record: &str, old: &str, new: &str) -> Result<String, AllocError> {
    if old.is_empty() {
        return String::from_str(alloc, record);
    }
    record.replace(alloc, old, new)
}

// What is written for a record, or why it isn't mirrored.
fn push_mirror(alloc: Global, out: &mut Text, record: &str) {
    if record.len() > MOST_BYTES {
        return;
    }
    let Ok(answer) = mirror_record(alloc, record.as_bytes()) else {
        return out.miss();
    };
    push_mirror_answer(out, &answer)
}

fn push_mirror_answer(out: &mut Text, answer: &MirrorAnswer) {
    match answer {
        MirrorAnswer::Written(text) => out.push_bytes(text.as_slice()),
        MirrorAnswer::Refused(MirrorRefusal::Grammar(fault)) => push_fault(out, *fault),
        MirrorAnswer::Refused(MirrorRefusal::OnlyV2000) => out.push_str("OnlyV2000"),
        MirrorAnswer::Refused(MirrorRefusal::Width) => out.push_str("Width"),
    }
}

fn push_fault(out: &mut Text, fault: ReadFault) {
    let ReadFault { line, cause } = fault;
    write!(out, "refused {line} {cause}")
}

// The bonds of the record that is marked, up to that of its fluorine and from that of its bromine on.
const FLUORINE: &str = "  1  2  1  0\n";

const BROMINE: &str = "  1  4  1  1\n";

const UNMARKED: &str = "  1  4  1  0\n";

/// What a row wants where the bond to fluorine is so marked, and no other one, for the letter to come out; else what is
/// found.
pub fn marked(alloc: Global, out: &mut Text, row: &Row, record: &str) {
    let Ok(given) = with_bonds(alloc, record, row.field(4), row.field(5)) else {
        return out.miss();
    };
    let Ok(expected) = with_bonds(alloc, record, row.expected(), UNMARKED) else {
        return out.miss();
    };
    push_marked(alloc, out, row, (given.as_str(), expected.as_str()))
}

fn push_marked(alloc: Global, out: &mut Text, row: &Row, records: (&str, &str)) {
    let (given, expected) = records;
    push_set(alloc, out, given, 1, letter(row.field(3)), 1_000);
    if out.as_str() == expected {
        out.clear();
        return out.push_str(row.expected());
    }
}

fn with_bonds(
    alloc: Global,
    record: &str,
    fluorine: &str,
    bromine: &str,
) -> Result<String, AllocError> {
    let changed = record.replace(alloc, BROMINE, bromine)?;
    changed.replace(alloc, FLUORINE, fluorine)
}

/// What is found of the letter of an atom, within n nodes, in the record that has a text in the place of another.
pub fn letter_set(alloc: Global, out: &mut Text, row: &Row, record: &str) {
    let Ok(given) = replaced(alloc, record, row.field(6), row.field(7)) else {
        return out.miss();
    };
    let letter = letter(row.field(4));
    push_set(
        alloc,
        out,
        given.as_str(),
        row.number(3),
        letter,
        row.number(5),
    )
}

fn letter(name: &str) -> CentreLetter {
    match name.as_bytes() {
        [b'R'] => CentreLetter::R,
        [b'S'] => CentreLetter::S,
        [b'r'] => CentreLetter::SmallR,
        _ => CentreLetter::SmallS,
    }
}

// What is written for a record, or why nothing is.
fn push_set(
    alloc: Global,
    out: &mut Text,
    record: &str,
    atom: u32,
    letter: CentreLetter,
    nodes: u32,
) {
    if record.len() > MOST_BYTES || nodes == 0 || nodes > MOST_NODES {
        return out.push_str("out of range");
    }
    let rules = Rules::Wording2013;
    let Ok(answer) = set_letter(alloc, record.as_bytes(), atom, letter, nodes, rules) else {
        return out.miss();
    };
    push_set_answer(out, &answer)
}

fn push_set_answer(out: &mut Text, answer: &SetAnswer) {
    match answer {
        SetAnswer::Written(text) => out.push_bytes(text.as_slice()),
        SetAnswer::Refused(SetRefusal::Grammar(fault)) => push_fault(out, *fault),
        SetAnswer::Refused(SetRefusal::OtherKind { small }) => {
            write!(out, "OtherKind small {small}")
        }
        SetAnswer::Refused(refusal) => write!(out, "{refusal}"),
    }
}
