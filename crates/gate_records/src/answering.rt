// What each call answers.
use crate::calls::{Call, call_named};
use crate::changing::{letter_set, marked, mirrored, not_mirrored};
use crate::drawn::molfiles::{first_atom, refusal_of_v2000, refusal_of_v3000, second_atom};
use crate::drawn::records::changed_record;
use crate::further::{axes_told, group_told, groups_told, undefined_told};
use crate::images::images_told;
use crate::inverted::inverted_told;
use crate::labelled::labels;
use crate::printing::{explained, lines_of, tally};
use gate_tables::{Caller, Row, Text};
use std::alloc::Global;
use std::rt::Files;
use std::thread::Threads;
use std::{fs, io};

/// The calls on records.
#[derive(Drop)]
pub struct Records;

impl Caller for Records {
    fn answer<R: Files + Threads + Sync + AllocGlobal>(
        &self,
        rt: &R,
        out: &mut Text,
        row: &Row,
    ) -> io::Result<()> {
        let Some(call) = call_named(row.call()) else {
            out.push_str("there is no such call");
            return Ok(());
        };
        if row.field(2).ends_with(".mol") {
            let record = fs::read(rt, row.field(2))?;
            of_record(rt.alloc(), out, call, row, &record);
            return Ok(());
        }
        of_answer(rt.alloc(), out, call, row);
        Ok(())
    }
}

// Of an answer that is built.
fn of_answer(alloc: Global, out: &mut Text, call: Call, row: &Row) {
    match call {
        Call::Values => lines_of(alloc, out, row),
        Call::Explained => explained(alloc, out, row),
        Call::Tally => tally(alloc, out, row),
        _ => out.push_str("a record is to be named"),
    }
}

// Of a record as it is, or else of one that is changed.
fn of_record(alloc: Global, out: &mut Text, call: Call, row: &Row, record: &[u8]) {
    match call {
        Call::Groups => groups_told(alloc, out, record),
        Call::Axes => axes_told(alloc, out, record),
        Call::Group => group_told(alloc, out, record),
        Call::Images => images_told(alloc, out, record),
        Call::Inverted => inverted_told(alloc, out, row, record),
        _ => of_changed(alloc, out, call, row, record),
    }
}

// Of a record, in which the row has a text put in the place of another one, or else lines changed.
fn of_changed(alloc: Global, out: &mut Text, call: Call, row: &Row, record: &[u8]) {
    let Ok(text) = str::from_utf8(record) else {
        return out.push_str("no text");
    };
    match call {
        Call::Mirror => mirrored(alloc, out, row, text),
        Call::NotMirrored => not_mirrored(alloc, out, row, text),
        Call::Marked => marked(alloc, out, row, text),
        Call::Set => letter_set(alloc, out, row, text),
        _ => of_changed_lines(alloc, out, call, row, record),
    }
}

fn of_changed_lines(alloc: Global, out: &mut Text, call: Call, row: &Row, record: &[u8]) {
    match changed_record(alloc, row, record, first_change(call)) {
        Ok(changed) => of_lines(alloc, out, call, row, &changed),
        Err(_) => out.miss(),
    }
}

// From which field on a row says how lines are changed.
fn first_change(call: Call) -> usize {
    match call {
        Call::Labels | Call::Undefined => 4,
        _ => 3,
    }
}

fn of_lines(alloc: Global, out: &mut Text, call: Call, row: &Row, record: &[u8]) {
    match call {
        Call::V2000 => refusal_of_v2000(alloc, out, record),
        Call::V3000 => refusal_of_v3000(alloc, out, record),
        Call::FirstAtom => first_atom(alloc, out, record),
        Call::SecondAtom => second_atom(alloc, out, record),
        Call::Labels => labels(alloc, out, record, row.number(3)),
        Call::Undefined => undefined_told(alloc, out, record, row.number(3)),
        _ => out.push_str("no call of a record"),
    }
}
