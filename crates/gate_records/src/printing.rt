// What is printed of answers.
ghost use Rattle.std.specs.Prelude.{◌≡◌, ◌<◌, ◌+◌, ◌^◌, OnOk, true};
ghost use Rattle.cip_print.specs.Values.{HasRoom};

use crate::drawn::built::built;
use cip_print::{Answer, Tally, explain_text, item_values};
use cip_rank::Rules;
use gate_tables::{Row, Text};
use std::alloc::{AllocError, Global};

/// The value lines of an answer, a bar after each, within a row's bound and by its wording.
pub fn lines_of(alloc: Global, out: &mut Text, row: &Row) {
    let Ok(answer) = built(alloc, row.field(2)) else {
        return out.miss();
    };
    push_lines(alloc, out, &answer, row.number(3), wording(row.number(4)))
}

fn wording(year: u32) -> Rules {
    match year {
        2013 => Rules::Wording2013,
        _ => Rules::Wording2018,
    }
}

fn push_lines(alloc: Global, out: &mut Text, answer: &Answer, nodes: u32, rules: Rules) {
    if !has_room(answer) {
        return out.push_str("too many units");
    }
    let Ok(values) = item_values(alloc, answer, nodes, rules) else {
        return out.miss();
    };
    for value in values.as_slice() {
        out.push_barred(value.as_slice());
    }
}

/// An answer, explained as that of the record of a number.
pub fn explained(alloc: Global, out: &mut Text, row: &Row) {
    let Ok(answer) = built(alloc, row.field(2)) else {
        return out.miss();
    };
    push_explained(alloc, out, &answer, row.field(3).parse().unwrap_or(0))
}

fn push_explained(alloc: Global, out: &mut Text, answer: &Answer, number: u64) {
    let Ok(text) = explain_text(alloc, answer, number) else {
        return out.miss();
    };
    out.push_bytes(text.as_slice())
}

/// The counts of outcomes of four answers.
pub fn tally(alloc: Global, out: &mut Text, row: &Row) {
    match four_counted(alloc, row) {
        Ok(tally) => push_tally(alloc, out, &tally),
        Err(_) => out.miss(),
    }
}

fn four_counted(alloc: Global, row: &Row) -> Result<Tally, AllocError> {
    let mut tally = Tally::new();
    count(alloc, &mut tally, row.field(2))?;
    count(alloc, &mut tally, row.field(3))?;
    count(alloc, &mut tally, row.field(4))?;
    count(alloc, &mut tally, row.field(5))?;
    Ok(tally)
}

fn count(alloc: Global, tally: &mut Tally, text: &str) -> Result<(), AllocError>
    requires few { tally.old.records < 2 ^ 31 }
    ensures one { OnOk result (tally.new.records ≡ tally.old.records + 1) }
{
    let answer = built(alloc, text)?;
    tally.count(&answer);
    Ok(())
}

fn push_tally(alloc: Global, out: &mut Text, tally: &Tally) {
    let Ok(line) = tally.line(alloc) else {
        return out.miss();
    };
    out.push_bytes(line.as_slice())
}

// Whether there is room for the lines of all units after a first line.
fn has_room(answer: &Answer) -> bool
    ensures { result ≡ true → HasRoom answer.now }
{
    match answer {
        Answer::Labelled(units) => units.len() < u32::MAX,
        Answer::Refused(_) => true,
    }
}
