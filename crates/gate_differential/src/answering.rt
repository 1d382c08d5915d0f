// What the calls of rows answer: worked molecules to their units, the spheres of their digraphs, and what is decided and
// described there.
ghost use Rattle.std.specs.Prelude.{◌≡◌, ◌<◌};

use crate::boxes::{child_keys, two_stand};
use crate::digraphs::growing::{settled, spheres};
use crate::digraphs::inside::inside;
use crate::molecule_rows::units::units_told;
use cip_rank::Steps;
use gate_tables::{Caller, Row, Text};
use std::alloc::Global;
use std::marker::Brand;
use std::rt::Files;
use std::sync::ledger::{Blank, Ledger};
use std::thread::Threads;
use std::{fs, io};

/// The calls of rows.
#[derive(Drop)]
pub struct Worked;

impl Caller for Worked {
    fn answer<R: Files + Threads + Sync + AllocGlobal>(
        &self,
        rt: &R,
        out: &mut Text,
        row: &Row,
    ) -> io::Result<()> {
        if row.field(2).ends_with(".mol") {
            let record = fs::read(rt, row.field(2))?;
            answer_with(rt.alloc(), out, row, &record);
            return Ok(());
        }
        answer_with(rt.alloc(), out, row, b"");
        Ok(())
    }
}

// Writes what the call of a row answers, whose record is empty where it has none.
fn answer_with(alloc: Global, out: &mut Text, row: &Row, record: &[u8]) {
    match row.call() {
        "units" => units_told(alloc, out, row),
        "boxes" => two_stand(alloc, out, row),
        "child keys" => child_keys(alloc, out, row),
        _ => answer_grown::<Brand>(alloc, out, row, record, Blank::new(1)),
    }
}

// The same for what counts steps.
fn answer_grown<L: Ledger>(alloc: Global, out: &mut Text, row: &Row, record: &[u8], blank: Blank)
    requires name { blank.name ≡ L.name }
    requires parts { blank.parts ≡ L.parts }
    requires one { 0 < blank.parts }
{
    let mut steps = Steps::<L>::open(blank);
    match row.call() {
        "settled" => settled(alloc, out, row, &mut steps),
        "spheres" => spheres(alloc, out, row, &mut steps),
        "inside" => inside(alloc, out, record, row.number(3), &mut steps),
        _ => out.push_str("there is no such call"),
    }
}
