// What each call answers.
ghost use Rattle.std.specs.Thread.{IsSync};

use crate::batches::{dealt, long_jobs_told, meeting_jobs_told};
use crate::runs::{flow, long_record, meet, steady};
use crate::stream_parts::memory::{adapters, joined, sink, sources};
use crate::stream_parts::pieces::cut;
use crate::streams::stream;
use gate_tables::{Caller, Row, Text};
use std::alloc::Global;
use std::rt::Files;
use std::thread::Threads;
use std::{fs, io};

/// The calls on what comes in pieces and is shared.
#[derive(Drop)]
pub struct Runs;

impl Caller for Runs {
    fn answer<R: Files + Threads + Sync + AllocGlobal>(
        &self,
        rt: &R,
        out: &mut Text,
        row: &Row,
    ) -> io::Result<()>
        requires { IsSync R.row }
    {
        if row.field(2).ends_with(".sdf") {
            let record = fs::read(rt, row.field(2))?;
            of_record(rt, rt.alloc(), out, row, &record);
            return Ok(());
        }
        of_workers(rt, rt.alloc(), out, row);
        Ok(())
    }
}

// Of runs over copies of a record.
fn of_record<R: Threads + Sync>(rt: &R, alloc: Global, out: &mut Text, row: &Row, record: &[u8]) {
    match row.call() {
        "long record" => long_record(rt, alloc, out, row, record),
        "steady" => steady(rt, alloc, out, record),
        "flow" => flow(rt, alloc, out, record),
        "meet" => meet(rt, alloc, out, row, record),
        _ => out.push_str("no call of a record"),
    }
}

// Of what several workers do, or else of what one thread does.
fn of_workers<R: Threads + Sync>(rt: &R, alloc: Global, out: &mut Text, row: &Row) {
    match row.call() {
        "stream" => stream(rt, alloc, out, row),
        "jobs meet" => meeting_jobs_told(rt, alloc, out, row.number(2)),
        "unlike jobs" => long_jobs_told(rt, alloc, out, row.number(2)),
        "dealt" => dealt(rt, alloc, out),
        _ => of_bytes(alloc, out, row),
    }
}

fn of_bytes(alloc: Global, out: &mut Text, row: &Row) {
    match row.call() {
        "sources" => sources(alloc, out),
        "sink" => sink(alloc, out),
        "joined" => joined(alloc, out, row.field(2)),
        "adapters" => adapters(alloc, out),
        "cut" => cut(alloc, out, row),
        _ => out.push_str("there is no such call"),
    }
}
