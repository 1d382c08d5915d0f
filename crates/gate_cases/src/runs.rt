// Whole runs over copies of one record.
ghost use Rattle.std.specs.Prelude.{◌≢◌, None};

use crate::threads::meeting::Meeting;
use cip_io::{Failed, MemSink, MemSource, Sink, Source, SteadySource};
use cip_run::{LIMITS, Open, run, run_limits};
use gate_tables::{Row, Text, words};
use std::alloc::{AllocError, Global};
use std::sync::atomic::{AtomicU64, Ordering};
use std::thread::Threads;

fn copies(alloc: Global, record: &[u8], times: u32) -> Result<Vec<u8>, AllocError> {
    let mut bytes = Vec::new(alloc);
    for _ in 0..times {
        bytes.extend_from_slice(record)?;
    }
    Ok(bytes)
}

// n copies of a record with an item before its terminator line.
fn with_item(alloc: Global, record: &[u8], item: &str, times: u32) -> Result<Vec<u8>, AllocError> {
    let Some(front) = record.strip_suffix(b"$$$$\n") else {
        return Ok(Vec::new(alloc));
    };
    let mut once = front.to_vec(alloc)?;
    once.extend_from_slice(item.as_bytes())?;
    once.extend_from_slice(b"$$$$\n")?;
    copies(alloc, &once, times)
}

// A sink that takes all that is written here, and one for what is said.
#[derive(Drop)]
struct Sinks {
    written: MemSink,
    said: MemSink,
}

fn new_sinks(alloc: Global) -> Result<Sinks, AllocError> {
    Ok(Sinks {
        written: MemSink::with_room(alloc, 65_536, 250_000, Vec::new(alloc))?,
        said: MemSink::with_room(alloc, 16, 100, Vec::new(alloc))?,
    })
}

// What was said, and whether n copies of a record are answered by an item.
fn push_left(alloc: Global, out: &mut Text, sinks: Sinks, record: &[u8], item: &str, times: u32) {
    let Sinks { written, said } = sinks;
    out.push_barred(said.into_bytes().as_slice());
    match with_item(alloc, record, item, times) {
        Ok(expected) if written.into_bytes() == expected => out.push_str(" all answered"),
        Ok(_) => {}
        Err(_) => out.miss(),
    }
}

// A source that never fails: a record n times, and then n letters, none of which is held.
#[derive(Drop)]
struct LongRecord<'a> {
    record: &'a [u8],
    times: u64,
    letters: u64,
}

impl<'a> Source for LongRecord<'a> {
    ghost left = { λ _. None };

    ghost faults = { λ _. 0 };

    fn pull(&mut self, into: &mut [u8]) -> Result<usize, Failed> {
        if self.times > 0 {
            self.times -= 1;
            let count = self.record.len().min(into.len());
            into[..count].copy_from_slice(&self.record[..count]);
            return Ok(count);
        }
        let count = self.letters.min(into.len() as u64) as usize;
        into[..count].fill(b'x');
        self.letters -= count as u64;
        Ok(count)
    }
}

/// The status of a run over 300 copies of a record and one of more than 16 mebibytes, whether all copies are answered by
/// the row's item, and what is said.
pub fn long_record<R: Threads + Sync>(
    rt: &R,
    alloc: Global,
    out: &mut Text,
    row: &Row,
    record: &[u8],
) {
    let Ok(words) = words(alloc, "annotate") else {
        return out.miss();
    };
    let Ok(mut sinks) = new_sinks(alloc) else {
        return out.miss();
    };
    let mut source = LongRecord {
        record,
        times: 300,
        letters: 16_777_217,
    };
    let status = run(
        rt,
        alloc,
        &words,
        &mut source,
        &mut sinks.written,
        &mut sinks.said,
    );
    write!(out, "{status} ");
    push_left(alloc, out, sinks, record, row.field(3), 300)
}

// A source that can't fail never ends a run with a read fault.
fn run_steadily<R: Threads + Sync, K: Sink, E: Sink>(
    rt: &R,
    alloc: Global,
    words: &[String],
    source: &mut SteadySource,
    sink: &mut K,
    diag: &mut E,
) -> u8
    ensures { result ≢ 3 }
{
    run(rt, alloc, words, source, sink, diag)
}

/// The status of a run over a record whose source can't fail.
pub fn steady<R: Threads + Sync>(rt: &R, alloc: Global, out: &mut Text, record: &[u8]) {
    let Ok(bytes) = copies(alloc, record, 1) else {
        return out.miss();
    };
    push_steady(rt, alloc, out, &mut MemSource::steady(bytes, 3))
}

fn push_steady<R: Threads + Sync>(
    rt: &R,
    alloc: Global,
    out: &mut Text,
    source: &mut SteadySource,
) {
    let Ok(words) = words(alloc, "annotate") else {
        return out.miss();
    };
    let Ok(mut sinks) = new_sinks(alloc) else {
        return out.miss();
    };
    let status = run_steadily(
        rt,
        alloc,
        &words,
        source,
        &mut sinks.written,
        &mut sinks.said,
    );
    write!(out, "{status}")
}

// A source that fails at its second call where nothing was written before.
#[derive(Drop)]
struct Watching<'a> {
    bytes: &'a [u8],
    calls: u64,
    writes: &'a AtomicU64,
    faults: u64,
}

impl<'a> Source for Watching<'a> {
    ghost left = { λ _. None };

    ghost faults = { λ source. source.faults };

    fn pull(&mut self, into: &mut [u8]) -> Result<usize, Failed> {
        self.calls = self.calls.saturating_add(1);
        if self.calls == 2 && self.writes.load(Ordering::SeqCst) == 0 {
            self.faults = self.faults.saturating_add(1);
            return Err(Failed);
        }
        let count = self.bytes.len().min(into.len());
        into[..count].copy_from_slice(&self.bytes[..count]);
        self.bytes = &self.bytes[count..];
        Ok(count)
    }
}

// A sink that counts what was written to it.
#[derive(Drop)]
struct Written<'a> {
    writes: &'a AtomicU64,
}

impl<'a> Sink for Written<'a> {
    ghost taken = { λ _. None };

    ghost faults = { λ _. 0 };

    fn push(&mut self, piece: &[u8]) -> Result<usize, Failed> {
        self.writes.fetch_add(1, Ordering::SeqCst);
        Ok(piece.len())
    }
}

/// The status of a run over 300 copies of a record, how often it read, and how often it wrote. The first piece of three has
/// 136 of them, and the answers to these are written before the second one is asked for. Each batch of eight is written at
/// once: 37 batches, and the last four records.
pub fn flow<R: Threads + Sync>(rt: &R, alloc: Global, out: &mut Text, record: &[u8]) {
    let Ok(bytes) = copies(alloc, record, 300) else {
        return out.miss();
    };
    let writes = AtomicU64::new(0);
    let mut source = Watching {
        bytes: &bytes,
        calls: 0,
        writes: &writes,
        faults: 0,
    };
    let mut sink = Written { writes: &writes };
    push_flow(rt, alloc, out, &mut source, &mut sink);
    write!(out, " {} {}", source.calls, writes.load(Ordering::SeqCst))
}

fn push_flow<R: Threads + Sync>(
    rt: &R,
    alloc: Global,
    out: &mut Text,
    source: &mut Watching<'_>,
    sink: &mut Written<'_>,
) {
    let Ok(words) = words(alloc, "annotate") else {
        return out.miss();
    };
    let Ok(mut said) = MemSink::with_room(alloc, 16, 100, Vec::new(alloc)) else {
        return out.miss();
    };
    let status = run(rt, alloc, &words, source, sink, &mut said);
    write!(out, "{status}")
}

/// The status of a run over three batches of eight records for each worker, and whether all are answered by the row's
/// item; and what the gate counts at which two workers meet in each batch.
pub fn meet<R: Threads + Sync>(rt: &R, alloc: Global, out: &mut Text, row: &Row, record: &[u8]) {
    match Meeting::new(alloc, row.number(4).min(1_000)) {
        Ok(meeting) => push_meet(rt, alloc, out, row, record, &meeting),
        Err(_) => out.miss(),
    }
}

fn push_meet<R: Threads + Sync>(
    rt: &R,
    alloc: Global,
    out: &mut Text,
    row: &Row,
    record: &[u8],
    meeting: &Meeting,
) {
    let records = row.number(4).min(1_000) * 3;
    let Ok(bytes) = copies(alloc, record, records) else {
        return out.miss();
    };
    let Ok(mut sinks) = new_sinks(alloc) else {
        return out.miss();
    };
    let mut source = MemSource::steady(bytes, 65_536);
    match run_at(rt, alloc, row.field(5), meeting, &mut source, &mut sinks) {
        Ok(status) => write!(out, "{status} "),
        Err(_) => out.miss(),
    }
    push_left(alloc, out, sinks, record, row.field(3), records);
    meeting.push_told(out)
}

fn run_at<R: Threads + Sync>(
    rt: &R,
    alloc: Global,
    line: &str,
    meeting: &Meeting,
    source: &mut SteadySource,
    sinks: &mut Sinks,
) -> Result<u8, AllocError> {
    let words = words(alloc, line)?;
    Ok(run_limits(
        rt,
        alloc,
        &words,
        LIMITS,
        meeting,
        source,
        &mut sinks.written,
        &mut sinks.said,
    ))
}
