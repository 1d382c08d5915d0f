// Streams that several workers share.
ghost use Rattle.std.specs.Prelude.{◌==◌, ◌<◌, ◌∷◌, ◌++◌, [], None, codes, decimal, length, true};
ghost use Rattle.cip_text.specs.Lines.{line_feed};

use cip_batch::{
    LIMITS, Open, RecordOutput, RecordProcessor, StreamStatus, WorkerPool, process_stream,
};
use cip_io::{MemSink, MemSource};
use gate_tables::{Row, Text};
use std::alloc::{AllocError, Global};
use std::thread::Threads;

// Writes the number of a record and how many bytes it has. One with a single byte is flagged.
#[derive(Drop)]
struct Lengths;

impl RecordProcessor for Lengths {
    type State = ();

    type Note = ();

    ghost expected = { λ _. record {
      text = λ number bytes. decimal number ++ (codes ":" ++ (decimal (length bytes) ++ (line_feed ∷ [])));
      verdict = λ number bytes. record { flagged = length bytes == 1; note = None };
      keeps_blank_tail = true;
    } };

    fn new_state(&self, _alloc: Global) -> Result<(), AllocError> {
        Ok(())
    }

    fn process(
        &self,
        alloc: Global,
        _desk: &mut (),
        number: u64,
        bytes: &[u8],
    ) -> Result<RecordOutput<()>, AllocError> {
        let len = bytes.len();
        let line = format!(in alloc; "{number}:{len}\n")?;
        Ok(RecordOutput {
            text: line.into_bytes(),
            verdict: StreamStatus {
                flagged: len == 1,
                note: None,
            },
        })
    }

    fn keeps_blank_tail(&self) -> bool {
        true
    }
}

// Twenty records of three letters and a terminator line, and a tail.
fn bytes_before(alloc: Global, tail: &[u8]) -> Result<Vec<u8>, AllocError> {
    let mut bytes = Vec::new(alloc);
    for _ in 0..20 {
        bytes.extend_from_slice(b"xxx\n$$$$\n")?;
    }
    bytes.extend_from_slice(tail)?;
    Ok(bytes)
}

/// What is written for a stream of twenty records and a tail, in pieces of a size and by n workers; and whether a
/// record is flagged.
pub fn stream<R: Threads + Sync>(rt: &R, alloc: Global, out: &mut Text, row: &Row) {
    let Ok(mut sink) = MemSink::with_room(alloc, 5, 500, Vec::new(alloc)) else {
        return out.miss();
    };
    let flagged = is_flagged(rt, alloc, row, &mut sink);
    out.push_bytes(sink.into_bytes().as_slice());
    match flagged {
        Ok(true) => out.push_str("flagged"),
        Ok(false) => {}
        Err(_) => out.miss(),
    }
}

fn is_flagged<R: Threads + Sync>(
    rt: &R,
    alloc: Global,
    row: &Row,
    sink: &mut MemSink,
) -> Result<bool, AllocError> {
    let bytes = bytes_before(alloc, row.field(2).as_bytes())?;
    let mut source = MemSource::steady(bytes, row.number(3).max(1) as usize);
    let pool = WorkerPool {
        rt,
        alloc,
        gate: &Open,
        workers: row.number(4).clamp(1, 16) as u8,
    };
    match process_stream(&pool, &Lengths, LIMITS, &mut source, sink) {
        Ok(verdict) => Ok(verdict.flagged),
        Err(_) => Err(AllocError),
    }
}
