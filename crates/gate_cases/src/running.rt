// A case, run over memory.
ghost use Rattle.std.specs.Prelude.{◌<◌};

use crate::case::Case;
use crate::threads::watched::Watched;
use cip_io::{MemSink, MemSource};
use cip_run::{Limits, Open, run_limits};
use std::alloc::{AllocError, Global};
use std::thread::Threads;

/// What a run left, and whether a call on the sink or the diagnostics failed.
#[derive(Drop)]
pub struct Outcome {
    pub status: u8,
    pub written: Vec<u8>,
    pub said: Vec<u8>,
    pub has_failed: bool,
}

/// Runs a case over this input. A number of the table that is too large is cut.
pub fn run_case<R: Threads + Sync>(
    rt: &R,
    alloc: Global,
    case: &Case<'_>,
    input: Vec<u8>,
) -> Result<Outcome, AllocError> {
    let limits = Limits {
        record: case.limits.record.min(1 << 30),
        input: case.limits.input.min(1 << 62),
    };
    let room = input.len().min(1 << 30) * 2 + 65_536;
    let words = words_of(alloc, case.words)?;
    let mut source = MemSource::new(
        input,
        piece_of(case.pull_piece),
        vec![in alloc; case.failing_pull]?,
    );
    let mut sink = sink_of(alloc, case.push_piece, room, case.failing_push)?;
    let mut diag = sink_of(alloc, case.note_piece, 100, case.failing_note)?;
    let status = run_limits(
        rt,
        alloc,
        &words,
        limits,
        &Open,
        &mut source,
        &mut sink,
        &mut diag,
    );
    Ok(Outcome {
        status,
        written: sink.sink.into_bytes(),
        said: diag.sink.into_bytes(),
        has_failed: sink.has_failed || diag.has_failed,
    })
}

fn sink_of(
    alloc: Global,
    piece: u64,
    room: usize,
    failing: u64,
) -> Result<Watched<MemSink>, AllocError> {
    let sink = MemSink::with_room(alloc, piece_of(piece), room, vec![in alloc; failing]?)?;
    Ok(Watched {
        sink,
        has_failed: false,
    })
}

fn piece_of(number: u64) -> usize
    ensures { 0 < result }
{
    number.clamp(1, 1 << 20) as usize
}

fn words_of(alloc: Global, text: &str) -> Result<Vec<String>, AllocError> {
    let mut words = Vec::new(alloc);
    for word in text.split_whitespace() {
        words.push(String::from_str(alloc, word)?)?;
    }
    Ok(words)
}
