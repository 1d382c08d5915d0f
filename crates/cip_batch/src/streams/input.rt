// Reading a source piece by piece, within the limits.
ghost use Rattle.std.specs.Prelude.{◌≡◌, ◌≤◌, ◌<◌, ◌+◌, ◌++◌, ℕ, List, length, take, Ok, IfOk, IfErr, OnErr};
ghost use Rattle.std.specs.Io.KnownBytes.{Consumes, IsAtEnd, Keeps};
ghost use Rattle.cip_io.specs.Faults.{Rose};
ghost use Rattle.cip_frame.specs.Framing.{Holds, Passed};
ghost use Rattle.cip_batch.specs.Reading.{TakesAtMost, Brings};

use crate::error::StreamError;
use cip_frame::{FrameFault, Framer};
use cip_io::{Failed, Source};
use std::alloc::{AllocError, Global};

// How many bytes are asked for at once.
const PIECE: usize = 65_536;

/// What one turn of reading brought.
#[derive(Clone, Copy)]
pub enum ReadStep {
    /// n bytes, all within the limits.
    Piece(u64),
    /// Nothing more is read.
    Last(InputEnd),
}

/// Why nothing more is read.
#[derive(Clone, Copy)]
pub enum InputEnd {
    /// The end of the source.
    End,
    /// A fault of the source.
    Fault,
    /// A byte that is one too many.
    Limit,
}

/// Room for a piece.
pub fn piece_buffer(alloc: Global) -> Result<Vec<u8>, AllocError>
    ensures { IfOk result (λ piece. 0 < length piece.items) }
{
    blank(alloc, PIECE)
}

fn blank(alloc: Global, len: usize) -> Result<Vec<u8>, AllocError>
    ensures { IfOk result (λ piece. length piece.items ≡ len) }
{
    vec![in alloc; 0u8; len]
}

/// Pulls once and feeds the framer. The input may have `room` more bytes; one more is taken, to know that there is one.
pub fn read_piece<S: Source>(
    source: &mut S,
    piece: &mut [u8],
    framer: &mut Framer,
    room: u64,
) -> Result<ReadStep, StreamError>
    requires { 0 < length piece.old }
    ensures brought { Brings room result (S.left source.old) (S.left source.new) framer.old framer.new }
    ensures limit { framer.new.limit ≡ framer.old.limit }
    ensures bounded { TakesAtMost (room + 1) (S.left source.old) (S.left source.new) }
    ensures later { S.faults source.old ≤ S.faults source.new }
    ensures fault { result ≡ Ok (ReadStep.Last InputEnd.Fault) → Rose (S.faults source.old) (S.faults source.new) }
{
    let Ok(count) = pull_into(source, piece, room) else {
        return Ok(ReadStep::Last(InputEnd::Fault));
    };
    if count == 0 {
        return Ok(ReadStep::Last(InputEnd::End));
    }
    let within = (count as u64).min(room) as usize;
    match feed(framer, front(piece, within)) {
        Ok(Fed::TooLong) => Ok(ReadStep::Last(InputEnd::Limit)),
        Ok(Fed::Fits) => {
            if count as u64 <= room {
                Ok(ReadStep::Piece(count as u64))
            } else {
                Ok(ReadStep::Last(InputEnd::Limit))
            }
        }
        Err(stop) => Err(stop),
    }
}

// Pulls into the front of a piece, at most one byte more than there is room for.
fn pull_into<S: Source>(source: &mut S, piece: &mut [u8], room: u64) -> Result<usize, Failed>
    requires { 0 < length piece.old }
    ensures within { IfOk result (λ count. count ≤ length piece.new) }
    ensures few { IfOk result (λ count. count ≤ room + 1) }
    ensures taken { IfOk result (λ count. Consumes (S.left source.old) (S.left source.new) (take count piece.new)) }
    ensures end { IfOk result (λ count. count ≡ 0 → IsAtEnd (S.left source.new)) }
    ensures failed { OnErr result (Keeps (S.left source.old) (S.left source.new)) }
    ensures later { S.faults source.old ≤ S.faults source.new }
    ensures fault { OnErr result (Rose (S.faults source.old) (S.faults source.new)) }
{
    let most = room.saturating_add(1).min(piece.len() as u64) as usize;
    source.pull(&mut piece[..most])
}

fn front(piece: &[u8], len: usize) -> &[u8]
    requires { len ≤ length piece.now }
    ensures { result.now ≡ take len piece.now }
{
    &piece[..len]
}

// What a framer makes of a piece.
#[derive(Clone, Copy)]
enum Fed {
    Fits,
    TooLong,
}

fn feed(framer: &mut Framer, bytes: &[u8]) -> Result<Fed, StreamError>
    ensures fits { (given : List (List ℕ)) (before : List ℕ) → Holds given before framer.old → result ≡ Ok Fed.Fits
        → Holds given (before ++ bytes.now) framer.new }
    ensures too_long { (given : List (List ℕ)) (before : List ℕ) → Holds given before framer.old
        → result ≡ Ok Fed.TooLong → Passed given (before ++ bytes.now) framer.new }
    ensures memory { IfErr result (λ stop. stop ≡ StreamError.Memory) }
    ensures limit { framer.new.limit ≡ framer.old.limit }
{
    match framer.feed(bytes) {
        Ok(()) => Ok(Fed::Fits),
        Err(FrameFault::RecordTooLong) => Ok(Fed::TooLong),
        Err(FrameFault::Memory) => Err(StreamError::Memory),
    }
}
