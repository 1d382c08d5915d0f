// Records of streams that come in pieces.
ghost use Rattle.std.specs.Prelude.{◌≡◌, ◌<◌, [], ℕ, List, true, false, OnOk, IfOk, IfErr};
ghost use Rattle.std.specs.List.{flat_map, take_while};
ghost use Rattle.cip_frame.specs.Records.{cut_of, tail_of};
ghost use Rattle.cip_frame.specs.Framing.{Holds, Passed, all_fit, fits};

use cip_frame::{FrameFault, Framer, Tail};
use cip_text::Bytes;
use gate_tables::{Row, Text};
use std::alloc::{AllocError, Global};

// Hands out every record of a stream, whatever pieces it comes in, up to one that is too long. What it promises speaks
// of the joined bytes alone: so the contracts of the framer's calls say all that its callers need.
fn records_of_pieces(
    alloc: Global,
    limit: u64,
    pieces: &[Vec<u8>],
    records: &mut Vec<Bytes>,
) -> Result<Tail, FrameFault>
    requires { records.old.items ≡ [] }
    ensures whole { OnOk result (records.new.items ≡ (cut_of (flat_map (λ piece. piece.items) pieces.now)).whole) }
    ensures tail { IfOk result (λ tail. tail ≡ tail_of (cut_of (flat_map (λ piece. piece.items) pieces.now)).rest) }
    ensures fit { OnOk result (all_fit limit (cut_of (flat_map (λ piece. piece.items) pieces.now)) ≡ true) }
    ensures too_long { IfErr result (λ fault. fault ≡ FrameFault.RecordTooLong
        → all_fit limit (cut_of (flat_map (λ piece. piece.items) pieces.now)) ≡ false) }
    ensures before { IfErr result (λ fault. fault ≡ FrameFault.RecordTooLong
        → records.new.items ≡ take_while (fits limit) (cut_of (flat_map (λ piece. piece.items) pieces.now)).whole) }
{
    let mut framer = Framer::new(alloc, limit);
    for piece in pieces {
        let fed = framer.feed(piece);
        hand_out(&mut framer, records)?;
        if let Err(fault) = fed {
            return Err(fault);
        }
    }
    Ok(framer.finish())
}

// Hands out the records that wait.
fn hand_out(framer: &mut Framer, records: &mut Vec<Bytes>) -> Result<(), AllocError>
    ensures all { (fed : List ℕ) → Holds records.old.items fed framer.old
        → OnOk result (Holds records.new.items fed framer.new) }
    ensures none_waits { OnOk result (framer.new.waiting ≡ []) }
    ensures before { (fed : List ℕ) → Passed records.old.items fed framer.old
        → OnOk result (records.new.items ≡ take_while (fits framer.old.limit) (cut_of fed).whole) }
    ensures limit { framer.new.limit ≡ framer.old.limit }
{
    while let Some(record) = framer.next() {
        records.push(record.bytes)?;
    }
    Ok(())
}

fn pieces_of(alloc: Global, stream: &[u8], size: usize) -> Result<Vec<Vec<u8>>, AllocError>
    requires { 0 < size }
{
    let mut pieces = Vec::new(alloc);
    for piece in stream.chunks(size) {
        pieces.push(piece.to_vec(alloc)?)?;
    }
    Ok(pieces)
}

/// The records of a stream that comes in pieces of a size, a bar after each, and what follows the last one; or why
/// there are no further ones.
pub fn cut(alloc: Global, out: &mut Text, row: &Row) {
    let size = row.number(2).max(1) as usize;
    let Ok(pieces) = pieces_of(alloc, row.field(4).as_bytes(), size) else {
        return out.miss();
    };
    push_cut(alloc, out, u64::from(row.number(3)), &pieces)
}

fn push_cut(alloc: Global, out: &mut Text, limit: u64, pieces: &[Vec<u8>]) {
    let mut records = Vec::new(alloc);
    let end = records_of_pieces(alloc, limit, pieces, &mut records);
    push_records(out, &records);
    push_end(out, &end)
}

fn push_records(out: &mut Text, records: &[Bytes]) {
    for record in records {
        out.push_barred(record.as_slice());
    }
}

fn push_end(out: &mut Text, end: &Result<Tail, FrameFault>) {
    match end {
        Ok(tail) => push_tail(out, tail),
        Err(FrameFault::RecordTooLong) => out.push_str("too long"),
        Err(_) => out.miss(),
    }
}

// The kind of a tail, and its bytes.
fn push_tail(out: &mut Text, tail: &Tail) {
    match tail {
        Tail::Nothing => out.push_str("nothing"),
        Tail::Blank(bytes) => {
            out.push_str("blank ");
            out.push_bytes(bytes.as_slice())
        }
        Tail::Last(last) => {
            out.push_str(if last.closed { "closed " } else { "open " });
            out.push_bytes(last.bytes.as_slice())
        }
    }
}
