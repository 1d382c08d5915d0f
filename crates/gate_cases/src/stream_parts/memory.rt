// Sources and sinks over memory, adapters over std's readers and writers, and pieces that are written together.
ghost use Rattle.std.specs.Prelude.{None};

use cip_io::{Failed, MemSink, MemSource, Sink, Source, StdSink, StdSource, WriteBuffer, push_all};
use gate_tables::Text;
use std::alloc::{AllocError, Global};
use std::io;

// What each of n calls of a source gives, a bar after it, or that it fails.
fn push_pulls<S: Source>(out: &mut Text, source: &mut S, piece: &mut [u8], calls: u32) {
    for _ in 0..calls {
        match source.pull(piece) {
            Ok(count) => out.push_barred(&piece[..count]),
            Err(Failed) => out.push_str("failed|"),
        }
    }
}

// How much of each piece a sink takes, or that it fails.
fn push_taken<K: Sink>(out: &mut Text, sink: &mut K, pieces: &str) {
    for piece in pieces.split(' ') {
        match sink.push(piece.as_bytes()) {
            Ok(count) => write!(out, "{count}|"),
            Err(Failed) => out.push_str("failed|"),
        }
    }
}

// Whether a sink takes all of a piece.
fn push_whole<K: Sink>(out: &mut Text, sink: &mut K, piece: &str) {
    match push_all(sink, piece.as_bytes()) {
        Ok(()) => out.push_str("whole|"),
        Err(Failed) => out.push_str("failed|"),
    }
}

/// What two sources give, of which the first fails at its second call.
pub fn sources(alloc: Global, out: &mut Text) {
    if push_sources(alloc, out).is_err() {
        out.miss();
    }
}

fn push_sources(alloc: Global, out: &mut Text) -> Result<(), AllocError> {
    let failing = vec![in alloc; 2]?;
    let mut source = MemSource::new(b"abc".to_vec(alloc)?, 8, failing);
    push_pulls(out, &mut source, &mut [0; 2], 4);
    let mut steady = MemSource::steady(b"abc".to_vec(alloc)?, 1);
    push_pulls(out, &mut steady, &mut [0; 2], 5);
    Ok(())
}

/// What a sink with room for five bytes takes, two at once, whose fifth call fails.
pub fn sink(alloc: Global, out: &mut Text) {
    if push_sink(alloc, out).is_err() {
        out.miss();
    }
}

fn push_sink(alloc: Global, out: &mut Text) -> Result<(), AllocError> {
    let mut sink = MemSink::with_room(alloc, 2, 5, vec![in alloc; 5]?)?;
    push_pieces(out, &mut sink);
    out.push_bytes(sink.into_bytes().as_slice());
    Ok(())
}

// The fifth call, after two for the first piece, is the last one of three pieces.
fn push_pieces(out: &mut Text, sink: &mut MemSink) {
    push_whole(out, sink, "hell");
    push_taken(out, sink, "o! ! ");
    push_whole(out, sink, "");
}

// A sink that counts its calls.
#[derive(Drop)]
struct Called {
    bytes: Vec<u8>,
    calls: u64,
    faults: u64,
}

impl Sink for Called {
    ghost taken = { λ _. None };

    ghost faults = { λ sink. sink.faults };

    fn push(&mut self, piece: &[u8]) -> Result<usize, Failed> {
        self.calls = self.calls.saturating_add(1);
        if self.bytes.extend_from_slice(piece).is_err() {
            self.faults = self.faults.saturating_add(1);
            return Err(Failed);
        }
        Ok(piece.len())
    }
}

/// How many calls a sink had and how many bytes after each of these pieces, which are written together where they fit
/// into room for five; or `flush` where what waits is to be written. In the end, what was written.
pub fn joined(alloc: Global, out: &mut Text, pieces: &str) {
    let mut sink = Called {
        bytes: Vec::new(alloc),
        calls: 0,
        faults: 0,
    };
    match WriteBuffer::with_room(alloc, 5) {
        Ok(mut joined) => push_joined(out, &mut joined, &mut sink, pieces),
        Err(_) => out.miss(),
    }
    out.push_bytes(sink.bytes.as_slice())
}

fn push_joined(out: &mut Text, joined: &mut WriteBuffer, sink: &mut Called, pieces: &str) {
    for piece in pieces.split(' ') {
        push_next(out, joined, sink, piece);
    }
}

fn push_next(out: &mut Text, joined: &mut WriteBuffer, sink: &mut Called, piece: &str) {
    let done = match piece {
        "flush" => joined.flush(sink),
        _ => joined.push(piece.as_bytes(), sink),
    };
    if done.is_ok() {
        write!(out, "{} {}|", sink.calls, sink.bytes.len());
    }
}

#[derive(Drop)]
struct Broken;

impl io::Read for Broken {
    fn read(&mut self, _buf: &mut [u8]) -> io::Result<usize> {
        Err(io::Error::from(io::ErrorKind::Other))
    }
}

impl io::Write for Broken {
    fn write(&mut self, _buf: &[u8]) -> io::Result<usize> {
        Ok(0)
    }

    fn flush(&mut self) -> io::Result<()> {
        Ok(())
    }
}

/// What adapters over readers and writers hand on, of which one reader fails and one writer takes nothing.
pub fn adapters(alloc: Global, out: &mut Text) {
    push_pulls(out, &mut StdSource::new(b"abc".as_slice()), &mut [0; 8], 2);
    push_pulls(out, &mut StdSource::new(Broken), &mut [0; 8], 1);
    push_whole(out, &mut StdSink::new(Vec::new(alloc)), "hello");
    push_taken(out, &mut StdSink::new(Broken), "a ");
}
