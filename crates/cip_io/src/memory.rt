// Sources and a sink over memory. Their contracts are exact: which calls fail, and what each call moves.
ghost use Rattle.std.specs.Prelude.{◌≡◌, ◌<◌, ◌≤◌, ◌-◌, ◌⊎◌, ◌↔◌, ◌++◌, min, Some, ℕ, List, [], drop, take, length, IsErr, IsOk, IfOk, OnErr, Contains};
ghost use Rattle.std.specs.Io.{ReadsAtMost, WritesAtMost};
ghost use Rattle.std.specs.Io.KnownBytes.{ReadConsumes, WriteAppends};
ghost use Rattle.cip_io.specs.Faults.{HasCause, one_more};

use crate::{Failed, Sink, Source};
use std::alloc::{AllocError, Global};
use std::marker::Model;

/// A source over bytes in memory, some of whose calls fail.
#[derive(Drop)]
pub struct MemSource {
    bytes: Vec<u8>,
    given: usize,
    piece: usize,
    calls: u64,
    failing: Vec<u64>,
    faults: u64,
}

impl Model for MemSource {
    ghost use Rattle.cip_io.specs.Memory.{Supply};
    ghost use Rattle.std.specs.Prelude.{drop, ◌<◌, ◌≤◌, length};

    ghost Value = { Supply };

    ghost view = { λ s. record {
      left = drop s.given s.bytes.items;
      piece = s.piece;
      calls = s.calls;
      failing = s.failing.items;
      faults = s.faults;
    } };

    ghost invariant = { λ s. (s.given ≤ length s.bytes.items) × (0 < s.piece) };
}

impl MemSource {
    /// Gives these bytes, at most `piece` in a call. The calls numbered in `failing`, counted from 1, fail.
    pub fn new(bytes: Vec<u8>, piece: usize, failing: Vec<u64>) -> MemSource
        requires { 0 < piece }
        ensures { result ≡ record {
          left = bytes.items;
          piece = piece;
          calls = 0;
          failing = failing.items;
          faults = 0;
        } }
    {
        MemSource {
            bytes,
            given: 0,
            piece,
            calls: 0,
            failing,
            faults: 0,
        }
    }

    /// Gives these bytes, at most `piece` in a call, and never fails.
    pub fn steady(bytes: Vec<u8>, piece: usize) -> SteadySource
        requires { 0 < piece }
        ensures { result ≡ record { left = bytes.items; piece = piece } }
    {
        SteadySource {
            bytes,
            given: 0,
            piece,
        }
    }
}

impl Source for MemSource {
    ghost left = { λ s. Some s.left };

    ghost faults = { λ s. s.faults };

    fn pull(&mut self, into: &mut [u8]) -> Result<usize, Failed>
        ensures within { ReadsAtMost result into.new }
        ensures given { ReadConsumes (Some self.old.left) (Some self.new.left) result into.new }
        ensures cause { HasCause self.old.faults self.new.faults result }

        ensures fails { IsErr result ↔ Contains self.old.failing (one_more self.old.calls) }
        ensures count { IfOk result (λ n. n ≡ min (min (length self.old.left) self.old.piece) (length into.old)) }
        ensures moved { IfOk result (λ n. self.new
            ≡ record self.old { left = drop n self.old.left; calls = one_more self.old.calls }) }
        ensures refused { OnErr result (self.new
            ≡ record self.old { calls = one_more self.old.calls; faults = one_more self.old.faults }) }
        ensures untouched { OnErr result (into.new ≡ into.old) }
    {
        self.calls = self.calls.saturating_add(1);
        if self.failing.contains(&self.calls) {
            self.faults = self.faults.saturating_add(1);
            Err(Failed)
        } else {
            let count = copy_front(&self.bytes[self.given..], self.piece, into);
            self.given += count;
            Ok(count)
        }
    }
}

// Copies the front of some bytes, at most n of them, and says how many.
fn copy_front(bytes: &[u8], most: usize, into: &mut [u8]) -> usize
    ensures count { result ≡ min (min (length bytes.now) most) (length into.old) }
    ensures copied { take result into.new ≡ take result bytes.now }
{
    let count = bytes.len().min(most).min(into.len());
    into[..count].copy_from_slice(&bytes[..count]);
    count
}

/// A source over bytes in memory that never fails.
#[derive(Drop)]
pub struct SteadySource {
    bytes: Vec<u8>,
    given: usize,
    piece: usize,
}

impl Model for SteadySource {
    ghost use Rattle.cip_io.specs.Memory.{SteadySupply};
    ghost use Rattle.std.specs.Prelude.{drop, ◌<◌, ◌≤◌, length};

    ghost Value = { SteadySupply };

    ghost view = { λ s. record { left = drop s.given s.bytes.items; piece = s.piece } };

    ghost invariant = { λ s. (s.given ≤ length s.bytes.items) × (0 < s.piece) };
}

impl Source for SteadySource {
    ghost left = { λ s. Some s.left };

    ghost faults = { λ _. 0 };

    fn pull(&mut self, into: &mut [u8]) -> Result<usize, Failed>
        ensures within { ReadsAtMost result into.new }
        ensures given { ReadConsumes (Some self.old.left) (Some self.new.left) result into.new }
        ensures cause { HasCause 0 0 result }

        ensures never_fails { IsOk result }
        ensures count { IfOk result (λ n. n ≡ min (min (length self.old.left) self.old.piece) (length into.old)) }
        ensures moved { IfOk result (λ n. self.new ≡ record self.old { left = drop n self.old.left }) }
    {
        let count = copy_front(&self.bytes[self.given..], self.piece, into);
        self.given += count;
        Ok(count)
    }
}

/// A sink over memory with a fixed room, some of whose calls fail.
#[derive(Drop)]
pub struct MemSink {
    bytes: Vec<u8>,
    piece: usize,
    room: usize,
    calls: u64,
    failing: Vec<u64>,
    faults: u64,
}

impl Model for MemSink {
    ghost use Rattle.cip_io.specs.Memory.{Store};
    ghost use Rattle.std.specs.Prelude.{◌+◌, ◌<◌, ◌≤◌, vec_len, vec_capacity};

    ghost Value = { Store };

    ghost view = { λ s. record {
      taken = s.bytes.items;
      piece = s.piece;
      room = s.room;
      calls = s.calls;
      failing = s.failing.items;
      faults = s.faults;
    } };

    // The room that is left was reserved when the sink was made, so that no push takes memory.
    ghost invariant = { λ s. (vec_len s.bytes + s.room ≤ vec_capacity s.bytes) × (0 < s.piece) };
}

impl MemSink {
    /// Takes at most `piece` bytes in a call, and `room` bytes in all. The calls numbered in `failing`,
    /// counted from 1, fail. All memory is taken here.
    pub fn with_room(
        alloc: Global,
        piece: usize,
        room: usize,
        failing: Vec<u64>,
    ) -> Result<MemSink, AllocError>
        requires { 0 < piece }
        ensures { IfOk result (λ s. s ≡ record
            { taken = []; piece = piece; room = room; calls = 0; failing = failing.items; faults = 0 }) }
    {
        match Vec::with_capacity(alloc, room) {
            Ok(bytes) => Ok(MemSink {
                bytes,
                piece,
                room,
                calls: 0,
                failing,
                faults: 0,
            }),
            Err(error) => Err(error),
        }
    }

    /// The bytes that were taken.
    pub fn into_bytes(self) -> Vec<u8>
        ensures { result.items ≡ self.taken }
    {
        self.bytes
    }
}

impl Sink for MemSink {
    ghost taken = { λ s. Some s.taken };

    ghost faults = { λ s. s.faults };

    fn push(&mut self, piece: &[u8]) -> Result<usize, Failed>
        ensures within { WritesAtMost result piece.now }
        ensures some { IfOk result (λ count. 0 < length piece.now → 0 < count) }
        ensures added { WriteAppends (Some self.old.taken) (Some self.new.taken) result piece.now }
        ensures cause { HasCause self.old.faults self.new.faults result }

        ensures fails { IsErr result ↔ Contains self.old.failing (one_more self.old.calls) ⊎ (self.old.room ≡ 0)
            × (0 < length piece.now) }
        ensures count { IfOk result (λ n. n ≡ min (min (length piece.now) self.old.piece) self.old.room) }
        ensures moved { IfOk result (λ n. self.new
            ≡ record self.old {
              taken = self.old.taken ++ take n piece.now;
              room = self.old.room - n;
              calls = one_more self.old.calls;
            }) }
        ensures refused { OnErr result (self.new
            ≡ record self.old { calls = one_more self.old.calls; faults = one_more self.old.faults }) }
    {
        self.calls = self.calls.saturating_add(1);
        let full = self.room == 0 && !piece.is_empty();
        if full || self.failing.contains(&self.calls) {
            self.faults = self.faults.saturating_add(1);
            Err(Failed)
        } else {
            let count = piece.len().min(self.piece).min(self.room);
            self.bytes.extend_from_slice(&piece[..count]).unwrap();
            self.room -= count;
            Ok(count)
        }
    }
}
