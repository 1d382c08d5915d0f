// Pieces that are written together.
ghost use Rattle.std.specs.Prelude.{◌≡◌, ◌≤◌, ◌+◌, ◌++◌, [], length, vec_capacity, vec_len, IfOk, OnErr, OnOk};
ghost use Rattle.std.specs.Io.KnownBytes.{Appends};
ghost use Rattle.cip_io.specs.Faults.{HasCause};
ghost use Rattle.cip_io.specs.Growth.{AppendsPrefix, TakesFront};

use crate::{Failed, Sink, push_all};
use std::alloc::{AllocError, Global};
use std::marker::Model;

/// Pieces that wait to be written at once, as far as they fit into a room. Contracts see their bytes.
#[derive(Drop)]
pub struct WriteBuffer {
    text: Vec<u8>,
    room: usize,
}

impl Model for WriteBuffer {
    ghost use Rattle.std.specs.Prelude.{◌≤◌, List, ℕ, vec_capacity, vec_len};

    ghost Value = { List ℕ };

    ghost view = { λ joined. joined.text.items };

    // The room was reserved when this was made, so that no piece takes memory.
    ghost invariant = { λ joined. (vec_len joined.text ≤ joined.room) × (joined.room ≤ vec_capacity joined.text) };
}

impl WriteBuffer {
    /// None waits. All memory is taken here.
    pub fn with_room(alloc: Global, room: usize) -> Result<WriteBuffer, AllocError>
        ensures { IfOk result (λ joined. joined ≡ []) }
    {
        match Vec::with_capacity(alloc, room) {
            Ok(text) => Ok(WriteBuffer { text, room }),
            Err(error) => Err(error),
        }
    }

    /// Takes a piece, which waits after the others. Where it doesn't fit they are written first, and one that is
    /// longer than the room is written at once.
    pub fn push<K: Sink>(&mut self, piece: &[u8], sink: &mut K) -> Result<(), Failed>
        ensures taken { OnOk result (TakesFront (K.taken sink.old) (K.taken sink.new) (self.old ++ piece.now) self.new) }
        ensures prefix { OnErr result (AppendsPrefix (K.taken sink.old) (K.taken sink.new) (self.old ++ piece.now)) }
        ensures cause { HasCause (K.faults sink.old) (K.faults sink.new) result }
    {
        if piece.len() <= self.room - self.text.len() {
            hold(&mut self.text, piece);
            Ok(())
        } else {
            match self.flush(sink) {
                Ok(()) if piece.len() <= self.room => {
                    hold(&mut self.text, piece);
                    Ok(())
                }
                Ok(()) => push_all(sink, piece),
                Err(fault) => Err(fault),
            }
        }
    }

    /// Writes what waits.
    pub fn flush<K: Sink>(&mut self, sink: &mut K) -> Result<(), Failed>
        ensures whole { OnOk result (Appends (K.taken sink.old) (K.taken sink.new) self.old) }
        ensures emptied { OnOk result (self.new ≡ []) }
        ensures prefix { OnErr result (AppendsPrefix (K.taken sink.old) (K.taken sink.new) self.old) }
        ensures cause { HasCause (K.faults sink.old) (K.faults sink.new) result }
    {
        match push_all(sink, &self.text) {
            Ok(()) => {
                self.text.clear();
                Ok(())
            }
            Err(fault) => Err(fault),
        }
    }
}

// Puts a piece after a text that has room for it.
fn hold(text: &mut Vec<u8>, piece: &[u8])
    requires room { vec_len text.old + length piece.now ≤ vec_capacity text.old }
    ensures held { text.new.items ≡ text.old.items ++ piece.now }
    ensures len { vec_len text.new ≡ vec_len text.old + length piece.now }
    ensures capacity { vec_capacity text.old ≤ vec_capacity text.new }
{
    text.extend_from_slice(piece).unwrap();
}
