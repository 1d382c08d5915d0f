// The traits of a source and of a sink, and writing a whole piece.
ghost use Rattle.std.specs.Prelude.{◌<◌, ℕ, List, length, IfOk, OnOk};
ghost use Rattle.std.specs.declared.option.Option.{Option};
ghost use Rattle.std.specs.Io.{ReadsAtMost, WritesAtMost};
ghost use Rattle.std.specs.Io.KnownBytes.{ReadConsumes, WriteAppends, Appends};
ghost use Rattle.cip_io.specs.Faults.{HasCause};
ghost use Rattle.cip_io.specs.Growth.{AppendsPrefix};

/// A read or a write that the other side refused. Nothing was moved by it.
#[derive(Clone, Copy, Debug, PartialEq, Eq)]
pub struct Failed;

/// Gives bytes, piece by piece.
pub trait Source {
    /// The bytes still to come; none where the source doesn't know them.
    ghost left: { Self → Option (List ℕ) };

    /// How many calls failed so far. It never falls, and stays at `u64::MAX` once it is there.
    ghost faults: { Self → ℕ };

    /// Fills the front of `into` and says how many bytes came. 0 for a piece that isn't empty is the end.
    fn pull(&mut self, into: &mut [u8]) -> Result<usize, Failed>
        ensures within { ReadsAtMost result into.new }
        ensures given { ReadConsumes (left self.old) (left self.new) result into.new }
        ensures cause { HasCause (faults self.old) (faults self.new) result };
}

/// Takes bytes, piece by piece.
pub trait Sink {
    /// The bytes taken so far; none where the sink doesn't know them.
    ghost taken: { Self → Option (List ℕ) };

    /// How many calls failed so far. It never falls, and stays at `u64::MAX` once it is there.
    ghost faults: { Self → ℕ };

    /// Takes the front of `piece`, at least one byte where there is one, and says how many.
    fn push(&mut self, piece: &[u8]) -> Result<usize, Failed>
        ensures within { WritesAtMost result piece.now }
        ensures some { IfOk result (λ count. 0 < length piece.now → 0 < count) }
        ensures added { WriteAppends (taken self.old) (taken self.new) result piece.now }
        ensures cause { HasCause (faults self.old) (faults self.new) result };
}

/// Writes a whole piece. After a fault the sink took some front of it.
pub fn push_all<K: Sink>(sink: &mut K, piece: &[u8]) -> Result<(), Failed>
    ensures whole { OnOk result (Appends (K.taken sink.old) (K.taken sink.new) piece.now) }
    ensures prefix { AppendsPrefix (K.taken sink.old) (K.taken sink.new) piece.now }
    ensures cause { HasCause (K.faults sink.old) (K.faults sink.new) result }
{
    let mut done = 0;
    while done < piece.len() {
        match sink.push(&piece[done..]) {
            Ok(count) => done += count,
            Err(fault) => return Err(fault),
        }
    }
    Ok(())
}
