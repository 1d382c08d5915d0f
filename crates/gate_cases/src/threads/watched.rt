// A sink that is watched.
use cip_io::{Failed, Sink};

/// A sink, and whether one of its calls failed.
#[derive(Drop)]
pub struct Watched<K> {
    pub sink: K,
    pub has_failed: bool,
}

impl<K: Sink> Sink for Watched<K> {
    ghost taken = { λ watched. K.taken watched.sink };

    ghost faults = { λ watched. K.faults watched.sink };

    fn push(&mut self, piece: &[u8]) -> Result<usize, Failed> {
        let pushed = self.sink.push(piece);
        self.has_failed |= pushed.is_err();
        pushed
    }
}
