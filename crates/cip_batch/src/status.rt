// What records add to the end of a run.
ghost use Rattle.std.specs.Prelude.{◌≡◌};
ghost use Rattle.cip_batch.specs.Verdicts.{clear, joined, joined_result};

use crate::error::StreamError;

/// What records add to the end of a run: whether one of them is flagged, and the first note on one of them.
#[derive(Clone, Copy)]
pub struct StreamStatus<N> {
    pub flagged: bool,
    pub note: Option<N>,
}

impl<N: Copy> StreamStatus<N> {
    /// None is flagged, and there is no note.
    pub fn clear() -> StreamStatus<N>
        ensures { result ≡ clear }
    {
        StreamStatus {
            flagged: false,
            note: None,
        }
    }

    /// Of these records, and of others after them.
    pub fn and(self, behind: StreamStatus<N>) -> StreamStatus<N>
        ensures { result ≡ joined self behind }
    {
        StreamStatus {
            flagged: self.flagged || behind.flagged,
            note: self.note.or(behind.note),
        }
    }

    /// Of these records, and of others after them unless those stopped the run.
    pub fn then(
        self,
        behind: Result<StreamStatus<N>, StreamError>,
    ) -> Result<StreamStatus<N>, StreamError>
        ensures { result ≡ joined_result self behind }
    {
        match behind {
            Ok(behind) => Ok(self.and(behind)),
            Err(stop) => Err(stop),
        }
    }
}
