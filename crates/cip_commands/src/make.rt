// Records that are made.
ghost use Rattle.std.specs.Prelude.{◌≤◌, IsErrOf};
ghost use Rattle.cip_io.specs.Faults.{Rose};
ghost use Rattle.cip_commands.specs.Making.{Makes};

use cip_batch::StreamError;
use cip_io::{Sink, push_all};
use cip_make::record;
use cip_words::Series;
use std::alloc::Global;

/// Makes the records of a series, and writes each before the next one is made.
pub fn write_made<K: Sink>(alloc: Global, series: Series, sink: &mut K) -> Result<(), StreamError>
    ensures made { Makes series.start series.records result (K.taken sink.old) (K.taken sink.new) }
    ensures fault { IsErrOf result StreamError.WriteFault → Rose (K.faults sink.old) (K.faults sink.new) }
    ensures later { K.faults sink.old ≤ K.faults sink.new }
{
    let Series { start, records } = series;
    for before in 0..records {
        let Ok(bytes) = record(alloc, start, before + 1) else {
            return Err(StreamError::Memory);
        };
        let pushed = push_all(sink, &bytes);
        drop(bytes);
        let Ok(()) = pushed else {
            return Err(StreamError::WriteFault);
        };
    }
    Ok(())
}
