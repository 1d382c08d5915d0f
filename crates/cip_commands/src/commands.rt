// What each command does, and how it ends.
ghost use Rattle.std.specs.Prelude.{◌<◌, ◌+◌, ◌^◌};
ghost use Rattle.cip_batch.specs.Reading.{TakesAtMost};
ghost use Rattle.cip_commands.specs.Endings.{status_of};
ghost use Rattle.cip_commands.specs.Runs.{IsMissed};
ghost use Rattle.cip_commands.specs.Statuses.{stream, streams, MeansOf, MeansOfMaking, MeansOfTrying, MeansOfHelp};
ghost use Rattle.cip_commands.specs.Telling.{expected_output};
ghost use Rattle.cip_commands.specs.Trying.{answers_to};

use crate::exit_reason::ExitReason;
use crate::make::write_made;
use crate::series::LabelledSeries;
use crate::task_processor::TaskProcessor;
use crate::trial::write_summary;
use cip_batch::{Gate, Limits, StreamError, WorkerPool, process_stream};
use cip_io::{Sink, Source, push_all};
use cip_label::RootRanker;
use cip_words::{Series, help_text};
use std::alloc::Global;
use std::thread::Threads;

/// Writes what is written for each record of the source.
pub fn process_records<
    D: RootRanker + Drop + Send + Sync,
    R: Threads + Sync,
    G: Gate + Sync,
    S: Source,
    K: Sink,
>(
    pool: &WorkerPool<'_, R, G>,
    processor: &TaskProcessor<D>,
    limits: Limits,
    source: &mut S,
    sink: &mut K,
) -> ExitReason
    requires record { limits.record < 2 ^ 31 }
    requires input { limits.input < 2 ^ 63 }
    ensures meant { MeansOf processor.now.task (expected_output processor.now.task processor.now.labelling) limits (status_of result)
        (streams (S.left source.old) (S.faults source.old) (K.taken sink.old) (K.faults sink.old))
        (streams (S.left source.new) (S.faults source.new) (K.taken sink.new) (K.faults sink.new)) }
    ensures missed { IsMissed processor.now.task (expected_output processor.now.task processor.now.labelling) limits
        (S.left source.old) result }
    ensures bounded { TakesAtMost (limits.input + 1) (S.left source.old) (S.left source.new) }
{
    let answered = process_stream(pool, processor, limits, source, sink);
    ExitReason::after(processor.task, answered)
}

/// Writes made records.
pub fn make<K: Sink>(alloc: Global, series: Series, sink: &mut K) -> ExitReason
    ensures { MeansOfMaking series.start series.records (status_of result)
        (stream (K.taken sink.old) (K.faults sink.old)) (stream (K.taken sink.new) (K.faults sink.new)) }
{
    match write_made(alloc, series, sink) {
        Ok(()) => ExitReason::Done,
        Err(StreamError::WriteFault) => ExitReason::WriteFault,
        Err(_) => ExitReason::OutOfMemory,
    }
}

/// Labels made records, and writes the summary of their outcomes.
pub fn label_series<D: RootRanker + Drop + Send + Sync, R: Threads + Sync, G: Gate + Sync, K: Sink>(
    pool: &WorkerPool<'_, R, G>,
    trial: &LabelledSeries,
    sink: &mut K,
) -> ExitReason
    ensures { MeansOfTrying (answers_to trial.now.series trial.now.labelling trial.now.series.records)
        (status_of result) (stream (K.taken sink.old) (K.faults sink.old))
        (stream (K.taken sink.new) (K.faults sink.new)) }
{
    match write_summary::<D, R, G, K>(pool, trial, sink) {
        Ok(false) => ExitReason::Done,
        Ok(true) => ExitReason::Flagged,
        Err(StreamError::WriteFault) => ExitReason::WriteFault,
        Err(_) => ExitReason::OutOfMemory,
    }
}

/// Writes the help text. It takes no memory.
pub fn help<K: Sink>(sink: &mut K) -> ExitReason
    ensures { MeansOfHelp (status_of result)
        (stream (K.taken sink.old) (K.faults sink.old)) (stream (K.taken sink.new) (K.faults sink.new)) }
{
    match push_all(sink, help_text().as_bytes()) {
        Ok(()) => ExitReason::Done,
        Err(_) => ExitReason::WriteFault,
    }
}
