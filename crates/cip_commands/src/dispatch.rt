// What the words ask for, done.
ghost use Rattle.std.specs.Prelude.{◌≡◌, ◌≤◌, ◌<◌, ◌+◌, ◌^◌, ◌⊎◌, None, false};
ghost use Rattle.cip_batch.specs.Reading.{TakesAtMost};
ghost use Rattle.cip_words.specs.Settings.{settings_of};
ghost use Rattle.cip_commands.specs.Endings.{line_of, status_of};
ghost use Rattle.cip_commands.specs.ExitStatuses.{DONE, FLAGGED};
ghost use Rattle.cip_commands.specs.Runs.{IsCause, IsCauseBy, Says};
ghost use Rattle.cip_commands.specs.Statuses.{streams, reads, reads_by, Means, MeansBy};

use crate::commands::{help, label_series, make, process_records};
use crate::exit_reason::ExitReason;
use crate::series::LabelledSeries;
use crate::task_processor::TaskProcessor;
use cip_batch::{Gate, Limits, WorkerPool};
use cip_io::{Sink, Source, push_all};
use cip_label::RootRanker;
use cip_words::{Action, read_words};
use std::marker::PhantomData;
use std::thread::Threads;

/// Does what the words ask for, with as many workers as they say, in digraphs of the kind that the caller names.
pub fn run_command<
    D: RootRanker + Drop + Send + Sync,
    R: Threads + Sync,
    G: Gate + Sync,
    S: Source,
    K: Sink,
>(
    alone: &WorkerPool<'_, R, G>,
    words: &[String],
    limits: Limits,
    source: &mut S,
    sink: &mut K,
) -> ExitReason
    requires record { limits.record < 2 ^ 31 }
    requires input { limits.input < 2 ^ 63 }
    ensures meant { Means (settings_of words.now) limits (status_of result)
        (streams (S.left source.old) (S.faults source.old) (K.taken sink.old) (K.faults sink.old))
        (streams (S.left source.new) (S.faults source.new) (K.taken sink.new) (K.faults sink.new)) }
    ensures cause { IsCause (settings_of words.now) limits (S.left source.old) result }
    ensures untouched { reads (settings_of words.now) ≡ false → source.new ≡ source.old }
    ensures unwritten { settings_of words.now ≡ None → sink.new ≡ sink.old }
    ensures bounded { TakesAtMost (limits.input + 1) (S.left source.old) (S.left source.new) }
{
    let Some(settings) = read_words(words) else {
        return ExitReason::WordsRefused;
    };
    act::<D, R, G, S, K>(alone, settings.action(), limits, source, sink)
}

// Does what a command does, with as many workers as it says.
fn act<D: RootRanker + Drop + Send + Sync, R: Threads + Sync, G: Gate + Sync, S: Source, K: Sink>(
    alone: &WorkerPool<'_, R, G>,
    action: Action,
    limits: Limits,
    source: &mut S,
    sink: &mut K,
) -> ExitReason
    requires record { limits.record < 2 ^ 31 }
    requires input { limits.input < 2 ^ 63 }
    ensures meant { MeansBy action limits (status_of result)
        (streams (S.left source.old) (S.faults source.old) (K.taken sink.old) (K.faults sink.old))
        (streams (S.left source.new) (S.faults source.new) (K.taken sink.new) (K.faults sink.new)) }
    ensures cause { IsCauseBy action limits (S.left source.old) result }
    ensures untouched { reads_by action ≡ false → source.new ≡ source.old }
    ensures bounded { TakesAtMost (limits.input + 1) (S.left source.old) (S.left source.new) }
{
    match action {
        Action::Read(task, labelling) => {
            let processor: TaskProcessor<D> = TaskProcessor {
                task,
                labelling,
                digraphs: PhantomData,
            };
            process_records(
                &with_workers(alone, labelling.workers),
                &processor,
                limits,
                source,
                sink,
            )
        }
        Action::Make(series) => make(alone.alloc, series, sink),
        Action::Trial(series, labelling) => {
            let pool = with_workers(alone, labelling.workers);
            label_series::<D, R, G, K>(&pool, &LabelledSeries { series, labelling }, sink)
        }
        Action::Help => help(sink),
    }
}

// The same pool of n workers.
fn with_workers<'a, R, G>(alone: &WorkerPool<'a, R, G>, workers: u8) -> WorkerPool<'a, R, G>
    requires { 1 ≤ workers }
    ensures { result.workers ≡ workers }
{
    WorkerPool {
        rt: alone.rt,
        alloc: alone.alloc,
        gate: alone.gate,
        workers,
    }
}

/// Writes the line of an ending, where it has one. A line that can't be written changes nothing.
pub fn write_diagnostic<E: Sink>(diag: &mut E, ending: ExitReason)
    ensures quiet { (status_of ending ≡ DONE) ⊎ (status_of ending ≡ FLAGGED) → diag.new ≡ diag.old }
    ensures said { Says (E.taken diag.old) (E.taken diag.new) (E.faults diag.old) (E.faults diag.new) (line_of ending) }
{
    let line = ending.line();
    if !line.is_empty() {
        let _ = push_all(diag, line);
    }
}
