// The top call.
ghost use Rattle.std.specs.Prelude.{◌≡◌, ◌↔◌, ◌<◌, ◌+◌, ◌^◌, ◌⊎◌, None, false};
ghost use Rattle.cip_batch.specs.Reading.{TakesAtMost};
ghost use Rattle.cip_words.specs.Settings.{settings_of};
ghost use Rattle.cip_commands.specs.ExitStatuses.{DONE, FLAGGED, WORDS_REFUSED};
ghost use Rattle.cip_run.specs.RunLimits.{limits_of_run};
ghost use Rattle.cip_commands.specs.Runs.{IsStatus, SaysEnding};
ghost use Rattle.cip_commands.specs.Statuses.{streams, reads, Means};

use cip_batch::{Gate, LIMITS, Limits, Open, WorkerPool};
use cip_commands::{run_command, write_diagnostic};
use cip_io::{Sink, Source};
use cip_ranker::Ranker;
use std::alloc::Global;
use std::thread::Threads;

/// Does what the words ask for. A command that reads takes the source to its end, within the limits of 16 MiB a record
/// and 2^40 bytes an input. The answer is the exit status, for which `diag` gets a line unless it is 0 or 1.
pub fn run<R: Threads + Sync, S: Source, K: Sink, E: Sink>(
    rt: &R,
    alloc: Global,
    words: &[String],
    source: &mut S,
    sink: &mut K,
    diag: &mut E,
) -> u8
    ensures status { IsStatus result }

    // What the status means, for the source and the sink.
    ensures meant { Means (settings_of words.now) limits_of_run result
        (streams (S.left source.old) (S.faults source.old) (K.taken sink.old) (K.faults sink.old))
        (streams (S.left source.new) (S.faults source.new) (K.taken sink.new) (K.faults sink.new)) }
    ensures refused { result ≡ WORDS_REFUSED ↔ (settings_of words.now ≡ None) }

    // Only commands that read touch the source, and no more of it is taken than it needs to know that a limit is
    // passed. Where the words are refused the sink is untouched too.
    ensures untouched { reads (settings_of words.now) ≡ false → source.new ≡ source.old }
    ensures unwritten { result ≡ WORDS_REFUSED → sink.new ≡ sink.old }
    ensures bounded { TakesAtMost (limits_of_run.input + 1) (S.left source.old) (S.left source.new) }

    // What is said of it.
    ensures quiet { (result ≡ DONE) ⊎ (result ≡ FLAGGED) → diag.new ≡ diag.old }
    ensures said { SaysEnding (settings_of words.now) limits_of_run (S.left source.old) result
        (E.taken diag.old) (E.taken diag.new) (E.faults diag.old) (E.faults diag.new) }
{
    run_limits(rt, alloc, words, LIMITS, &Open, source, sink, diag)
}

/// `run` within other limits. Each record that is labelled enters the gate once, with its place in its batch from 0, on
/// the thread that labels it and before it does.
pub fn run_limits<R: Threads + Sync, G: Gate + Sync, S: Source, K: Sink, E: Sink>(
    rt: &R,
    alloc: Global,
    words: &[String],
    limits: Limits,
    gate: &G,
    source: &mut S,
    sink: &mut K,
    diag: &mut E,
) -> u8
    requires record { limits.record < 2 ^ 31 }
    requires input { limits.input < 2 ^ 63 }
    ensures status { IsStatus result }

    // What the status means, for the source and the sink.
    ensures meant { Means (settings_of words.now) limits result
        (streams (S.left source.old) (S.faults source.old) (K.taken sink.old) (K.faults sink.old))
        (streams (S.left source.new) (S.faults source.new) (K.taken sink.new) (K.faults sink.new)) }
    ensures refused { result ≡ WORDS_REFUSED ↔ (settings_of words.now ≡ None) }

    // Only commands that read touch the source, and no more of it is taken than it needs to know that a limit is
    // passed. Where the words are refused the sink is untouched too.
    ensures untouched { reads (settings_of words.now) ≡ false → source.new ≡ source.old }
    ensures unwritten { result ≡ WORDS_REFUSED → sink.new ≡ sink.old }
    ensures bounded { TakesAtMost (limits.input + 1) (S.left source.old) (S.left source.new) }

    // What is said of it.
    ensures quiet { (result ≡ DONE) ⊎ (result ≡ FLAGGED) → diag.new ≡ diag.old }
    ensures said { SaysEnding (settings_of words.now) limits (S.left source.old) result
        (E.taken diag.old) (E.taken diag.new) (E.faults diag.old) (E.faults diag.new) }
{
    let alone = WorkerPool {
        rt,
        alloc,
        gate,
        workers: 1,
    };
    let ending = run_command::<Ranker, R, G, S, K>(&alone, words, limits, source, sink);
    write_diagnostic(diag, ending);
    ending.status()
}
