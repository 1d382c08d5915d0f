// All that the gate runs: worked cases, of which it prints what each leaves; digraphs that are made twice; and
// the calls of tables, of which it prints those that answer something else.
#![tactic(auto)]

mod added;
mod answering;
mod batches;
mod case;
mod running;
mod runs;
mod stream_parts;
mod streams;
mod threads;

use crate::added::lines_added;
use crate::answering::Runs;
use crate::case::{Case, read_case};
use crate::running::{Outcome, run_case};
use crate::threads::rounds::{run_in_turn, summary};
use cip_io::{Sink, StdSink, push_all};
use gate_branches::Ranks;
use gate_differential::{Worked, compare_records};
use gate_records::Records;
use gate_tables::{Calls, make_calls};
use std::alloc::{AllocError, Global};
use std::marker::Brand;
use std::process::ExitCode;
use std::rt::Files;
use std::sync::ledger::Blank;
use std::thread::Threads;
use std::{fs, io};

// The cases, beside their input files.
const CASES: &str = "cases.txt";

fn main(rt: HostRuntime) -> io::Result<ExitCode> {
    show_cases(&rt, &mut StdSink::new(rt.stdout()))?;
    let differ = compare_records::<_, Brand>(&rt, Blank::new(1))?;
    make_all_calls(&rt)?;
    Ok(if differ {
        ExitCode::FAILURE
    } else {
        ExitCode::SUCCESS
    })
}

// The calls of all tables.
fn make_all_calls<R: Files + Print + Threads + Sync + AllocGlobal>(rt: &R) -> io::Result<()> {
    make_calls(rt, "calls.txt", &Calls)?;
    make_calls(rt, "records.txt", &Records)?;
    make_calls(rt, "digraphs.txt", &Worked)?;
    make_calls(rt, "branches.txt", &Ranks)?;
    make_calls(rt, "made_branches.txt", &Ranks)?;
    make_calls(rt, "runs.txt", &Runs)
}

// Runs each case of the table.
fn show_cases<R: Files + Threads + Sync + AllocGlobal, K: Sink>(
    rt: &R,
    out: &mut K,
) -> io::Result<()> {
    let table = fs::read_to_string(rt, CASES)?;
    for line in table.as_str().lines() {
        if let Some(case) = read_case(line) {
            let text = text_of(rt, &case)?;
            if push_all(out, &text).is_err() {
                return Err(io::Error::from(io::ErrorKind::Other));
            }
        }
    }
    Ok(())
}

// What is shown of a case: what its run leaves, or one line of the runs in which a call fails in turn.
fn text_of<R: Files + Threads + Sync + AllocGlobal>(
    rt: &R,
    case: &Case<'_>,
) -> io::Result<Vec<u8>> {
    let alloc = rt.alloc();
    let input = fs::read(rt, case.file)?;
    let Some(calls) = case.in_turn else {
        let outcome = run_case(rt, alloc, case, input.to_vec(alloc)?)?;
        return Ok(outcome_text(alloc, case.name, &input, &outcome)?);
    };
    let runs = run_in_turn(rt, alloc, case, calls, &input)?;
    let summary = summary(alloc, calls, &runs)?;
    Ok(format!(in alloc; "=== {}: {summary}\n", case.name)?.into_bytes())
}

// The name of a case and its exit status, its diagnostics, and the bytes that were written: where they are the input with
// lines put in, these lines alone.
fn outcome_text(
    alloc: Global,
    name: &str,
    input: &[u8],
    outcome: &Outcome,
) -> Result<Vec<u8>, AllocError> {
    let head = format!(in alloc; "=== {name}: status {}\n", outcome.status)?;
    let mut text = head.into_bytes();
    text.extend_from_slice(&outcome.said)?;
    match lines_added(alloc, input, &outcome.written)? {
        Some(added) => text.extend_from_slice(&added)?,
        None => text.extend_from_slice(&outcome.written)?,
    }
    text.push(b'\n')?;
    Ok(text)
}
