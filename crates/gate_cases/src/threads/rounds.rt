// A case, run once for each call that may fail.
use crate::case::{Calls, Case};
use crate::running::{Outcome, run_case};
use std::alloc::{AllocError, Global};
use std::thread::Threads;

// More runs than any case has.
const MOST: u64 = 10_000;

/// The runs of a case in which the first call of a kind fails, the second one, and so on, and after them the run in
/// which none fails.
pub fn run_in_turn<R: Threads + Sync>(
    rt: &R,
    alloc: Global,
    case: &Case<'_>,
    calls: Calls,
    input: &[u8],
) -> Result<Vec<Outcome>, AllocError> {
    let mut runs = Vec::new(alloc);
    for number in 1..MOST {
        let case = failing_at(*case, calls, number);
        let outcome = run_case(rt, alloc, &case, input.to_vec(alloc)?)?;
        let is_last = !outcome.has_failed;
        runs.push(outcome)?;
        if is_last {
            break;
        }
    }
    Ok(runs)
}

fn failing_at<'a>(case: Case<'a>, calls: Calls, number: u64) -> Case<'a> {
    let mut case = case;
    match calls {
        Calls::Pushes => case.failing_push = number,
        Calls::Notes => case.failing_note = number,
    }
    case
}

/// How many of the runs with a failing call have the status of the first of them, and hold a front of what the last run
/// holds where the calls go.
pub fn summary(alloc: Global, calls: Calls, runs: &[Outcome]) -> Result<String, AllocError> {
    let [failing @ .., whole] = runs else {
        return Ok(String::new(alloc));
    };
    let status = failing.first().map_or(0, |first| first.status);
    let alike = failing
        .iter()
        .filter(|run| run.status == status && held(calls, whole).starts_with(held(calls, run)))
        .count();
    format!(in alloc;
        "{alike} of {} runs with a failing call have status {status} and hold a front of the {} bytes that the run \
         with status {} holds",
        failing.len(),
        held(calls, whole).len(),
        whole.status
    )
}

fn held(calls: Calls, run: &Outcome) -> &[u8] {
    match calls {
        Calls::Pushes => &run.written,
        Calls::Notes => &run.said,
    }
}
