// The program: hands the real streams to the top call and ends with its status.
#![tactic(auto)]

use cip_io::{StdSink, StdSource, push_all};
use cip_run::{ExitReason, run};
use std::io::ErrorKind;
use std::process::ExitCode;
use std::rt::Env;
use std::{env, io};

// The words after the program's name.
fn words<R: Env + AllocGlobal>(rt: &R) -> io::Result<Vec<String>> {
    let mut words = Vec::new(rt.alloc());
    for word in env::args(rt)?.skip(1) {
        words.push(word)?;
    }
    Ok(words)
}

fn main(rt: HostRuntime) -> ExitCode {
    let mut source = StdSource::new(rt.stdin());
    let mut sink = StdSink::new(rt.stdout());
    let mut diag = StdSink::new(rt.stderr());
    let words = match words(&rt) {
        Ok(words) => words,
        Err(error) if error.kind() == ErrorKind::OutOfMemory => {
            let _ = push_all(&mut diag, ExitReason::OutOfMemory.line());
            return ExitCode::from(ExitReason::OutOfMemory.status());
        }
        // Words that aren't text are refused, as an empty list of words is.
        Err(_) => Vec::new(rt.alloc()),
    };
    ExitCode::from(run(&rt, rt.alloc(), &words, &mut source, &mut sink, &mut diag))
}
