// The calls of a table, one row after the other.
ghost use Rattle.std.specs.Thread.{IsSync};

use crate::output::text::Text;
use crate::rows::row::{Row, is_row};
use std::rt::Files;
use std::thread::Threads;
use std::{fs, io};

/// What makes the call of a row.
pub trait Caller {
    /// Writes what the call of a row answers.
    fn answer<R: Files + Threads + Sync + AllocGlobal>(
        &self,
        rt: &R,
        out: &mut Text,
        row: &Row,
    ) -> io::Result<()>
        requires { IsSync R.row };
}

/// Makes the calls of a table, prints what each of them answers where that isn't what its row has, and how many rows
/// there are.
pub fn make_calls<R: Files + Print + Threads + Sync + AllocGlobal, C: Caller>(
    rt: &R,
    name: &str,
    caller: &C,
) -> io::Result<()> {
    let table = fs::read_to_string(rt, name)?;
    let mut found = Text::new(rt.alloc());
    let count = make_each(rt, table.as_str(), caller, &mut found)?;
    println!(rt; "{name}: {count} rows")
}

fn make_each<R: Files + Print + Threads + Sync + AllocGlobal, C: Caller>(
    rt: &R,
    table: &str,
    caller: &C,
    found: &mut Text,
) -> io::Result<u32> {
    let mut count = 0u32;
    for line in table.lines() {
        if is_row(line) {
            count = count.saturating_add(1);
            let row = Row::read(rt.alloc(), line)?;
            make(rt, &row, caller, found)?;
        }
    }
    Ok(count)
}

// Makes the call of a row, and prints what it answers where that isn't what the row has.
fn make<R: Files + Print + Threads + Sync + AllocGlobal, C: Caller>(
    rt: &R,
    row: &Row,
    caller: &C,
    found: &mut Text,
) -> io::Result<()> {
    found.clear();
    caller.answer(rt, found, row)?;
    if !found.is_whole() {
        return Err(io::Error::from(io::ErrorKind::OutOfMemory));
    }
    let (answered, expected) = (found.as_str(), row.expected());
    if answered == expected {
        return Ok(());
    }
    println!(rt; "{}: {answered:?} for {expected:?}", row.call())
}
