// Records that are compared: worked ones of a file, and made ones.
ghost use Rattle.std.specs.Prelude.{◌≡◌, ◌<◌};

use crate::counts::Counts;
use crate::digraphs::roots::compare_roots;
use crate::molecule_rows::molecules::{Drawn, read_drawn, title};
use cip_frame::Framer;
use cip_make::record;
use cip_rank::Steps;
use std::rt::Files;
use std::sync::ledger::{Blank, Ledger};
use std::{fs, io};

// The worked molecules.
const MOLECULES: &str = "molecules.sd";
// How many records are made, in the series that starts at 1.
const MADE: u32 = 200;
// The most nodes of a digraph.
const NODES: u32 = 3_000;

// How much was compared so far, and how many molecules differ.
#[derive(Drop)]
struct Total {
    molecules: u32,
    counts: Counts,
    differ: u32,
}

impl Total {
    fn add(&mut self, counts: Counts, differs: bool) {
        self.molecules = self.molecules.saturating_add(1);
        self.counts.add(counts);
        if differs {
            self.differ = self.differ.saturating_add(1);
        }
    }
}

/// Compares all records, prints a line for each and a last one for all, and says whether one differs.
pub fn compare_records<R: Files + Print + AllocGlobal, L: Ledger>(
    rt: &R,
    blank: Blank,
) -> io::Result<bool>
    requires name { blank.name ≡ L.name }
    requires parts { blank.parts ≡ L.parts }
    requires one { 0 < blank.parts }
{
    let mut steps = Steps::<L>::open(blank);
    let mut total = Total {
        molecules: 0,
        counts: Counts::none(),
        differ: 0,
    };
    compare_worked(rt, &mut steps, &mut total)?;
    compare_made(rt, &mut steps, &mut total)?;
    println!(rt;
        "{} molecules, {}: {} differ",
        total.molecules, total.counts, total.differ
    )?;
    Ok(total.differ > 0)
}

fn compare_worked<R: Files + Print + AllocGlobal, L: Ledger>(
    rt: &R,
    steps: &mut Steps<L>,
    total: &mut Total,
) -> io::Result<()> {
    let bytes = fs::read(rt, MOLECULES)?;
    let mut framer = Framer::new(rt.alloc(), bytes.len() as u64);
    if framer.feed(&bytes).is_err() {
        return Err(io::Error::from(io::ErrorKind::Other));
    }
    let compared = compare_waiting(rt, &mut framer, steps, total);
    // proof: dropped by a call, which is quicker to prove than the end of scope
    drop(framer);
    compared
}

// Compares the records that wait in a framer.
fn compare_waiting<R: Print + AllocGlobal, L: Ledger>(
    rt: &R,
    framer: &mut Framer,
    steps: &mut Steps<L>,
    total: &mut Total,
) -> io::Result<()> {
    while let Some(record) = framer.next() {
        compare_record(rt, record.bytes.as_slice(), steps, total)?;
    }
    Ok(())
}

fn compare_made<R: Print + AllocGlobal, L: Ledger>(
    rt: &R,
    steps: &mut Steps<L>,
    total: &mut Total,
) -> io::Result<()> {
    for before in 0..MADE {
        let bytes = record(rt.alloc(), 1, before + 1)?;
        compare_record(rt, &bytes, steps, total)?;
    }
    Ok(())
}

// Compares what a record draws, and prints its line.
fn compare_record<R: Print + AllocGlobal, L: Ledger>(
    rt: &R,
    bytes: &[u8],
    steps: &mut Steps<L>,
    total: &mut Total,
) -> io::Result<()> {
    let drawn = read_drawn(rt.alloc(), bytes)?;
    let compared = compare_drawn(rt, title(bytes), &drawn, steps, total);
    drop(drawn);
    compared
}

fn compare_drawn<R: Print + AllocGlobal, L: Ledger>(
    rt: &R,
    name: &str,
    drawn: &Option<Drawn>,
    steps: &mut Steps<L>,
    total: &mut Total,
) -> io::Result<()> {
    let mut counts = Counts::none();
    let Some(drawn) = drawn else {
        total.add(counts, true);
        return println!(rt; "{name}: refused");
    };
    let found = compare_roots(rt.alloc(), drawn, NODES, steps, &mut counts)?;
    total.add(counts, found.is_some());
    match found {
        None => println!(rt; "{name}: {counts}"),
        Some(found) => println!(rt; "{name}: {found}"),
    }
}
