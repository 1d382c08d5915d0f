// What each call answers.
use crate::digraph_rows::DigraphRequest;
use crate::ranking::{BranchRequest, Request, output};
use crate::trees::{Case, DEEPEST, digit_in, nodes_told};
use gate_tables::{Caller, Row, Text};
use std::alloc::Global;
use std::io;
use std::rt::Files;
use std::thread::Threads;

/// The calls on branches.
#[derive(Drop)]
pub struct Ranks;

impl Caller for Ranks {
    fn answer<R: Files + Threads + Sync + AllocGlobal>(
        &self,
        rt: &R,
        out: &mut Text,
        row: &Row,
    ) -> io::Result<()> {
        answer_case(rt.alloc(), out, row, &case_of(row));
        Ok(())
    }
}

// The tree of a row: its parents, its keys, the node that it is seen from, and later keys.
fn case_of(row: &Row) -> Case<'_> {
    Case {
        parents: row.field(2).as_bytes(),
        keys: row.field(3).as_bytes(),
        from: row.number(4),
        later: row.field(5).as_bytes(),
    }
}

fn answer_case(alloc: Global, out: &mut Text, row: &Row, case: &Case<'_>) {
    let requested = row.field(6).as_bytes();
    match row.call() {
        "nodes" => nodes_told(alloc, out, case.parents),
        "ranked" => ranked(alloc, out, case, requested),
        "walked" => output(
            alloc,
            out,
            case,
            DEEPEST,
            Request::Branches(BranchRequest::Walked),
        ),
        "readings" => readings(alloc, out, case, requested),
        "ranked by nodes" => ranked_by_nodes(alloc, out, case, requested),
        "decided" => decided(alloc, out, case, requested, row.field(7).as_bytes()),
        _ => out.push_str("there is no such call"),
    }
}

fn ranked(alloc: Global, out: &mut Text, case: &Case<'_>, depths: &[u8]) {
    let first = Request::Branches(BranchRequest::Numbers);
    let both = Request::Branches(BranchRequest::LaterNumbers);
    push_each(alloc, out, case, depths, first, both)
}

// The same by the calls whose contracts speak of nodes, by Rules 1a and 1b.
fn ranked_by_nodes(alloc: Global, out: &mut Text, case: &Case<'_>, depths: &[u8]) {
    let first = Request::Digraph(DigraphRequest::Numbers);
    let both = Request::Digraph(DigraphRequest::LaterNumbers);
    push_each(alloc, out, case, depths, first, both)
}

// How the branches rank, a bar after each rank: n spheres down by the first rule, or where no digit stands for
// them over all spheres by both rules.
fn push_each(
    alloc: Global,
    out: &mut Text,
    case: &Case<'_>,
    depths: &[u8],
    first: Request<'_>,
    both: Request<'_>,
) {
    for depth in depths {
        match digit_in(*depth) {
            Some(depth) => output(alloc, out, case, depth, first),
            None => output(alloc, out, case, DEEPEST, both),
        }
        out.push_str("|");
    }
}

// What both readings of descriptors decide between the first two branches.
fn readings(alloc: Global, out: &mut Text, case: &Case<'_>, letters: &[u8]) {
    let request = BranchRequest::Readings(letters);
    output(alloc, out, case, DEEPEST, Request::Branches(request))
}

// Which rule up to 4b decides between the first two branches, in which sphere and how.
fn decided(alloc: Global, out: &mut Text, case: &Case<'_>, masses: &[u8], letters: &[u8]) {
    let request = DigraphRequest::Decision { masses, letters };
    output(alloc, out, case, DEEPEST, Request::Digraph(request))
}
