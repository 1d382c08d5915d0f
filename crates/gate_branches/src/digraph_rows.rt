// Rows that rank the branches of a small digraph by the calls whose contracts speak of nodes.
ghost use Rattle.std.specs.Prelude.{◌≡◌, ◌<◌, length, IfOk, IfSome};
ghost use Rattle.gate_branches.specs.Digraphs.{AreRankedFirst, AreRankedBefore};
ghost use Rattle.cip_mol.specs.declared.labels.outcome.Rule.TheVariants.{R1b};

use crate::by_nodes::{are_ranked, begin, follow, take_by_spheres, take_in_turn};
use crate::digraphs::SmallDigraph;
use crate::pairs::{descriptors, push_decision};
use crate::ranking::push_ranks;
use crate::trees::{Case, ROOM, neighbours};
use cip_branches::{Branches, ViewedTree};
use cip_digraph::BranchPair;
use cip_rules::Rule4bWorkspace;
use gate_tables::Text;
use std::alloc::{AllocError, Global};

// Room for all nodes, and below each for all of them and a parent.
const PLACES: u32 = ROOM + ROOM * (ROOM + 1);

/// What is asked of a digraph.
#[derive(Clone, Copy)]
pub enum DigraphRequest<'a> {
    /// How its branches rank by Rule 1a.
    Numbers,
    /// How they rank by Rule 1b too.
    LaterNumbers,
    /// Which rule up to 4b decides between the first two, by these masses and descriptors of the nodes.
    Decision { masses: &'a [u8], letters: &'a [u8] },
}

/// Prints what is asked of a digraph, whose branches are followed n spheres by Rule 1a.
pub fn push_digraph(
    alloc: Global,
    out: &mut Text,
    around: &ViewedTree<'_>,
    case: &Case<'_>,
    depth: u32,
    request: DigraphRequest<'_>,
)
    requires { case.now.from < length around.now.table.now.parents }
{
    let (masses, letters) = match request {
        DigraphRequest::Decision { masses, letters } => (masses, letters),
        DigraphRequest::Numbers | DigraphRequest::LaterNumbers => ([].as_slice(), [].as_slice()),
    };
    let Ok(descriptors) = descriptors(alloc, letters) else {
        return out.miss();
    };
    let digraph = SmallDigraph {
        around,
        atoms: case.keys,
        distances: case.later,
        masses,
        descriptors: &descriptors,
        height: 0,
    };
    match begun(alloc, &digraph, case.from) {
        Ok(Some(branches)) => push_followed(alloc, out, branches, &digraph, depth, request),
        Ok(None) => out.push_str("out of range"),
        Err(_) => out.miss(),
    }
}

// A branch below each node next to the one that the digraph is seen from.
fn begun(
    alloc: Global,
    digraph: &SmallDigraph<'_>,
    from: u32,
) -> Result<Option<Branches>, AllocError>
    requires { from < length digraph.now.parents }
    ensures { IfOk result (λ made. IfSome made (AreRankedFirst digraph.now)) }
{
    let tops = neighbours(alloc, digraph.around.table, from)?;
    let mut branches = Branches::reserve(alloc, PLACES)?;
    if begin(&mut branches, digraph, &tops) {
        Ok(Some(branches))
    } else {
        Ok(None)
    }
}

fn push_followed(
    alloc: Global,
    out: &mut Text,
    mut branches: Branches,
    digraph: &SmallDigraph<'_>,
    depth: u32,
    request: DigraphRequest<'_>,
)
    requires { AreRankedFirst digraph.now branches }
{
    let mut pairs = [BranchPair {
        first: 0,
        second: 1,
        decision: None,
    }];
    follow(&mut branches, digraph, depth, &mut pairs);
    let whole = digraph.with_height(branches.last());
    match request {
        DigraphRequest::Numbers => push_ranks(out, &branches),
        DigraphRequest::LaterNumbers => push_later_ranks(out, &mut branches, &whole),
        DigraphRequest::Decision { .. } => {
            push_decided(alloc, out, &mut branches, &whole, &mut pairs)
        }
    }
}

fn push_later_ranks(out: &mut Text, branches: &mut Branches, digraph: &SmallDigraph<'_>)
    requires { AreRankedFirst digraph.now branches.old }
{
    if !are_ranked(branches, digraph) {
        return out.push_str("not ended");
    }
    take_by_spheres(branches, digraph);
    push_ranks(out, branches)
}

// Which rule decides, and what it decides.
fn push_decided(
    alloc: Global,
    out: &mut Text,
    branches: &mut Branches,
    digraph: &SmallDigraph<'_>,
    pairs: &mut [BranchPair; 1],
)
    requires { AreRankedFirst digraph.now branches.old }
{
    if digraph.descriptors.len() != digraph.len() || !are_ranked(branches, digraph) {
        return out.push_str("out of range");
    }
    let Ok(mut readings) = Rule4bWorkspace::reserve(alloc, ROOM) else {
        return out.miss();
    };
    take_in_turn(branches, &mut readings, digraph, pairs);
    // proof: dropped by a call; at the end of scope it takes a minute to prove
    drop(readings);
    if let Some(decision) = pairs[0].decision {
        write!(out, "{} ", decision.rule);
    }
    push_decision(out, pairs[0].decision)
}
