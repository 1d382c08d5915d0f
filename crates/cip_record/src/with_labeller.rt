// What is found out of a record in memory that is reserved for it alone.
ghost use Rattle.std.specs.Prelude.{◌≤◌, ◌<◌, ◌-◌, ◌^◌, ℕ, List, IfOk, length};
ghost use Rattle.cip_item.specs.Parts.{without_label_items};

use cip_item::without_label_items;
use cip_label::{Labeller, RootRanker};
use cip_ranker::RecordLabeller;
use cip_text::RecordLines;
use std::alloc::{AllocError, Global};

/// What is to be found out of a record by a labeller, whoever grows and ranks its digraphs.
pub trait LabellerTask {
    /// What is found out.
    type Answer;

    /// What its answers to a record without label items are, by the bound on the nodes of a digraph.
    ghost answers: { Self → ℕ → List ℕ → Self.Answer → Type 0 };

    /// Finds it out of a record without label items.
    fn run<D: RootRanker>(
        &self,
        alloc: Global,
        labeller: &mut Labeller<D>,
        lines: &RecordLines,
    ) -> Result<Self::Answer, AllocError>
        requires few { length lines.now < 2 ^ 32 - 1 }
        ensures { IfOk result (answers self.now labeller.old lines.now) };
}

/// Runs a task for one record alone, whose label items are taken out first, in memory for digraphs of at most
/// `nodes` nodes.
// proof: each crate that owns a ranker proves how each of its columns is dropped, so all calls for one record come here
pub fn with_new_labeller<E: LabellerTask>(
    alloc: Global,
    bytes: &[u8],
    nodes: u32,
    task: &E,
) -> Result<E::Answer, AllocError>
    requires few { length bytes.now < 2 ^ 32 - 1 }
    requires some { 1 ≤ nodes }
    requires bounded { nodes ≤ 1000000 }
    ensures { IfOk result (E.answers task.now nodes (without_label_items bytes.now)) }
{
    let bare = without_label_items(alloc, bytes)?;
    let lines = RecordLines::new(alloc, &bare)?;
    run_bare(alloc, &lines, nodes, task)
}

// The same of a record without label items.
fn run_bare<E: LabellerTask>(
    alloc: Global,
    lines: &RecordLines,
    nodes: u32,
    task: &E,
) -> Result<E::Answer, AllocError>
    requires few { length lines.now < 2 ^ 32 - 1 }
    requires some { 1 ≤ nodes }
    requires bounded { nodes ≤ 1000000 }
    ensures { IfOk result (E.answers task.now nodes lines.now) }
{
    let mut labeller = RecordLabeller::reserve(alloc, nodes)?;
    let answer = task.run(alloc, &mut labeller, lines);
    // proof: dropped by a call; at the end of scope it takes a minute to prove
    drop(labeller);
    answer
}
