// Walks by turns over single and double bonds, which may meet an atom twice: where none leads, no ring does.
ghost use Rattle.std.specs.Prelude.{◌≡◌, IfOk, OnOk};
ghost use Rattle.cip_digraph.specs.rings.Alternating.{is_in};
ghost use Rattle.cip_digraph.specs.rings.SmallRings.{with_new};
ghost use Rattle.cip_ring.specs.Neighbours.{within};
ghost use Rattle.cip_mancude.specs.Walks.{onward, onward_of};

use crate::alternating::Alternation;
use cip_digraph::Edge;
use cip_ring::{Neighbours, VertexSet, reach_within};
use std::alloc::AllocError;

/// Steps over a single bond and the double bond after it.
#[derive(Drop)]
struct Onward<'a> {
    alternation: &'a Alternation<'a>,
}

impl<'a> Neighbours for Onward<'a> {
    ghost step = { λ s. onward s.alternation.now };

    fn add_steps(&self, from: u32, reached: &mut VertexSet) -> Result<(), AllocError> {
        add_onward(self.alternation, from, reached)
    }
}

/// Whether a walk over n double bonds at most leads to a target. The set serves the search.
pub fn has_walk(
    alternation: &Alternation,
    target: u32,
    most: u32,
    at: u32,
    reached: &mut VertexSet,
) -> Result<bool, AllocError>
    ensures { IfOk result (λ found. found ≡ is_in target (within (onward alternation.now) at most)) }
{
    match reach_within(&Onward { alternation }, at, most, reached) {
        Ok(()) => Ok(reached.contains(target)),
        Err(error) => Err(error),
    }
}

fn add_onward(alternation: &Alternation, at: u32, reached: &mut VertexSet) -> Result<(), AllocError>
    ensures { OnOk result (reached.new ≡ with_new reached.old (onward alternation.now at)) }
{
    for edge in alternation.edges_at(at) {
        if edge.order == 1 {
            let Ok(()) = add_behind(alternation, edge.other_end(at), reached) else {
                return Err(AllocError);
            };
        }
    }
    Ok(())
}

// Adds the partner of an atom, where both alternate.
fn add_behind(
    alternation: &Alternation,
    next: u32,
    reached: &mut VertexSet,
) -> Result<(), AllocError>
    ensures { OnOk result (reached.new ≡ with_new reached.old (onward_of alternation.now next)) }
{
    match alternation.partner(next) {
        Some(other) => reached.insert_if(alternation.alternates(other), other),
        None => Ok(()),
    }
}
