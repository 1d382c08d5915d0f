// Atoms that share an alternating ring.
ghost use Rattle.std.specs.Prelude.{◌≡◌, ◌≤◌};
ghost use Rattle.cip_digraph.specs.rings.Alternating.{partner};
ghost use Rattle.cip_digraph.specs.graph.Graph.{edges_at};
ghost use Rattle.cip_mancude.specs.SharedRings.{ring_along, ring_meets, share_alternating_ring};

use crate::alternating::Alternation;
use crate::bounded_walks::{MOST_DOUBLES, WalkTarget, reaches_early};
use crate::path::Path;
use cip_digraph::Graph;
use std::alloc::Global;

/// The double bond of an atom, by which a ring begins.
#[derive(Clone, Copy)]
struct Start {
    vertex: u32,
    next: u32,
}

/// Whether an alternating ring holds both atoms. It takes no memory.
#[tactic(auto, unfolding(crate::specs::SharedRings::share_alternating_ring), using(crate::proofs::lemmas::WaySteps::none_shared))]
pub fn share_alternating_ring(alloc: Global, graph: &Graph, vertex: u32, third: u32) -> bool
    ensures { result ≡ share_alternating_ring graph.now vertex third }
{
    let alternation = Alternation::bare(alloc, graph);
    match alternation.partner(vertex) {
        Some(next) if alternation.alternates(third) && alternation.alternates(next) => {
            let start = Start { vertex, next };
            ring_along(alloc, &alternation, MOST_DOUBLES, third, start)
        }
        _ => false,
    }
}

fn ring_along(alloc: Global, alternation: &Alternation, most: u32, third: u32, start: Start) -> bool
    requires next { start.next ≡ partner alternation.now start.vertex }
    requires most { most ≤ 11 }
    ensures { result ≡ ring_along alternation.now most third start.vertex (edges_at alternation.now start.vertex) }
{
    for edge in alternation.edges_at(start.vertex) {
        let other = edge.other_end(start.vertex);
        if edge.order == 1 && ring_meets(alloc, alternation, most, third, start, other) {
            return true;
        }
    }
    false
}

// Whether a ring over the double bond and along the single bond to another atom meets a third one.
fn ring_meets(
    alloc: Global,
    alternation: &Alternation,
    most: u32,
    third: u32,
    start: Start,
    other: u32,
) -> bool
    requires next { start.next ≡ partner alternation.now start.vertex }
    requires most { most ≤ 11 }
    ensures { result ≡ ring_meets alternation.now most third start.vertex other }
{
    if alternation.alternates(other) && other != start.next {
        let mut path = Path::new(alloc);
        path.push(start.vertex);
        path.push(start.next);
        let aim = WalkTarget {
            target: other,
            third,
        };
        reaches_early(alternation, aim, most, &mut path, start.next)
    } else {
        false
    }
}
