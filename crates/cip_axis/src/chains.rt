// Chains of double bonds, followed from one of their atoms.
ghost use Rattle.std.specs.Prelude.{◌≡◌, ◌==◌, ◌&&◌, IfOk, length, not};
ghost use Rattle.cip_digraph.specs.graph.Graph.{other_end};
ghost use Rattle.cip_axis.specs.Cumulenes.{chain_over, continues_chain, next_atom, onward};

use crate::count_three::one_if;
use cip_digraph::{Edge, Graph};
use cip_unit::is_allene_middle;
use std::alloc::{AllocError, Global};

/// The atoms along double bonds from an atom over a neighbour, up to the first that isn't an inner one.
pub fn chain_over(alloc: Global, graph: &Graph, a: u32, next: u32) -> Result<Vec<u32>, AllocError>
    ensures { IfOk result (λ chain. chain.items ≡ chain_over graph.now a next) }
{
    let most = graph.vertices().len();
    let mut chain = Vec::new(alloc);
    let Ok(()) = chain.push(a) else {
        return Err(AllocError);
    };
    let mut before = a;
    let mut at = next;
    for _ in 0..most {
        let Ok(()) = chain.push(at) else {
            return Err(AllocError);
        };
        if continues_chain(graph, before, at) {
            let on = next_atom(graph, before, at);
            before = at;
            at = on;
        } else {
            return Ok(chain);
        }
    }
    Ok(chain)
}

/// Whether one double bond leads on from an atom that a chain comes to.
pub fn continues_chain(graph: &Graph, before: u32, at: u32) -> bool
    ensures { result ≡ continues_chain graph.now before at }
{
    is_allene_middle(graph, at) && onward_count(graph, before, at) == 1
}

fn onward_count(graph: &Graph, before: u32, at: u32) -> usize
    ensures { result ≡ length (onward graph.now before at) }
{
    let mut count = 0;
    for edge in graph.edges_at(at) {
        count += one_if(is_onward(edge, before, at));
    }
    count
}

// Whether an edge at an atom is a double bond that leads on.
fn is_onward(edge: &Edge, before: u32, at: u32) -> bool
    ensures { result ≡ ((edge.now.order == 2) && not (other_end at edge.now == before)) }
{
    edge.order == 2 && edge.other_end(at) != before
}

fn next_atom(graph: &Graph, before: u32, at: u32) -> u32
    ensures { result ≡ next_atom graph.now before at }
{
    for edge in graph.edges_at(at) {
        if is_onward(edge, before, at) {
            return edge.other_end(at);
        }
    }
    at
}
