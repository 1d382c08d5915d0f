// What is reached from a vertex in n steps, breadth first. No vertex is looked at twice.
ghost use Rattle.std.specs.Prelude.{◌≡◌, ℕ, List, ◌∷◌, [], ◌≤◌, take, length, IfOk, OnOk};
ghost use Rattle.cip_digraph.specs.rings.SmallRings.{with_new};
ghost use Rattle.cip_ring.specs.Neighbours.{next_within, NothingNew, TellsLeast, within};

use crate::vertex_set::VertexSet;
use std::alloc::AllocError;

/// Where one step leads from a vertex.
pub trait Neighbours {
    ghost step: { Self → ℕ → List ℕ };

    /// Adds where a step leads, as far as it isn't there.
    fn add_steps(&self, from: u32, reached: &mut VertexSet) -> Result<(), AllocError>
        ensures { OnOk result (reached.new ≡ with_new reached.old (step self.now from)) };
}

/// Leaves in a set what is reached in n steps at most. What it held before goes.
pub fn reach_within<S: Neighbours>(
    steps: &S,
    from: u32,
    most: u32,
    reached: &mut VertexSet,
) -> Result<(), AllocError>
    ensures { OnOk result (reached.new ≡ within (S.step steps.now) from most) }
{
    let Ok(()) = start(from, reached) else {
        return Err(AllocError);
    };
    let mut done = 0;
    for _ in 0..most {
        let count = reached.len();
        let Ok(()) = step_on(steps, done, reached) else {
            return Err(AllocError);
        };
        done = count;
    }
    Ok(())
}

/// The least number of steps that reach a target, where n at most do. The set serves the search, which drops what
/// it held before.
pub fn distance_to<S: Neighbours>(
    steps: &S,
    from: u32,
    target: u32,
    most: u32,
    reached: &mut VertexSet,
) -> Result<Option<u32>, AllocError>
    ensures { IfOk result (TellsLeast (S.step steps.now) from target most) }
{
    let Ok(()) = start(from, reached) else {
        return Err(AllocError);
    };
    let mut done = 0;
    for taken in 0..most {
        if reached.contains(target) {
            return Ok(Some(taken));
        }
        let count = reached.len();
        if count == done {
            return Ok(None);
        }
        let Ok(()) = step_on(steps, done, reached) else {
            return Err(AllocError);
        };
        done = count;
    }
    if reached.contains(target) {
        Ok(Some(most))
    } else {
        Ok(None)
    }
}

fn start(from: u32, reached: &mut VertexSet) -> Result<(), AllocError>
    ensures { OnOk result (reached.new ≡ from ∷ []) }
{
    reached.clear();
    let Ok(()) = reached.reserve() else {
        return Err(AllocError);
    };
    reached.insert_if(true, from)
}

// One step from all vertices that were reached; from the first of them no new vertex is reached.
fn step_on<S: Neighbours>(steps: &S, done: usize, reached: &mut VertexSet) -> Result<(), AllocError>
    requires within { done ≤ length reached.old }
    requires done { NothingNew (S.step steps.now) (take done reached.old) reached.old }
    ensures { OnOk result (reached.new ≡ next_within (S.step steps.now) reached.old) }
{
    for place in done..reached.len() {
        let vertex = reached.get(place);
        let Ok(()) = steps.add_steps(vertex, reached) else {
            return Err(AllocError);
        };
    }
    Ok(())
}
