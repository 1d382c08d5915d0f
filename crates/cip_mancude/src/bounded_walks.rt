// The search for ways by turns over a single and a double bond, as alternating rings go.
ghost use Rattle.std.specs.Prelude.{◌≡◌, ◌==◌, ◌&&◌, ◌≤◌, ◌+◌, ◌*◌, length, not, true};
ghost use Rattle.cip_digraph.specs.graph.Graph.{edges_at};
ghost use Rattle.cip_mancude.specs.SharedRings.{passes_along, passes_through, reaches_by};

use crate::alternating::Alternation;
use crate::path::Path;

/// How many further double bonds a ring has at most.
pub const MOST_DOUBLES: u32 = 11;

/// How many further double bonds a ring of six atoms has.
const DOUBLES_OF_SIX: u32 = 2;

/// Where ways have to lead, and an atom that they have to meet.
#[derive(Clone, Copy)]
pub struct WalkTarget {
    pub target: u32,
    pub third: u32,
}

/// Whether a way as in a ring of six atoms goes on from a path to the aim, over n double bonds at most. Most
/// rings are such, and few ways are followed.
pub fn closes_six_ring(
    alternation: &Alternation,
    aim: WalkTarget,
    more: u32,
    path: &mut Path,
    at: u32,
) -> bool
    requires room { length path.old + 2 * more ≤ 24 }
    ensures found { result ≡ true → reaches_by alternation.now aim.third aim.target more path.old at ≡ true }
    ensures path { path.new ≡ path.old }
{
    reaches_by(alternation, aim, more.min(DOUBLES_OF_SIX), path, at)
}

/// Whether a way over n double bonds at most goes on from a path to the aim. Small rings are tried first.
pub fn reaches_early(
    alternation: &Alternation,
    aim: WalkTarget,
    more: u32,
    path: &mut Path,
    at: u32,
) -> bool
    requires room { length path.old + 2 * more ≤ 24 }
    ensures value { result ≡ reaches_by alternation.now aim.third aim.target more path.old at }
    ensures path { path.new ≡ path.old }
{
    closes_six_ring(alternation, aim, more, path, at)
        || reaches_by(alternation, aim, more, path, at)
}

/// The same by one search. From an atom at most two single bonds lead on, so at most 4,095 ways are followed over
/// eleven double bonds.
#[cycle(reaches_by)]
#[tactic(auto, using(crate::proofs::lemmas::WaySteps::reaches_none, crate::proofs::lemmas::WaySteps::reaches_some))]
pub fn reaches_by(
    alternation: &Alternation,
    aim: WalkTarget,
    more: u32,
    path: &mut Path,
    at: u32,
) -> bool
    requires { length path.old + 2 * more ≤ 24 }
    ensures value { result ≡ reaches_by alternation.now aim.third aim.target more path.old at }
    ensures path { path.new ≡ path.old }
{
    if at == aim.target && path.contains(aim.third) {
        return true;
    }
    more > 0 && passes_along(alternation, aim, more - 1, path, at)
}

// Whether the search goes on along a single bond and reaches its aim.
#[cycle(reaches_by)]
fn passes_along(
    alternation: &Alternation,
    aim: WalkTarget,
    more: u32,
    path: &mut Path,
    at: u32,
) -> bool
    requires { length path.old + 2 * more + 2 ≤ 24 }
    ensures value { result
        ≡ passes_along alternation.now aim.third aim.target more path.old at (edges_at alternation.now at) }
    ensures path { path.new ≡ path.old }
{
    for edge in alternation.edges_at(at) {
        if edge.order == 1 && passes_through(alternation, aim, more, path, edge.other_end(at)) {
            return true;
        }
    }
    false
}

// Whether the search goes on through an atom and its partner and reaches its aim.
#[cycle(reaches_by)]
fn passes_through(
    alternation: &Alternation,
    aim: WalkTarget,
    more: u32,
    path: &mut Path,
    next: u32,
) -> bool
    requires { length path.old + 2 * more + 2 ≤ 24 }
    ensures value { result ≡ passes_through alternation.now aim.third aim.target more path.old next }
    ensures path { path.new ≡ path.old }
{
    let Some(other) = alternation.partner(next) else {
        return false;
    };
    if misses(aim, more, other) {
        return false;
    }
    if !alternation.alternates(other) || path.contains(next) || path.contains(other) {
        return false;
    }
    path.push(next);
    path.push(other);
    let found = reaches_by(alternation, aim, more, path, other);
    path.pop();
    path.pop();
    found
}

// Whether a way ends at an atom, and not at its aim.
fn misses(aim: WalkTarget, more: u32, at: u32) -> bool
    ensures { result ≡ ((more == 0) && not (at == aim.target)) }
{
    more == 0 && at != aim.target
}
