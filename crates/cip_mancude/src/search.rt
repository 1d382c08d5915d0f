// The search for alternating rings.
ghost use Rattle.std.specs.Prelude.{◌≡◌, ◌≤◌, ◌∷◌, [], Some, IfOk};
ghost use Rattle.cip_digraph.specs.rings.Alternating.{closes_ring, reaches};
ghost use Rattle.cip_mancude.specs.Partners.{alternating_partner, can_close};

use crate::alternating::Alternation;
use crate::bounded_walks::{MOST_DOUBLES, WalkTarget, closes_six_ring, reaches_by};
use crate::path::Path;
use crate::walk::has_walk;
use cip_ring::VertexSet;
use std::alloc::{AllocError, Global};

/// Whether the single bond between two atoms lies in an alternating ring. The set serves the search.
pub fn closes_ring(
    alloc: Global,
    alternation: &Alternation,
    vertex: u32,
    other: u32,
    reached: &mut VertexSet,
) -> Result<bool, AllocError>
    ensures { IfOk result (λ found. found ≡ closes_ring alternation.now vertex other) }
{
    let Some(next) = alternation.partner(vertex) else {
        return Ok(false);
    };
    if can_close(alternation, vertex, next, other) {
        // Each way meets the atom with which it begins.
        let aim = WalkTarget {
            target: other,
            third: vertex,
        };
        finds_ring(alloc, alternation, aim, next, MOST_DOUBLES, reached)
    } else {
        Ok(false)
    }
}

// Whether a single bond joins two atoms that alternate, as the partner of the one does.
fn can_close(alternation: &Alternation, vertex: u32, next: u32, other: u32) -> bool
    requires { alternating_partner alternation.now vertex ≡ Some next }
    ensures { result ≡ can_close alternation.now vertex other }
{
    alternation.alternates(next)
        && alternation.alternates(other)
        && alternation.is_single(vertex, other)
        && other != next
}

// Most rings have six atoms. Most other bonds are decided by walks, which are few: at each atom at most two lead on,
// and none is followed twice. A ring meets no atom twice, so that where a walk leads round, paths are followed.
fn finds_ring(
    alloc: Global,
    alternation: &Alternation,
    aim: WalkTarget,
    next: u32,
    most: u32,
    reached: &mut VertexSet,
) -> Result<bool, AllocError>
    requires { most ≤ 11 }
    ensures { IfOk result (λ found. found ≡ reaches alternation.now aim.target most (next ∷ aim.third ∷ []) next) }
{
    let mut path = Path::new(alloc);
    path.push(aim.third);
    path.push(next);
    goes_round(alternation, aim, next, most, &mut path, reached)
}

// The same along a path that has begun.
fn goes_round(
    alternation: &Alternation,
    aim: WalkTarget,
    next: u32,
    most: u32,
    path: &mut Path,
    reached: &mut VertexSet,
) -> Result<bool, AllocError>
    requires most { most ≤ 11 }
    requires begun { path.old ≡ next ∷ aim.third ∷ [] }
    ensures { IfOk result (λ found. found ≡ reaches alternation.now aim.target most (next ∷ aim.third ∷ []) next) }
{
    if closes_six_ring(alternation, aim, most, path, next) {
        Ok(true)
    } else {
        match has_walk(alternation, aim.target, most, next, reached) {
            Ok(true) => Ok(reaches_by(alternation, aim, most, path, next)),
            Ok(false) => Ok(false),
            Err(error) => Err(error),
        }
    }
}
