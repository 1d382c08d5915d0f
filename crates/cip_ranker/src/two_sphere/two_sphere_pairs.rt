// What two spheres say of each two branches.
ghost use Rattle.std.specs.Prelude.{◌≡◌, ◌++◌, OnOk};
ghost use Rattle.cip_ranker.specs.RootDecisions.{answers_at, answers_of};

use crate::two_sphere::two_sphere_branches::{Row, TwoSphereBranch, tell};
use cip_digraph::BranchPair;
use std::alloc::AllocError;

// Pushes the pairs of one branch with each of the others, and what two spheres decide between them.
fn note_with_each(
    one: &TwoSphereBranch<'_>,
    branches: Row<'_>,
    noted: &mut Vec<BranchPair>,
) -> Result<(), AllocError>
    ensures { OnOk result (noted.new.items ≡ noted.old.items ++ answers_at branches.entry one.now) }
{
    let mut rest = branches;
    while let Some((other, others)) = rest.split_first() {
        if one.vertex != other.vertex {
            let Ok(()) = noted.push(BranchPair {
                first: one.vertex,
                second: other.vertex,
                decision: tell(one, &other),
            }) else {
                return Err(AllocError);
            };
        }
        rest = others;
    }
    Ok(())
}

/// Notes what is known of each two different branches, the earlier one first.
pub fn decide_each_pair(branches: Row<'_>, noted: &mut Vec<BranchPair>) -> Result<(), AllocError>
    ensures { OnOk result (noted.new.items ≡ answers_of branches.entry) }
{
    noted.clear();
    let mut rest = branches;
    while let Some((one, others)) = rest.split_first() {
        let Ok(()) = note_with_each(&one, others.copy(), noted) else {
            return Err(AllocError);
        };
        rest = others;
    }
    Ok(())
}
