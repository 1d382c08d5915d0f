// Rule 4b between two branches.
ghost use Rattle.std.specs.Prelude.{◌≤◌, length};
ghost use Rattle.cip_branches.specs.Deciding.{AreFollowed};
ghost use Rattle.cip_partition.specs.Keys.{AreKeyed};

use crate::trees::{Case, ROOM};
use cip_branches::Branches;
use cip_digraph::{BranchPair, Decision, Descriptors};
use cip_mol::Descriptor;
use cip_rules::{Rule4bWorkspace, apply_rule_4b};
use gate_tables::Text;
use std::alloc::{AllocError, Global};
use std::cmp::Ordering;

fn descriptor_of(letter: u8) -> Option<Descriptor> {
    match letter {
        b'R' => Some(Descriptor::R),
        b'S' => Some(Descriptor::S),
        b'r' => Some(Descriptor::SmallR),
        b's' => Some(Descriptor::SmallS),
        b'Z' => Some(Descriptor::Z),
        b'E' => Some(Descriptor::E),
        _ => None,
    }
}

/// The descriptors of nodes, a letter each.
pub fn descriptors(alloc: Global, letters: &[u8]) -> Result<Descriptors, AllocError> {
    let mut all = Descriptors::reserve(alloc, ROOM)?;
    for letter in letters {
        if all.len() < ROOM {
            all.push(descriptor_of(*letter));
        }
    }
    Ok(all)
}

/// What both readings decide between the first two branches, by the descriptors of the nodes, a letter each: whether the
/// first one precedes or follows, and in which sphere.
pub fn push_readings(
    alloc: Global,
    out: &mut Text,
    branches: &Branches,
    case: &Case<'_>,
    letters: &[u8],
)
    requires followed { AreFollowed branches.now }
    requires keyed { AreKeyed (length case.now.keys.now) branches.now.layers.place_tree }
{
    let Ok(descriptors) = descriptors(alloc, letters) else {
        return out.miss();
    };
    if descriptors.len() as usize != case.keys.len() || branches.len() > ROOM {
        return out.push_str("out of range");
    }
    match decided(alloc, branches, &descriptors) {
        Ok(decision) => push_decision(out, decision),
        Err(_) => out.miss(),
    }
}

fn decided(
    alloc: Global,
    branches: &Branches,
    descriptors: &Descriptors,
) -> Result<Option<Decision>, AllocError>
    requires followed { AreFollowed branches.now }
    requires keyed { AreKeyed (length descriptors.now.descriptors) branches.now.layers.place_tree }
    requires fits { length branches.now.layers.place_tree.place_parents ≤ ROOM }
{
    let mut readings = Rule4bWorkspace::reserve(alloc, ROOM)?;
    let mut request = [BranchPair {
        first: 0,
        second: 1,
        decision: None,
    }];
    apply_rule_4b(branches, &mut readings, descriptors, &mut request);
    // proof: dropped by a call; at the end of scope it takes a minute to prove
    drop(readings);
    Ok(request[0].decision)
}

/// What was decided: how the first branch stands, and in which sphere.
pub fn push_decision(out: &mut Text, decision: Option<Decision>) {
    let Some(Decision { side, sphere, .. }) = decision else {
        return out.push_str("tie");
    };
    match side {
        Ordering::Greater => write!(out, "higher {sphere}"),
        Ordering::Less => write!(out, "lower {sphere}"),
        Ordering::Equal => write!(out, "equal {sphere}"),
    }
}
