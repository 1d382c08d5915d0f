// What two spheres show of the branches at a root's ligands.
ghost use Rattle.std.specs.Prelude.{◌≡◌, ◌≤◌, ◌-◌, ◌++◌, ◌∷◌, [], length, IfSome, IsNone, OnOk};
ghost use Rattle.cip_digraph.specs.Asking.{decided, differing};
ghost use Rattle.cip_mol.specs.declared.labels.outcome.Rule.TheVariants.{R1a};
ghost use Rattle.cip_ranker.specs.RootDecisions.{branch_at, branches_of, told_between};
ghost use Rattle.cip_ranker.specs.Rows.{count_below, shown_of};

use crate::caches::child_keys::push_child_keys;
use crate::root::Root;
use cip_arena::z_of;
use cip_digraph::Decision;
use cip_mol::{Ligand, Rule};
use cip_rank::child_sets::compare_sets;
use cip_rank::zip_results;
use std::alloc::{AllocError, Global};
use std::cmp::Ordering;
use std::marker::Model;

/// Initial capacities: four ligands, and the number of keys below most of them.
const MOST_LIGANDS: usize = 4;

const MOST_BELOW: usize = 8;

/// The node at a neighbour of a root: its vertex and atomic key, and how many nodes are below it.
#[derive(Clone, Copy)]
pub struct BranchTop {
    vertex: u32,
    key: u32,
    below: usize,
}

/// The branch at a neighbour of a root: the atomic keys of its node, and of the nodes below that, highest first.
#[derive(Drop)]
pub struct TwoSphereBranch<'a> {
    pub vertex: u32,
    key: u32,
    below: &'a [u32],
}

impl<'a> Model for TwoSphereBranch<'a> {
    ghost use Rattle.cip_ranker.specs.RootDecisions.{Branch};

    ghost Value = { Branch };

    ghost view = { λ shown. record { vertex = shown.vertex; key = shown.key; below = shown.below.now } };
}

/// Branches in a row: their nodes, and the keys below all of these.
#[derive(Drop)]
pub struct Row<'a> {
    tops: &'a [BranchTop],
    keys: &'a [u32],
}

impl<'a> Model for Row<'a> {
    ghost use Rattle.std.specs.Prelude.{List};
    ghost use Rattle.cip_ranker.specs.RootDecisions.{Branch};
    ghost use Rattle.cip_ranker.specs.Rows.{shown_of};

    ghost Value = { List Branch };

    ghost view = { λ row. shown_of row.tops.now row.keys.now };
}

impl<'a> Row<'a> {
    /// The same branches once more.
    pub fn copy(&self) -> Row<'a>
        ensures { result ≡ self.now }
    {
        Row {
            tops: self.tops,
            keys: self.keys,
        }
    }

    /// The first branch, and those after it.
    #[tactic(auto, using(crate::proofs::lemmas::ShownRows::as_many_taken, crate::proofs::lemmas::ShownRows::as_many_left))]
    pub fn split_first(&self) -> Option<(TwoSphereBranch<'a>, Row<'a>)>
        ensures some { IfSome result (λ parts. self.now ≡ parts.0 ∷ parts.1) }
        ensures none { IsNone result → self.now ≡ [] }
    {
        let [top, behind @ ..] = self.tops else {
            return None;
        };
        let (below, later) = self.keys.split_at(top.below.min(self.keys.len()));
        let shown = TwoSphereBranch {
            vertex: top.vertex,
            key: top.key,
            below,
        };
        Some((
            shown,
            Row {
                tops: behind,
                keys: later,
            },
        ))
    }
}

/// The branches of a root that are shown, in memory used for one root after the other.
#[derive(Drop)]
pub struct TwoSphereBuffer {
    pub tops: Vec<BranchTop>,
    pub keys: Vec<u32>,
    // the keys below one of them, while they are put in order
    below: Vec<u32>,
}

impl TwoSphereBuffer {
    /// None, with room for four ligands.
    pub fn reserve(alloc: Global) -> Result<TwoSphereBuffer, AllocError> {
        let all = zip_results(
            Vec::with_capacity(alloc, MOST_LIGANDS),
            Vec::with_capacity(alloc, MOST_LIGANDS * MOST_BELOW),
        );
        let Ok(((tops, keys), below)) = zip_results(all, Vec::with_capacity(alloc, MOST_BELOW))
        else {
            return Err(AllocError);
        };
        Ok(TwoSphereBuffer { tops, keys, below })
    }

    /// The branches in a row.
    pub fn row(&self) -> Row<'_>
        ensures { result ≡ shown_of self.now.tops.items self.now.keys.items }
    {
        Row {
            tops: self.tops.as_slice(),
            keys: self.keys.as_slice(),
        }
    }
}

// Adds the branch at a neighbour of the root: its key and the keys of the nodes below it.
#[tactic(auto, using(crate::proofs::lemmas::EdgeKeys::below_sorted, crate::proofs::lemmas::ShownRows::count_behind))]
fn show(root: &Root<'_>, vertex: u32, shown: &mut TwoSphereBuffer) -> Result<(), AllocError>
    requires all { length shown.old.keys.items ≡ count_below shown.old.tops.items }
    ensures all { OnOk result (length shown.new.keys.items ≡ count_below shown.new.tops.items) }
    ensures shown { OnOk result (shown_of shown.new.tops.items shown.new.keys.items
        ≡ shown_of shown.old.tops.items shown.old.keys.items
        ++ branch_at root.now.graph.now root.now.positions.now root.now.at vertex ∷ []) }
{
    shown.below.clear();
    let Ok(()) = push_child_keys(root, vertex, &mut shown.below) else {
        return Err(AllocError);
    };
    let Ok(()) = shown.tops.push(BranchTop {
        vertex,
        key: 6 * z_of(root.graph, vertex) as u32,
        below: shown.below.len(),
    })
    else {
        return Err(AllocError);
    };
    shown.keys.extend_from_slice(shown.below.as_slice())
}

/// Shows the branches at ligands; a lone pair has none.
pub fn collect_branches(
    root: &Root<'_>,
    ligands: &[Ligand],
    shown: &mut TwoSphereBuffer,
) -> Result<(), AllocError>
    ensures { OnOk result (shown_of shown.new.tops.items shown.new.keys.items
        ≡ branches_of root.now.graph.now root.now.positions.now root.now.at ligands.now) }
{
    shown.tops.clear();
    shown.keys.clear();
    let mut rest = ligands;
    while let [ligand, others @ ..] = rest {
        if let Ligand::Vertex(vertex) = ligand {
            let Ok(()) = show(root, *vertex, shown) else {
                return Err(AllocError);
            };
        }
        rest = others;
    }
    Ok(())
}

// A decision by Rule 1a in this sphere; none if they are equal.
fn compare_branches(side: Ordering, sphere: u32) -> Option<Decision>
    requires { 1 ≤ sphere }
    ensures { result ≡ decided R1a (differing (sphere - 1) side) }
{
    if side.is_eq() {
        None
    } else {
        Some(Decision {
            side,
            rule: Rule::R1a,
            sphere,
        })
    }
}

/// What the nodes of two branches decide, and where these tie the sets below them. A set that ends first is lower.
pub fn tell(one: &TwoSphereBranch<'_>, other: &TwoSphereBranch<'_>) -> Option<Decision>
    ensures { result ≡ told_between one.now other.now }
{
    let side = one.key.cmp(&other.key);
    if side.is_ne() {
        compare_branches(side, 1)
    } else {
        compare_branches(compare_sets(one.below, other.below), 2)
    }
}
