// The digraphs of all vertices of a molecule.
ghost use Rattle.std.specs.Prelude.{◌≡◌, ◌<◌, ◌≤◌, ◌^◌, length};
ghost use Rattle.gate_differential.specs.Tables.{HaveRoom};

use crate::counts::Counts;
use crate::digraphs::settled::{COMPARED, compare_settled};
use crate::digraphs::twice::{Difference, Extent, compare_sphere};
use crate::molecule_rows::molecules::Drawn;
use crate::tables::Tables;
use cip_arena::Grown;
use cip_rank::Steps;
use std::alloc::{AllocError, Global};
use std::fmt;
use std::sync::ledger::Ledger;

// The last sphere that is made.
const SPHERES: u32 = 6;

/// The first difference between the digraphs of a molecule: of which root, and up to which sphere.
#[derive(Clone, Copy)]
pub struct Found {
    root: u32,
    sphere: u32,
    difference: Difference,
}

impl fmt::Display for Found {
    fn fmt<W: fmt::Write>(&self, f: &mut fmt::Formatter<W>) -> fmt::Result {
        let (root, sphere) = (self.root, self.sphere);
        match self.difference {
            Difference::Node(node) => {
                write!(f, "root {root}, sphere {sphere}: node {node} differs")
            }
            Difference::Branches(first, second) => {
                write!(
                    f,
                    "root {root}, sphere {sphere}: branches {first} and {second} stand otherwise"
                )
            }
        }
    }
}

/// Compares the digraphs of all vertices, with room for n nodes of each.
pub fn compare_roots<L: Ledger>(
    alloc: Global,
    drawn: &Drawn,
    nodes: u32,
    steps: &mut Steps<L>,
    counts: &mut Counts,
) -> Result<Option<Found>, AllocError>
    requires some { 0 < nodes }
    requires few { nodes < 2 ^ 31 }
{
    let mut tables = Tables::reserve(alloc, nodes)?;
    let found = compare_each(alloc, drawn, &mut tables, steps, counts);
    // proof: dropped by a call; at the ends of a loop it takes minutes to prove
    drop(tables);
    found
}

// The same over tables that are lent: of each root its digraphs, node by node and where they are whole, and what
// settling notes of it.
fn compare_each<L: Ledger>(
    alloc: Global,
    drawn: &Drawn,
    tables: &mut Tables,
    steps: &mut Steps<L>,
    counts: &mut Counts,
) -> Result<Option<Found>, AllocError>
    requires room { HaveRoom tables.old }
{
    for root in 0..drawn.graph.vertices().len() as u32 {
        let grown = compare_grown(alloc, drawn, tables, root, steps, counts)?;
        if grown.is_some() {
            return Ok(grown);
        }
        if let Some(difference) = compare_settled(alloc, drawn, tables, root, steps, counts)? {
            return Ok(Some(Found {
                root,
                sphere: tables.arena.sphere(),
                difference,
            }));
        }
        counts.roots = counts.roots.saturating_add(1);
    }
    Ok(None)
}

// Compares the digraphs of a root, as far as there is room.
fn compare_grown<L: Ledger>(
    alloc: Global,
    drawn: &Drawn,
    tables: &mut Tables,
    root: u32,
    steps: &mut Steps<L>,
    counts: &mut Counts,
) -> Result<Option<Found>, AllocError>
    requires room { HaveRoom tables.old }
    requires root { root < length drawn.now.graph.vertices }
    ensures room { HaveRoom tables.new }
{
    tables.arena.start(&drawn.graph, root);
    for sphere in 1..SPHERES + 1 {
        let grown = tables.arena.grow(&drawn.graph, &drawn.positions, steps);
        if grown != Grown::Grown || sphere == SPHERES {
            let extent = Extent {
                root,
                is_whole: grown == Grown::Whole,
                branches: sphere <= COMPARED + 1,
            };
            let found = compare_sphere(alloc, drawn, tables, extent, counts)?;
            return Ok(found.map(|difference| Found {
                root,
                sphere,
                difference,
            }));
        }
    }
    Ok(None)
}
