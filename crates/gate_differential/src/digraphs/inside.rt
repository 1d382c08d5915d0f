// The descriptors that are inside the whole digraph of an atom.
ghost use Rattle.std.specs.Prelude.{◌≡◌, ◌<◌, ◌≤◌, ◌^◌, true, length, map, IfOk};
ghost use Rattle.cip_arena.specs.Growth.{Holds};
ghost use Rattle.cip_digraph.specs.digraph.Telling.{TellsWhole};
ghost use Rattle.cip_digraph.specs.graph.DrawnGraph.{graph_of};
ghost use Rattle.cip_digraph.specs.units.Units.{sites_of};

use crate::molecule_rows::molecules::{Drawn, drawn_of, read_molecule};
use cip_arena::{Arena, Grown};
use cip_aux::{UnitIndex, WholeDigraph};
use cip_aux_rank::{AuxRanker, descriptors_inside};
use cip_digraph::{Descriptors, Nodes};
use cip_mol::{Molecule, Unit};
use cip_rank::{Rules, Steps};
use cip_unit::units;
use gate_tables::Text;
use std::alloc::{AllocError, Global};
use std::sync::ledger::Ledger;

// More spheres than any of the digraphs has.
const MOST_SPHERES: u32 = 40;
// Room for all nodes of each of them.
const MOST_NODES: u32 = 400;

/// Each node with a descriptor inside the digraph of an atom of a record, by the number of its atom there.
pub fn inside<L: Ledger>(
    alloc: Global,
    out: &mut Text,
    record: &[u8],
    atom: u32,
    steps: &mut Steps<L>,
) {
    let read = read_molecule(alloc, record);
    match &read {
        Ok(Some(molecule)) => {
            if inside_molecule(alloc, out, molecule, atom, steps).is_err() {
                out.miss()
            }
        }
        Ok(None) => out.push_str("no molecule"),
        Err(_) => out.miss(),
    }
    // proof: dropped by a call, here and below, which is quicker to prove than the end of scope
    drop(read);
}

fn inside_molecule<L: Ledger>(
    alloc: Global,
    out: &mut Text,
    molecule: &Molecule,
    atom: u32,
    steps: &mut Steps<L>,
) -> Result<(), AllocError> {
    let drawn = drawn_of(alloc, molecule)?;
    let node_data = inside_units(alloc, out, molecule, &drawn, atom, steps);
    drop(drawn);
    node_data
}

fn inside_units<L: Ledger>(
    alloc: Global,
    out: &mut Text,
    molecule: &Molecule,
    drawn: &Drawn,
    atom: u32,
    steps: &mut Steps<L>,
) -> Result<(), AllocError>
    requires { drawn.now.graph ≡ graph_of molecule.now }
{
    let units = units(alloc, molecule, &drawn.graph, &drawn.positions)?;
    inside_drawn(alloc, out, drawn, units.list(), atom, steps);
    drop(units);
    Ok(())
}

fn inside_drawn<L: Ledger>(
    alloc: Global,
    out: &mut Text,
    drawn: &Drawn,
    units: &[Unit],
    atom: u32,
    steps: &mut Steps<L>,
)
    requires sites { map (λ unit. unit.site) units.now ≡ sites_of drawn.now.graph drawn.now.positions }
{
    if atom == 0 || atom as usize > drawn.graph.vertices().len() {
        return out.push_str("no root");
    }
    let Ok(mut arena) = Arena::reserve(alloc, MOST_NODES) else {
        return out.miss();
    };
    arena.start(&drawn.graph, atom - 1);
    if grow_whole(drawn, &mut arena, steps) && arena.len() <= MOST_NODES {
        push_inside(alloc, out, &arena, drawn, units, atom - 1);
    } else {
        out.push_str("no room");
    }
    drop(arena);
}

// Grows a digraph until there is no further node.
fn grow_whole<L: Ledger>(drawn: &Drawn, arena: &mut Arena, steps: &mut Steps<L>) -> bool
    requires { Holds drawn.now.graph drawn.now.positions arena.old }
    ensures { result ≡ true
        → TellsWhole drawn.now.graph drawn.now.positions arena.old.root arena.new.sphere arena.new.nodes }
{
    for _ in 0..MOST_SPHERES {
        match arena.grow(&drawn.graph, &drawn.positions, steps) {
            Grown::Grown => {}
            Grown::Whole => return true,
            Grown::Over => return false,
        }
    }
    false
}

fn push_inside(
    alloc: Global,
    out: &mut Text,
    arena: &Arena,
    drawn: &Drawn,
    units: &[Unit],
    root: u32,
)
    requires whole { TellsWhole drawn.now.graph drawn.now.positions root arena.now.sphere arena.now.nodes }
    requires root { root < length drawn.now.graph.vertices }
    requires sites { map (λ unit. unit.site) units.now ≡ sites_of drawn.now.graph drawn.now.positions }
    requires few { length arena.now.nodes < 2 ^ 31 }
{
    match find_descriptors(alloc, arena, drawn, units, root) {
        Ok(descriptors) => push_descriptors(out, arena, &descriptors),
        Err(_) => out.miss(),
    }
}

// The descriptor of each node of a whole digraph, in memory for it alone.
fn find_descriptors(
    alloc: Global,
    arena: &Arena,
    drawn: &Drawn,
    units: &[Unit],
    root: u32,
) -> Result<Descriptors, AllocError>
    requires whole { TellsWhole drawn.now.graph drawn.now.positions root arena.now.sphere arena.now.nodes }
    requires root { root < length drawn.now.graph.vertices }
    requires sites { map (λ unit. unit.site) units.now ≡ sites_of drawn.now.graph drawn.now.positions }
    requires few { length arena.now.nodes < 2 ^ 31 }
    ensures { IfOk result (λ descriptors. length descriptors.descriptors ≡ length arena.now.nodes) }
{
    let units = UnitIndex::new(alloc, units)?;
    let whole = WholeDigraph::new(
        arena,
        &drawn.graph,
        &drawn.positions,
        Rules::Wording2018,
        root,
        arena.sphere(),
    );
    let mut aux_ranker = AuxRanker::reserve(alloc, arena.len())?;
    let descriptors = fill_descriptors(alloc, &whole, &units, &mut aux_ranker);
    // proof: dropped by a call; at the end of scope it takes minutes to prove
    drop(aux_ranker);
    descriptors
}

// The same, as it is looked at.
fn fill_descriptors(
    alloc: Global,
    whole: &WholeDigraph<'_, Arena>,
    units: &UnitIndex<'_>,
    aux_ranker: &mut AuxRanker,
) -> Result<Descriptors, AllocError>
    requires sites { map (λ unit. unit.site) units.now ≡ sites_of whole.now.graph whole.now.positions }
    requires room { length whole.now.node_data ≤ aux_ranker.old.bound }
    ensures { IfOk result (λ descriptors. length descriptors.descriptors ≡ length whole.now.node_data) }
{
    let count = whole.nodes().table().len();
    let mut descriptors = Descriptors::reserve(alloc, count)?;
    descriptors_inside(alloc, whole, units, aux_ranker, &mut descriptors)?;
    Ok(descriptors)
}

fn push_descriptors(out: &mut Text, arena: &Arena, descriptors: &Descriptors)
    requires { length descriptors.now.descriptors ≡ length arena.now.nodes }
{
    for node in 0..arena.len() {
        if let (Some(vertex), Some(descriptor)) = (arena.vertex(node), descriptors.get(node)) {
            out.push_number(i64::from(vertex) + 1);
            write!(out, " {descriptor}");
        }
    }
}
